// The options, by the words that name them, and their values.
use crate::digits;
use crate::fault::Fault;

// In the order in which one that does not suit the command is told.
#[derive(Clone, Copy, PartialEq, Eq)]
pub(crate) enum Choice {
    Coding,
    Count,
    Units,
    Room,
    Sequence,
    Identifier,
    Page,
    Letters,
    Reference,
    Part,
    Counts,
    Mark,
    Json,
}

pub(crate) const CHOICES: [Choice; 13] = [
    Choice::Coding,
    Choice::Count,
    Choice::Units,
    Choice::Room,
    Choice::Sequence,
    Choice::Identifier,
    Choice::Page,
    Choice::Letters,
    Choice::Reference,
    Choice::Part,
    Choice::Counts,
    Choice::Mark,
    Choice::Json,
];

impl Choice {
    pub(crate) fn named(word: &[u8]) -> Option<Choice> {
        CHOICES.iter().copied().find(|choice| choice.name() == word)
    }

    pub(crate) fn name(self) -> &'static [u8] {
        match self {
            Choice::Coding => b"--coding",
            Choice::Count => b"--count",
            Choice::Units => b"--units",
            Choice::Room => b"--room",
            Choice::Sequence => b"--sequence",
            Choice::Identifier => b"--identifier",
            Choice::Page => b"--page",
            Choice::Letters => b"--letters",
            Choice::Reference => b"--reference",
            Choice::Part => b"--part",
            Choice::Counts => b"--counts",
            Choice::Mark => b"--mark",
            Choice::Json => b"--json",
        }
    }
}

// The values of the options that are given.
#[derive(Clone, Copy)]
pub(crate) struct Options<'a> {
    pub coding: Option<u8>,
    pub count: Option<u32>,
    // How many units were stored.
    pub units: Option<usize>,
    pub room: Option<u32>,
    pub sequence: Option<u16>,
    pub identifier: Option<u16>,
    pub page: Option<u32>,
    pub letters: Option<[u8; 2]>,
    pub reference: Option<u8>,
    pub part: Option<u32>,
    // As they are typed.
    pub counts: Option<&'a [u8]>,
    pub mark: Option<bool>,
    pub json: bool,
}

impl<'a> Options<'a> {
    pub(crate) fn none() -> Options<'a> {
        Options {
            coding: None,
            count: None,
            units: None,
            room: None,
            sequence: None,
            identifier: None,
            page: None,
            letters: None,
            reference: None,
            part: None,
            counts: None,
            mark: None,
            json: false,
        }
    }

    pub(crate) fn gives(&self, choice: Choice) -> bool {
        match choice {
            Choice::Coding => self.coding.is_some(),
            Choice::Count => self.count.is_some(),
            Choice::Units => self.units.is_some(),
            Choice::Room => self.room.is_some(),
            Choice::Sequence => self.sequence.is_some(),
            Choice::Identifier => self.identifier.is_some(),
            Choice::Page => self.page.is_some(),
            Choice::Letters => self.letters.is_some(),
            Choice::Reference => self.reference.is_some(),
            Choice::Part => self.part.is_some(),
            Choice::Counts => self.counts.is_some(),
            Choice::Mark => self.mark.is_some(),
            Choice::Json => self.json,
        }
    }

    // Takes in the value of an option, which is given for the first time; units are stored.
    pub(crate) fn set(
        &mut self,
        choice: Choice,
        word: &'a [u8],
        units: &mut [u16],
    ) -> Result<(), Fault<'a>> {
        match choice {
            Choice::Coding => {
                self.coding = Some(digits::octet_of(word).ok_or(Fault::Coding(word))?);
            }
            Choice::Units => {
                self.units = Some(digits::units_of(word, units).ok_or(Fault::Units(word))?);
            }
            Choice::Letters => self.letters = Some(letters_of(word).ok_or(Fault::Letters(word))?),
            Choice::Counts => {
                if !digits::are_counts(word) {
                    return Err(Fault::Counts(word));
                }
                self.counts = Some(word);
            }
            Choice::Count => self.count = Some(number_of(choice, word)?),
            Choice::Room => self.room = Some(number_of(choice, word)?),
            Choice::Page => self.page = Some(number_of(choice, word)?),
            Choice::Part => self.part = Some(number_of(choice, word)?),
            Choice::Sequence => self.sequence = Some(pair_of(choice, word)?),
            Choice::Identifier => self.identifier = Some(pair_of(choice, word)?),
            Choice::Reference => {
                let number = number_of(choice, word)?;
                self.reference = Some(u8::try_from(number).map_err(|_| Fault::Reference(word))?);
            }
            Choice::Mark => {
                self.mark = Some(match number_of(choice, word)? {
                    0 => false,
                    1 => true,
                    _ => return Err(Fault::Mark(word)),
                });
            }
            // It has no value.
            Choice::Json => self.json = true,
        }
        Ok(())
    }
}

// The value of an option that is a number.
fn number_of<'a>(choice: Choice, word: &'a [u8]) -> Result<u32, Fault<'a>> {
    typed::read_number(word).ok_or(if word.is_empty() {
        Fault::NoValue(choice)
    } else if !word.iter().all(u8::is_ascii_digit) {
        Fault::Number(word)
    } else if word.starts_with(b"0") {
        Fault::Zero(word)
    } else {
        Fault::Large(word)
    })
}

// The value of --sequence or --identifier.
fn pair_of<'a>(choice: Choice, word: &'a [u8]) -> Result<u16, Fault<'a>> {
    u16::try_from(number_of(choice, word)?).map_err(|_| Fault::Pair(word))
}

// The value of --letters: two characters, which the library judges. An octet 0 is none.
fn letters_of(word: &[u8]) -> Option<[u8; 2]> {
    match *word {
        [first @ 1..=127, second @ 1..=127] => Some([first, second]),
        _ => None,
    }
}
