// The library's refusals, and how what was refused is shown.
use crate::asked::Job;
use crate::tell::{Answer, Layout, Value, front};

// Why the library refuses, by the numbers of the C interface, which are told. The last two are not given yet.
#[derive(Clone, Copy, PartialEq, Eq)]
enum Reason {
    Compressed = 1,
    NoText = 2,
    Prefixed = 3,
    WrongLength = 4,
    TooLong = 5,
    Unlisted = 6,
    NoRoom = 7,
    Unwritable = 8,
    NoSeptet = 9,
    WrongPages = 10,
    WrongLetters = 11,
    WrongHeader = 12,
    NoTable = 13,
    IllFormed = 14,
}

impl Reason {
    // 0 is none.
    fn numbered(number: u32) -> Option<Reason> {
        match number {
            1 => Some(Reason::Compressed),
            2 => Some(Reason::NoText),
            3 => Some(Reason::Prefixed),
            4 => Some(Reason::WrongLength),
            5 => Some(Reason::TooLong),
            6 => Some(Reason::Unlisted),
            7 => Some(Reason::NoRoom),
            8 => Some(Reason::Unwritable),
            9 => Some(Reason::NoSeptet),
            10 => Some(Reason::WrongPages),
            11 => Some(Reason::WrongLetters),
            12 => Some(Reason::WrongHeader),
            13 => Some(Reason::NoTable),
            14 => Some(Reason::IllFormed),
            _ => None,
        }
    }

    fn meaning(self) -> &'static [u8] {
        match self {
            Reason::Compressed => b"the text is compressed",
            Reason::NoText => b"the coding holds no text",
            Reason::Prefixed => b"the coding has the prefix mark or the header mark",
            Reason::WrongLength => b"the octets do not fit the service or the count",
            Reason::TooLong => b"the text is over the service's size",
            Reason::Unlisted => b"a unit is not in the alphabet",
            Reason::NoRoom => b"the buffer is too short",
            Reason::Unwritable => b"the reading cannot be written under this service",
            Reason::NoSeptet => b"a septet is 128 or more",
            Reason::WrongPages => b"the pages or parts are not those of one message",
            Reason::WrongLetters => b"the language letters are wrong",
            Reason::WrongHeader => b"the user data header is wrong",
            Reason::NoTable | Reason::IllFormed => b"",
        }
    }

    // Whether it is of the coding octet, where a message is refused.
    fn is_of_coding(self) -> bool {
        matches!(
            self,
            Reason::Compressed | Reason::NoText | Reason::Prefixed | Reason::Unwritable
        )
    }
}

// A refusal, as a call of the library answers it.
#[derive(Clone, Copy)]
pub(crate) struct Refusal {
    reason: Reason,
    position: usize,
}

impl Refusal {
    pub(crate) fn of(number: u32, position: usize) -> Option<Refusal> {
        Some(Refusal {
            reason: Reason::numbered(number)?,
            position,
        })
    }

    fn number(self) -> Value<'static> {
        Value::Number(self.reason as u64)
    }

    // The refusal in words.
    pub(crate) fn put(self, answer: &mut Answer<'_>) {
        answer.puts(&[
            Value::Word(b"refused "),
            self.number(),
            Value::Word(b" at "),
            Value::Number(self.position as u64),
            Value::Word(b": "),
            Value::Word(self.reason.meaning()),
        ]);
    }

    // The refusal as an answer of its own.
    fn tell(self, answer: &mut Answer<'_>) {
        if answer.layout == Layout::Json {
            answer.fact(b"refused", self.number());
            answer.fact(b"position", Value::Number(self.position as u64));
            answer.fact(b"meaning", Value::Word(self.reason.meaning()));
        } else {
            self.put(answer);
            answer.end();
        }
    }
}

// What was refused.
#[derive(Clone, Copy)]
pub(crate) enum Shown<'a> {
    Coding(u8),
    Octets(&'a [u8]),
    Units(&'a [u16]),
    Text(&'a [u16]),
    Page(u32),
    Septets(&'a [u8]),
    // None, where none are given.
    Letters(Option<[u8; 2]>),
    Part(u32),
}

impl<'a> Shown<'a> {
    fn name(self) -> &'static [u8] {
        match self {
            Shown::Coding(_) => b"coding ",
            Shown::Octets(_) => b"octets ",
            Shown::Units(_) => b"units ",
            Shown::Text(_) => b"text ",
            Shown::Page(_) => b"page ",
            Shown::Septets(_) => b"septets ",
            Shown::Letters(_) => b"letters ",
            Shown::Part(_) => b"part ",
        }
    }

    fn value(self) -> Value<'a> {
        match self {
            Shown::Coding(octet) => Value::Octet(octet),
            Shown::Octets(octets) | Shown::Septets(octets) => Value::Octets(octets),
            Shown::Units(units) => Value::Units(units),
            Shown::Text(units) => Value::Text(units),
            Shown::Letters(Some(letters)) => Value::Letters(letters),
            Shown::Letters(None) => Value::Word(b""),
            Shown::Page(number) | Shown::Part(number) => Value::Number(u64::from(number)),
        }
    }

    // What stands in front of a place; nothing, where there is only one.
    fn before(self, place: usize) -> Value<'a> {
        match self {
            Shown::Octets(octets) | Shown::Septets(octets) => Value::Octets(front(octets, place)),
            Shown::Units(units) => Value::Units(front(units, place)),
            Shown::Text(units) => Value::Text(front(units, place)),
            Shown::Coding(_) | Shown::Letters(_) | Shown::Page(_) | Shown::Part(_) => {
                Value::Word(b"")
            }
        }
    }

    // What was refused, and a caret under the place.
    fn point(self, answer: &mut Answer<'_>, place: usize) {
        answer.puts(&[Value::Word(self.name()), self.value(), Value::Word(b"\n")]);
        let from = answer.sheet.end;
        answer.puts(&[Value::Word(self.name()), self.before(place)]);
        let to = answer.sheet.end;
        if let Some(front) = answer.sheet.buffer.get_mut(from..to) {
            front.fill(b' ');
        }
        answer.put(Value::Word(b"^\n"));
    }
}

// A refusal, with what was refused, and the coding octet of the message.
#[derive(Clone, Copy)]
pub(crate) struct Refused<'a> {
    refusal: Refusal,
    coding: u8,
    shown: Shown<'a>,
}

// What the library answers to what is shown, under a coding octet.
pub(crate) fn judge<'a>(
    number: u32,
    position: usize,
    coding: u8,
    shown: Shown<'a>,
) -> Result<(), Refused<'a>> {
    match Refusal::of(number, position) {
        Some(refusal) => Err(Refused {
            refusal,
            coding,
            shown,
        }),
        None => Ok(()),
    }
}

// What the library answers to a text, which is shown as it was typed, or its letters are.
pub(crate) fn judge_text<'a>(
    number: u32,
    position: usize,
    job: &Job<'_>,
    units: &'a [u16],
) -> Result<(), Refused<'a>> {
    let letters = job.options.letters;
    let shown = match Reason::numbered(number) {
        Some(Reason::WrongLetters) => Shown::Letters(letters),
        Some(Reason::Unwritable) if letters.is_some() => Shown::Letters(letters),
        _ => {
            if job.options.units.is_some() {
                Shown::Units(units)
            } else {
                Shown::Text(units)
            }
        }
    };
    judge(number, position, job.coding(), shown)
}

// The same, where one page or part is asked for: one that the message lacks is shown by its number.
pub(crate) fn judge_one<'a>(
    number: u32,
    position: usize,
    job: &Job<'_>,
    units: &'a [u16],
    asked: Shown<'a>,
) -> Result<(), Refused<'a>> {
    match Reason::numbered(number) {
        Some(Reason::WrongPages) => judge(number, position, job.coding(), asked),
        _ => judge_text(number, position, job, units),
    }
}

impl Refused<'_> {
    // Tells the refusal, with what was refused where a person reads it. Of a message some are of its coding octet.
    pub(crate) fn tell(self, answer: &mut Answer<'_>) {
        self.refusal.tell(answer);
        if answer.layout != Layout::People {
            return;
        }
        match self.shown {
            Shown::Octets(_) | Shown::Units(_) | Shown::Text(_)
                if self.refusal.reason.is_of_coding() => {
                Shown::Coding(self.coding).point(answer, 0);
            }
            shown => shown.point(answer, self.refusal.position),
        }
    }
}
