// Numbers that cross from C, and the reading whose fields they name.
#![tactic(auto)]

ghost use Rattle.std.specs.Prelude.{◌≡◌, true, cond, ltb, [], ◌∷◌};
ghost use Rattle.std.specs.List.{list_all};
ghost use Rattle.names.specs.Names.{named_notice, named_reading, numbers_of};
ghost use Rattle.names.specs.Joined.{joined_fields, joined_rest, joined_numbers, parted_numbers};
ghost use Rattle.names.specs.Inner.{InOctets};
ghost use Rattle.coding.specs.Readings.{plain_in, with_letters};
ghost use Rattle.coding.specs.LanguageLetters.{lettered_in};

use coding::Reading;
use fields::{ALPHABETS, Alphabet, CLASSES, KINDS, LANGUAGES, Letters, Notice, flag};

pub mod said;

// A reading in numbers, as C hands it over.
#[repr(C)]
#[derive(Clone, Copy)]
pub struct ReadingNumbers {
    pub alphabet: u8,
    pub compressed: u8,
    pub class: u8,
    pub language: u8,
    pub deletion: u8,
    pub prefix: u8,
    pub reserved: u8,
    pub header: u8,
    pub notice: u16,
    pub first: u8,
    pub second: u8,
}

// The numbers of a reading joined into two. What is known before a message is read goes past the reading of its text so: the compiler keeps two values
// where eleven would go through memory.
#[derive(Clone, Copy)]
pub struct JoinedNumbers {
    pub front: u32,
    pub back: u64,
}

// The notice with that number.
fn notice(number: u16) -> Option<Notice>
    ensures { result ≡ named_notice number }
{
    if number == 0 {
        return Some(Notice::Nothing);
    }
    let kind = KINDS[(number % 4) as usize];
    match number / 4 {
        4 => Some(Notice::Discard {
            active: false,
            kind,
        }),
        6 => Some(Notice::Discard { active: true, kind }),
        8 => Some(Notice::Store {
            active: false,
            kind,
        }),
        10 => Some(Notice::Store { active: true, kind }),
        _ => None,
    }
}

// Whether each flag has a number that names one.
fn flags(numbers: ReadingNumbers) -> bool
    ensures { result ≡ list_all (λ flag. ltb flag 2) (numbers.compressed ∷ numbers.deletion ∷ numbers.prefix ∷ numbers.reserved ∷ numbers.header ∷ []) }
{
    let flags = [
        numbers.compressed,
        numbers.deletion,
        numbers.prefix,
        numbers.reserved,
        numbers.header,
    ];
    flags.iter().all(|flag| *flag < 2)
}

// All fields but the notice and the letters as one number, each in eight bits of its own: one test then tells plain text.
fn joined(numbers: ReadingNumbers) -> u64
    ensures { (result ≡ joined_fields numbers) × InOctets numbers }
{
    u64::from_le_bytes([
        numbers.alphabet,
        numbers.compressed,
        numbers.class,
        numbers.language,
        numbers.deletion,
        numbers.prefix,
        numbers.reserved,
        numbers.header,
    ])
}

// The notice and the letters as one number, each in bits of its own: one test then tells that there is none.
fn rest(numbers: ReadingNumbers) -> u32
    ensures { result ≡ joined_rest numbers }
{
    let [low, high] = numbers.notice.to_le_bytes();
    u32::from_le_bytes([low, high, numbers.first, numbers.second])
}

// The numbers joined. This and the three calls below are functions and no From: join(numbers(reading)) says which way it goes where two From would not.
pub fn join(numbers: ReadingNumbers) -> JoinedNumbers
    ensures answer { result ≡ joined_numbers numbers }
{
    let fields = joined(numbers);
    let others = rest(numbers);
    JoinedNumbers {
        front: (fields % 0x100000000) as u32,
        back: fields / 0x100000000 + 0x100000000 * u64::from(others),
    }
}

// The numbers that were joined.
pub fn part(joined: JoinedNumbers) -> ReadingNumbers
    ensures answer { result ≡ parted_numbers joined }
{
    let [alphabet, compressed, class, language] = joined.front.to_le_bytes();
    let [deletion, prefix, reserved, header, low, high, first, second] = joined.back.to_le_bytes();
    ReadingNumbers {
        alphabet,
        compressed,
        class,
        language,
        deletion,
        prefix,
        reserved,
        header,
        notice: u16::from_le_bytes([low, high]),
        first,
        second,
    }
}

// The number of plain text's alphabet.
pub(crate) fn plain_alphabet(ucs2: bool) -> u8
    ensures { result ≡ cond ucs2 2 0 }
{
    if ucs2 { 2 } else { 0 }
}

// True only for the numbers of plain text, 7-bit or UCS2 with nothing special: its language is 15, unspecified.
pub(crate) fn plain(numbers: ReadingNumbers, ucs2: bool) -> bool
    ensures { result ≡ true → named_reading numbers ≡ Some (plain_in ucs2) }
{
    rest(numbers) == 0 && joined(numbers) == 0x1000000 * 15 + u64::from(plain_alphabet(ucs2))
}

// The numbers of plain text.
pub(crate) fn plain_numbers(ucs2: bool) -> ReadingNumbers
    ensures { result ≡ numbers_of (plain_in ucs2) }
{
    ReadingNumbers {
        alphabet: plain_alphabet(ucs2),
        compressed: 0,
        class: 0,
        language: 15,
        deletion: 0,
        prefix: 0,
        reserved: 0,
        header: 0,
        notice: 0,
        first: 0,
        second: 0,
    }
}

// The numbers of a broadcast page behind these letters.
pub fn lettered_numbers(ucs2: bool, letters: Letters) -> ReadingNumbers
    ensures answer { result ≡ numbers_of (with_letters letters (lettered_in ucs2)) }
{
    ReadingNumbers {
        prefix: 1,
        first: letters.first,
        second: letters.second,
        ..plain_numbers(ucs2)
    }
}

// The reading whose fields have these numbers. Plain text, 7-bit or UCS2, is by far the most, and needs no table.
pub fn reading(numbers: ReadingNumbers) -> Option<Reading>
    ensures answer { result ≡ named_reading numbers }
{
    if plain(numbers, false) {
        return Some(Reading::plain());
    }
    if plain(numbers, true) {
        return Some(Reading::plain().with_alphabet(Alphabet::Ucs2));
    }
    any_reading(numbers)
}

// The reading whose fields have these numbers, each looked up.
// Never inlined, so that `reading` stays small enough to stand where it is called, which saves plain text some 30 instructions.
#[inline(never)]
pub(crate) fn any_reading(numbers: ReadingNumbers) -> Option<Reading>
    ensures { result ≡ named_reading numbers }
{
    if !flags(numbers) {
        return None;
    }
    Some(Reading {
        alphabet: *ALPHABETS.get(numbers.alphabet as usize)?,
        compressed: numbers.compressed == 1,
        class: *CLASSES.get(numbers.class as usize)?,
        language: *LANGUAGES.get(numbers.language as usize)?,
        deletion: numbers.deletion == 1,
        notice: notice(numbers.notice)?,
        prefix: numbers.prefix == 1,
        reserved: numbers.reserved == 1,
        header: numbers.header == 1,
        letters: Letters {
            first: numbers.first,
            second: numbers.second,
        },
    })
}

// The numbers of a reading's fields.
pub fn numbers(reading: Reading) -> ReadingNumbers
    ensures answer { result ≡ numbers_of reading }
{
    ReadingNumbers {
        alphabet: reading.alphabet.number(),
        compressed: flag(reading.compressed),
        class: reading.class.number(),
        language: reading.language.number(),
        deletion: flag(reading.deletion),
        prefix: flag(reading.prefix),
        reserved: flag(reading.reserved),
        header: flag(reading.header),
        notice: reading.notice.number(),
        first: reading.letters.first,
        second: reading.letters.second,
    }
}
