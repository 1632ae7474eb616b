// The values of an answer (docs/CASES.md, "Values"): each knows how it is spelled, and which words spell one of its kind.
ghost use Rattle.std.specs.Prelude.{◌<◌};

use crate::reading;
use names::ReadingNumbers;
use printed::Sheet;

// In the order of their numbers.
pub(crate) static SERVICES: [&[u8]; 4] = [b"sms", b"broadcast", b"ussd", b"old"];

static HOLDS: [&[u8]; 3] = [b"none", b"7bit", b"ucs2"];

#[derive(Clone, Copy)]
pub(crate) enum Value<'a> {
    Number(u64),
    Pair(u16),
    Signed(i64),
    Mark(u8),
    Service(u32),
    Holds(u32),
    Octet(u8),
    Octets(&'a [u8]),
    Units(&'a [u16]),
    Block(&'a [u8]),
    // Reference, total and number of a part, where it has them.
    Numbers(Option<[u8; 3]>),
    Reading(ReadingNumbers),
}

impl<'a> From<u32> for Value<'a> {
    fn from(number: u32) -> Value<'a> {
        Value::Number(number as u64)
    }
}

impl<'a> From<usize> for Value<'a> {
    fn from(number: usize) -> Value<'a> {
        Value::Number(number as u64)
    }
}

impl<'a> From<ReadingNumbers> for Value<'a> {
    fn from(reading: ReadingNumbers) -> Value<'a> {
        Value::Reading(reading)
    }
}

impl<'a> Value<'a> {
    // Puts the value as it is spelled.
    pub(crate) fn put(self, sheet: &mut Sheet) {
        match self {
            Value::Number(n) => put_number(sheet, n),
            Value::Pair(n) => put_number(sheet, n as u64),
            Value::Mark(n) => put_number(sheet, n as u64),
            Value::Signed(n) => {
                if n < 0 {
                    sheet.put(b"-");
                }
                put_number(sheet, n.unsigned_abs());
            }
            Value::Service(n) => put_name(sheet, &SERVICES, n),
            Value::Holds(n) => put_name(sheet, &HOLDS, n),
            Value::Octet(octet) => sheet.put_octets(&[octet]),
            Value::Octets([]) | Value::Units([]) | Value::Numbers(None) => sheet.put(b"-"),
            Value::Octets(octets) | Value::Block(octets) => sheet.put_octets(octets),
            Value::Units(units) => sheet.put_units(units),
            Value::Numbers(Some(numbers)) => sheet.put_octets(&numbers),
            Value::Reading(reading) => reading::put(sheet, reading),
        }
    }

    // Whether a word spells a value of this kind, whichever it is.
    pub(crate) fn is_kind_of(self, word: &[u8]) -> bool {
        match self {
            Value::Number(_) => typed::read_number(word).is_some(),
            Value::Pair(_) => typed::read_number(word).is_some_and(|n| n <= 65535),
            Value::Mark(_) => typed::read_number(word).is_some_and(|n| n <= 1),
            Value::Signed(_) => match word.strip_prefix(b"-") {
                Some(distance) => typed::read_number(distance).is_some_and(|n| n != 0),
                None => typed::read_number(word).is_some(),
            },
            Value::Service(_) => SERVICES.iter().any(|name| *name == word),
            Value::Holds(_) => HOLDS.iter().any(|name| *name == word),
            Value::Octet(_) => word.len() == 2 && is_spelled(word, 2),
            Value::Octets(_) => is_none(word) || is_spelled(word, 2),
            Value::Units(_) => is_none(word) || is_spelled(word, 4),
            Value::Block(_) => word.len() == 176 && is_spelled(word, 2),
            Value::Numbers(_) => is_none(word) || word.len() == 6 && is_spelled(word, 2),
            Value::Reading(_) => reading::reading_of(word).is_some(),
        }
    }
}

fn put_number(sheet: &mut Sheet, n: u64) {
    let mut digits = [0u8; 20];
    let k = io::decimal(n, &mut digits);
    sheet.put(&digits[..k]);
}

// Puts the name of a number that has one, and else a line end, which no line holds.
fn put_name(sheet: &mut Sheet, names: &[&[u8]], n: u32) {
    sheet.put(names.get(n as usize).copied().unwrap_or(b"\n"));
}

fn is_none(word: &[u8]) -> bool {
    word == b"-".as_slice()
}

// Whether the word is hexadecimal digits, so many for each element, and of one element at least.
fn is_spelled(word: &[u8], digits: usize) -> bool
    requires { 0 < digits }
{
    !word.is_empty() && word.len() % digits == 0 && typed::first_other(word, 16).is_none()
}
