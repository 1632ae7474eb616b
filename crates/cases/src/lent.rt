// What a case is run in: one of each buffer, at the sizes that docs/CASES.md has, since the programs of this repository use no heap.
ghost use Rattle.std.proofs.Common.{rules};

use crate::text::Text;
use crate::value::Value;
use printed::Sheet;

#[derive(Drop)]
pub(crate) struct Lent<'a> {
    // The octets, units and counts of a case, at the front of each.
    pub octets: [u8; 8192],
    pub units: [u16; 4096],
    pub counts: [u8; 8192],
    // What the library is lent, of which a case gives the length.
    pub out: [u8; 4096],
    pub text: [u16; 4096],
    pub sizes: [u8; 4096],
    // What came.
    pub came: Sheet<'a>,
}

impl<'a> Lent<'a> {
    pub(crate) fn new(came: &'a mut [u8]) -> Lent<'a> {
        Lent {
            octets: [0; 8192],
            units: [0; 4096],
            counts: [0; 8192],
            out: [0; 4096],
            text: [0; 4096],
            sizes: [0; 4096],
            came: Sheet::new(came),
        }
    }
}

// An element of a buffer that the library is lent, and what such a buffer is filled with beforehand.
pub(crate) trait Filled: Copy + PartialEq {
    const FILLING: Self;

    ghost copied: { (x : Self) → Self.is_infallible x };
}

impl Filled for u8 {
    const FILLING: u8 = 0xa5;

    ghost copied = { λ x. Prim.search rules };
}

impl Filled for u16 {
    const FILLING: u16 = 0xa5a5;

    ghost copied = { λ x. Prim.search rules };
}

// The front of a buffer, as long as the room and filled; no room is longer than the buffer.
pub(crate) fn room<'b, T: Filled>(buffer: &'b mut [T], room: u32) -> Option<&'b mut [T]> {
    let lent = buffer.get_mut(..room as usize)?;
    lent.fill(T::FILLING);
    Some(lent)
}

// What was written, or all where more is told than there is; and the first place behind it that no longer holds the filling.
pub(crate) fn left_in<T: Filled>(lent: &[T], written: usize) -> (&[T], Option<usize>) {
    let Some((front, behind)) = lent.split_at_checked(written) else {
        return (lent, None);
    };
    match behind.iter().position(|element| *element != T::FILLING) {
        Some(place) => (front, Some(written + place)),
        None => (front, None),
    }
}

// A text that is taken so many times, one after the other, where that has at most 40,960 units.
pub(crate) fn repeated<'b>(units: &[u16], times: usize, long: &'b mut [u16]) -> Option<&'b [u16]> {
    let n = units.len().checked_mul(times)?;
    let text = long.get_mut(..n)?;
    for (place, unit) in text.iter_mut().zip(units.iter().cycle()) {
        *place = *unit;
    }
    Some(text)
}

#[derive(Clone, Copy)]
pub(crate) enum Verdict {
    Agrees,
    Differs,
}

// Puts what came, and compares it with what is expected. That is an answer of no other keys, and each value is one of its kind; else the line is no case.
pub(crate) fn judge(
    expected: &[u8],
    answer: &[(&[u8], Value)],
    touched: &[(&[u8], Option<usize>)],
    came: &mut Sheet,
) -> Option<Verdict> {
    judge_both(expected, answer, &[], touched, came)
}

// The same of an answer in two lists, of which the second shows another buffer: what stands in one list is lent equally long.
pub(crate) fn judge_both(
    expected: &[u8],
    answer: &[(&[u8], Value)],
    more: &[(&[u8], Value)],
    touched: &[(&[u8], Option<usize>)],
    came: &mut Sheet,
) -> Option<Verdict> {
    came.end = 0;
    put(came, answer);
    put(came, more);
    put_touched(came, touched);
    if came.written() == expected {
        return Some(Verdict::Agrees);
    }
    let mut left = Text::new(expected);
    if is_answer(&mut left, answer) && is_answer(&mut left, more) && left.left().is_none() {
        Some(Verdict::Differs)
    } else {
        None
    }
}

fn put(came: &mut Sheet, answer: &[(&[u8], Value)]) {
    for (key, value) in answer {
        put_key(came, key);
        value.put(came);
    }
}

fn put_touched(came: &mut Sheet, touched: &[(&[u8], Option<usize>)]) {
    for (key, place) in touched {
        if let Some(place) = place {
            put_key(came, key);
            Value::from(*place).put(came);
        }
    }
}

fn put_key(came: &mut Sheet, key: &[u8]) {
    if came.end != 0 {
        came.put(b" ");
    }
    came.put(key);
    came.put(b"=");
}

// Whether the text has these keys next, each with a value of its kind.
fn is_answer(text: &mut Text, answer: &[(&[u8], Value)]) -> bool {
    for (key, value) in answer {
        match text.word(key) {
            Some(word) if value.is_kind_of(word) => {}
            _ => return false,
        }
    }
    true
}
