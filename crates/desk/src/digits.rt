// Digits as they are typed: in groups, which blanks and colons part and 0x may open.
use printed::Sheet;

// No more is typed or read: a text of 15 pages, each of its units in four digits, takes 5,580. A text of more than 108 parts cannot be typed.
pub(crate) const MOST: usize = 8192;

// Puts the digits of a text, in upper case and without what parts them. None where a group is not of whole elements of so many digits.
fn clean(text: &[u8], size: usize, digits: &mut Sheet<'_>) -> Option<()> {
    for group in text.split(|c| matches!(*c, b' ' | 9..=13 | b':')) {
        let opened = group.strip_prefix(b"0x").or(group.strip_prefix(b"0X"));
        if opened.is_some_and(|rest| rest.is_empty()) {
            return None;
        }
        let group = opened.unwrap_or(group);
        if !group.len().is_multiple_of(size) {
            return None;
        }
        for c in group {
            digits.put(&[c.to_ascii_uppercase()]);
        }
    }
    Some(())
}

// Stores the octets that a text spells, and answers how many there are.
// Never inlined: its buffer is on the stack only while it runs.
#[inline(never)]
pub(crate) fn octets_of(text: &[u8], octets: &mut [u8]) -> Option<usize> {
    // Fixed memory, since no heap is a rule of the project.
    let mut buffer = [0u8; MOST];
    let mut digits = Sheet::new(&mut buffer);
    clean(text, 2, &mut digits)?;
    typed::read_octets(digits.written(), octets)
}

// The octet that a text spells, where it is one.
pub(crate) fn octet_of(text: &[u8]) -> Option<u8> {
    let mut octet = [0u8; 1];
    match octets_of(text, &mut octet) {
        Some(1) => Some(octet[0]),
        _ => None,
    }
}

// Stores the units that a text spells, and answers how many there are. Beside octets_of: one for both would take the width, the element and the reader
// for four lines.
// Never inlined, as octets_of.
#[inline(never)]
pub(crate) fn units_of(text: &[u8], units: &mut [u16]) -> Option<usize> {
    // Fixed memory, since no heap is a rule of the project.
    let mut buffer = [0u8; MOST];
    let mut digits = Sheet::new(&mut buffer);
    clean(text, 4, &mut digits)?;
    typed::read_units(digits.written(), units)
}

// Counts, with commas between them: each is of a part, and at most 255.
fn count_of(word: &[u8]) -> Option<u8> {
    u8::try_from(typed::read_number(word)?).ok()
}

pub(crate) fn are_counts(word: &[u8]) -> bool {
    word.split(|c| *c == b',')
        .all(|count| count_of(count).is_some())
}

pub(crate) fn put_counts(word: &[u8], counts: &mut Sheet<'_>) {
    for count in word.split(|c| *c == b',').filter_map(count_of) {
        counts.put(&[count]);
    }
}
