// A message drawn: its octets, where each septet or unit lies in them, and what it means.
ghost use Rattle.std.specs.Prelude.{◌+◌, ◌*◌, ◌/◌, ◌≤◌, ◌<◌};

use crate::asked::Job;
use crate::tell::{Answer, Value, front};
use crate::verb::Service;
use names::ReadingNumbers;

const ESCAPE: u8 = 0x1b;

const CR: u8 = 13;

// The number that the C interface gives to UCS2.
const UCS2: u8 = 2;

fn octets(answer: &mut Answer<'_>, list: &[u8]) {
    for (j, octet) in list.iter().enumerate() {
        answer.puts(&[
            Value::Word(b"octet "),
            Value::Number(j as u64),
            Value::Word(b" "),
            Value::Octet(*octet),
            Value::Word(b" "),
            Value::Bits(*octet, 8),
            Value::Word(b"\n"),
        ]);
    }
}

// A place in octets: a bit of one of them, 0 the lowest.
#[derive(Clone, Copy)]
struct Place {
    octet: usize,
    bit: usize,
}

// Where the septet k begins: bits 7k to 7k + 6 of the stream, eight to an octet, lowest first.
fn place_of(k: usize) -> Place
    ensures octet { result.octet ≤ k / 8 * 7 + 6 }
    ensures bit { result.bit < 8 }
{
    Place {
        octet: k / 8 * 7 + k % 8 * 7 / 8,
        bit: k % 8 * 7 % 8,
    }
}

// The bits of an octet from high down to low.
fn bits(answer: &mut Answer<'_>, octet: usize, high: usize, low: usize) {
    answer.puts(&[Value::Word(b" octet "), Value::Number(octet as u64)]);
    if low < high {
        answer.puts(&[
            Value::Word(b" bits "),
            Value::Number(high as u64),
            Value::Word(b".."),
            Value::Number(low as u64),
        ]);
    } else {
        answer.puts(&[Value::Word(b" bit "), Value::Number(low as u64)]);
    }
}

// A septet and where it lies.
fn septet(answer: &mut Answer<'_>, k: usize, septet: u8) {
    answer.puts(&[
        Value::Word(b"septet "),
        Value::Number(k as u64),
        Value::Word(b" "),
        Value::Octet(septet),
        Value::Word(b" "),
        Value::Bits(septet % 128 * 2, 7),
    ]);
    let place = place_of(k);
    if place.bit < 2 {
        bits(answer, place.octet, place.bit + 6, place.bit);
    } else {
        bits(answer, place.octet, 7, place.bit);
        answer.put(Value::Word(b","));
        bits(answer, place.octet + 1, place.bit - 2, 0);
    }
}

// What a septet or a unit means.
#[derive(Clone, Copy, PartialEq, Eq)]
enum Meaning {
    Letter(u16),
    WithEscape(u16),
    Unlisted(u16),
    // It waits for the next septet.
    Escape,
    SecondEscape,
    LastEscape,
    LanguageLetter(u16),
    CrBehindLetters,
}

impl Meaning {
    fn put(self, answer: &mut Answer<'_>) {
        answer.put(Value::Word(b": "));
        let (words, unit): (&[u8], Option<u16>) = match self {
            Meaning::Letter(unit) => (b"", Some(unit)),
            Meaning::WithEscape(unit) => (b"with the escape ", Some(unit)),
            Meaning::Unlisted(unit) => (b"not listed behind an escape, with it ", Some(unit)),
            Meaning::Escape => (b"escape", None),
            Meaning::SecondEscape => (b"a second escape, with the first a space", None),
            Meaning::LastEscape => (b"escape with nothing behind it, a space", None),
            Meaning::LanguageLetter(unit) => (b"language letter ", Some(unit)),
            Meaning::CrBehindLetters => (b"CR behind the letters", None),
        };
        answer.put(Value::Word(words));
        match unit {
            Some(10) => answer.put(Value::Word(b"LF")),
            Some(13) => answer.put(Value::Word(b"CR")),
            Some(32) => answer.put(Value::Word(b"space")),
            Some(unit) => answer.put(Value::Text(&[unit])),
            None => {}
        }
        answer.put(Value::Word(b"\n"));
    }
}

// Whether the septet alone reads as the unit.
fn reads_as(septet: u8, unit: u16) -> bool {
    let mut units = [0u16; 1];
    wikuay::wikuay_septets_to_text(&[septet], &mut units);
    units[0] == unit
}

// What a septet means, behind an escape that waits for it or not, before others or as the last one. The flags are facts and no steps: each is asked
// once, and an enum of their cases would be asked in the same places.
fn meaning_of(septet: u8, waits: bool, last: bool, old: bool, unit: u16) -> Meaning {
    if waits {
        if septet == ESCAPE {
            Meaning::SecondEscape
        } else if reads_as(septet, unit) {
            Meaning::Unlisted(unit)
        } else {
            Meaning::WithEscape(unit)
        }
    } else if old || septet != ESCAPE {
        Meaning::Letter(unit)
    } else if last {
        Meaning::LastEscape
    } else {
        Meaning::Escape
    }
}

// The septets from a place on.
fn septets(answer: &mut Answer<'_>, list: &[u8], from: usize, units: &[u16], old: bool) {
    let mut waits = false;
    let mut rest = units;
    for (k, value) in list.iter().enumerate().skip(from) {
        let unit = rest.first().copied().unwrap_or(0);
        let last = list.len() - k == 1;
        let meaning = meaning_of(*value, waits, last, old, unit);
        septet(answer, k, *value);
        meaning.put(answer);
        waits = meaning == Meaning::Escape;
        if !waits {
            rest = rest.get(1..).unwrap_or(rest);
        }
    }
}

// The letters in front of a page's text, if there are any, and behind them a CR, or under UCS2 spare bits.
fn letters(answer: &mut Answer<'_>, reading: ReadingNumbers, octets: &[u8]) {
    for (k, letter) in [reading.first, reading.second].iter().enumerate() {
        septet(answer, k, *letter);
        Meaning::LanguageLetter(u16::from(*letter)).put(answer);
    }
    if reading.alphabet == UCS2 {
        spare(answer, octets, 2);
    } else {
        septet(answer, 2, CR);
        Meaning::CrBehindLetters.put(answer);
    }
}

// What stands behind the septets that are kept: filling, and the bits above the last septet of all.
fn dropped(answer: &mut Answer<'_>, service: Service, kept: usize) {
    if service == Service::Ussd {
        septet(answer, kept, CR);
    } else {
        answer.puts(&[
            Value::Word(b"septets from "),
            Value::Number(kept as u64),
            Value::Word(b" on "),
            Value::Octet(if service == Service::OldPage { 0 } else { CR }),
        ]);
    }
    answer.put(Value::Word(b": "));
    answer.put(Value::Word(match service {
        Service::ShortMessage => b"",
        Service::Broadcast => b"closing CR, page filling",
        Service::Ussd => b"the CR that was added to fill the last octet",
        Service::OldPage => b"closing zero, page filling",
    }));
    answer.put(Value::Word(b", dropped\n"));
}

// The bits above the last of n septets.
fn spare(answer: &mut Answer<'_>, octets: &[u8], n: usize) {
    let place = place_of(n);
    match octets.get(place.octet) {
        Some(octet) => {
            answer.put(Value::Word(b"spare"));
            bits(answer, place.octet, 7, place.bit);
            answer.puts(&[
                Value::Word(b" "),
                Value::Bits(*octet, 8 - place.bit),
                Value::Word(b"\n"),
            ]);
        }
        None => answer.put(Value::Word(b"no spare bits\n")),
    }
}

// The units, where so many octets hold them; letters take the place of one more in front.
fn units(answer: &mut Answer<'_>, list: &[u16], octets: usize, lettered: bool) {
    let from = u64::from(lettered);
    for (i, (at, unit)) in (from..).zip(list).enumerate() {
        answer.puts(&[
            Value::Word(b"unit "),
            Value::Number(i as u64),
            Value::Word(b" "),
            Value::Units(&[*unit]),
            Value::Word(b" octets "),
            Value::Number(at.saturating_mul(2)),
            Value::Word(b", "),
            Value::Number(at.saturating_mul(2).saturating_add(1)),
        ]);
        Meaning::Letter(*unit).put(answer);
    }
    if list.len() < octets / 2 {
        answer.puts(&[
            Value::Word(b"units from "),
            Value::Number(list.len() as u64),
            Value::Word(b" on 000D: closing CR, page filling, dropped\n"),
        ]);
    }
}

pub(crate) fn message(
    answer: &mut Answer<'_>,
    job: &Job<'_>,
    reading: ReadingNumbers,
    list: &[u8],
    text: &[u16],
) {
    let ucs2 = reading.alphabet == UCS2;
    let lettered = reading.first != 0;
    answer.put(Value::Word(if ucs2 {
        b"alphabet UCS2\n"
    } else {
        b"alphabet 7-bit\n"
    }));
    octets(answer, list);
    if lettered {
        letters(answer, reading, list);
    }
    if ucs2 {
        units(
            answer,
            text,
            if lettered { 80 } else { list.len() },
            lettered,
        );
    } else {
        packed(answer, job, lettered, list, text);
    }
}

// The septets of a message, behind its letters. Where no text follows them, their CR is unpacked as filling.
fn packed(answer: &mut Answer<'_>, job: &Job<'_>, lettered: bool, list: &[u8], text: &[u16]) {
    // Fixed memory, since no heap is a rule of the project.
    let mut buffer = [0u8; 182];
    let unpacked = wikuay::wikuay_unpack(job.service.number(), list, job.count(), &mut buffer);
    let from = if lettered { 3 } else { 0 };
    let kept = front(&buffer, unpacked.written.max(from));
    septets(answer, kept, from, text, job.service == Service::OldPage);
    let total = match job.service {
        Service::ShortMessage => kept.len(),
        Service::Ussd => list.len().saturating_add(list.len() / 7),
        Service::Broadcast | Service::OldPage => 93,
    };
    if kept.len() < total {
        dropped(answer, job.service, kept.len());
    }
    spare(answer, list, total);
}
