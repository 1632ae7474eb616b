// The commands on a message or a page: each calls the library and tells its answer.
use crate::asked::Job;
use crate::digits::MOST;
use crate::fault::Fault;
use crate::refusal::{Refusal, Refused, Shown, judge, judge_text};
use crate::tell::{Answer, Value, front};
use crate::verb::Verb;
use crate::{broadcast, digits, draw, long_text, room};
use names::ReadingNumbers;

// The reading of a coding octet with the letters that are given.
pub(crate) fn lettered(job: &Job<'_>, reading: ReadingNumbers) -> ReadingNumbers {
    let [first, second] = job.options.letters.unwrap_or([0, 0]);
    ReadingNumbers {
        first,
        second,
        ..reading
    }
}

fn write<'a>(answer: &mut Answer<'_>, job: &Job<'_>, units: &'a [u16]) -> Result<(), Refused<'a>> {
    // Fixed memory, since no heap is a rule of the project.
    let mut octets = [0u8; 160];
    let service = job.service.number();
    let read = wikuay::wikuay_read_coding(service, job.coding());
    judge_text(read.refusal, read.position, job, units)?;
    // The call is lent the front of the buffer, as long as the room asked for.
    let room = job.room().min(octets.len());
    let written = wikuay::wikuay_write_message(
        service,
        lettered(job, read.reading),
        units,
        &mut octets[..room],
    );
    judge_text(written.refusal, written.position, job, units)?;
    answer.fact(b"octets", Value::Octets(front(&octets, written.written)));
    answer.fact(b"count", Value::Number(u64::from(written.count)));
    answer.fact(b"coding", Value::Octet(written.coding));
    Ok(())
}

fn pack<'a>(answer: &mut Answer<'_>, job: &Job<'_>, septets: &'a [u8]) -> Result<(), Refused<'a>> {
    // Fixed memory, since no heap is a rule of the project.
    let mut octets = [0u8; 160];
    let packed = wikuay::wikuay_pack(job.service.number(), septets, &mut octets);
    judge(
        packed.refusal,
        packed.position,
        job.coding(),
        Shown::Septets(septets),
    )?;
    answer.fact(b"octets", Value::Octets(front(&octets, packed.written)));
    answer.fact(b"count", Value::Number(u64::from(packed.count)));
    Ok(())
}

fn unpack<'a>(answer: &mut Answer<'_>, job: &Job<'_>, octets: &'a [u8]) -> Result<(), Refused<'a>> {
    // Fixed memory, since no heap is a rule of the project.
    let mut septets = [0u8; 182];
    let unpacked = wikuay::wikuay_unpack(job.service.number(), octets, job.count(), &mut septets);
    judge(
        unpacked.refusal,
        unpacked.position,
        job.coding(),
        Shown::Octets(octets),
    )?;
    answer.fact(b"septets", Value::Octets(front(&septets, unpacked.written)));
    Ok(())
}

// A message is read, or drawn.
fn read<'a>(answer: &mut Answer<'_>, job: &Job<'_>, octets: &'a [u8]) -> Result<(), Refused<'a>> {
    // Fixed memory, since no heap is a rule of the project.
    let mut buffer = [0u16; 182];
    let read = wikuay::wikuay_read_message(
        job.service.number(),
        job.coding(),
        job.count(),
        octets,
        &mut buffer,
    );
    judge(
        read.refusal,
        read.position,
        job.coding(),
        Shown::Octets(octets),
    )?;
    let units = front(&buffer, read.written);
    if job.verb == Verb::Explain {
        draw::message(answer, job, read.reading, octets, units);
    } else {
        answer.fact(b"units", Value::Units(units));
    }
    if read.reading.first != 0 {
        let letters = Value::Letters([read.reading.first, read.reading.second]);
        answer.fact(b"letters", letters);
    }
    answer.fact(b"text", Value::Text(units));
    Ok(())
}

// The words for the numbers of a reading, as the C interface gives them, in the order of the numbers.
const ALPHABETS: [&[u8]; 5] = [b"7-bit", b"8-bit data", b"UCS2", b"WAP", b"I1"];

const CLASSES: [&[u8]; 7] = [
    b"none",
    b"0",
    b"1",
    b"2",
    b"3",
    b"user-defined 1",
    b"user-defined 2",
];

const LANGUAGES: [&[u8]; 21] = [
    b"German",
    b"English",
    b"Italian",
    b"French",
    b"Spanish",
    b"Dutch",
    b"Swedish",
    b"Danish",
    b"Portuguese",
    b"Finnish",
    b"Norwegian",
    b"Greek",
    b"Turkish",
    b"Hungarian",
    b"Polish",
    b"unspecified",
    b"Czech",
    b"Hebrew",
    b"Arabic",
    b"Russian",
    b"Icelandic",
];

const FLAGS: [&[u8]; 2] = [b"no", b"yes"];

// A notice is 0, or 16 or 32 with 8 where it is active and the number of its kind.
const NOTICES: [&[u8]; 3] = [b"none", b"discard", b"store"];

const ACTIVE: [&[u8]; 2] = [b", not active", b", active"];

const KINDS: [&[u8]; 4] = [b", voicemail", b", fax", b", electronic mail", b", other"];

const TEXTS: [&[u8]; 3] = [b"", b"7-bit", b"UCS2"];

fn word_at(words: &[&'static [u8]], number: usize) -> &'static [u8] {
    match words.get(number) {
        Some(word) => word,
        None => b"",
    }
}

fn flag(answer: &mut Answer<'_>, name: &[u8], number: u8) {
    answer.fact(name, Value::Word(word_at(&FLAGS, usize::from(number))));
}

// What the numbers of a reading say, field by field.
fn fields(answer: &mut Answer<'_>, reading: ReadingNumbers) {
    let alphabet = word_at(&ALPHABETS, usize::from(reading.alphabet));
    answer.fact(b"alphabet", Value::Word(alphabet));
    flag(answer, b"compressed", reading.compressed);
    let class = word_at(&CLASSES, usize::from(reading.class));
    answer.fact(b"class", Value::Word(class));
    let language = word_at(&LANGUAGES, usize::from(reading.language));
    answer.fact(b"language", Value::Word(language));
    flag(answer, b"deletion", reading.deletion);
    notice(answer, usize::from(reading.notice));
    flag(answer, b"prefix", reading.prefix);
    flag(answer, b"reserved", reading.reserved);
    flag(answer, b"header", reading.header);
}

fn notice(answer: &mut Answer<'_>, number: usize) {
    answer.name(&[Value::Word(b"notice")]);
    answer.quote();
    answer.put(Value::Word(word_at(&NOTICES, number / 16)));
    if number != 0 {
        answer.put(Value::Word(word_at(&ACTIVE, number / 8 % 2)));
        answer.put(Value::Word(word_at(&KINDS, number % 4)));
    }
    answer.quote();
    answer.end();
}

// What a coding octet says, whether that holds text, and the octet that it is written as.
fn coding<'a>(
    answer: &mut Answer<'_>,
    job: &Job<'_>,
    octets: &'a [u8],
    octet: u8,
) -> Result<(), Refused<'a>> {
    let service = job.service.number();
    let read = wikuay::wikuay_read_coding(service, octet);
    judge(read.refusal, 0, octet, Shown::Octets(octets))?;
    fields(answer, read.reading);
    uses(answer, service, read.reading);
    Ok(())
}

// Whether a reading holds text, and the octet that it is written as. A refusal is told in the place of the value.
fn uses(answer: &mut Answer<'_>, service: u32, reading: ReadingNumbers) {
    let held = wikuay::wikuay_holds_text(reading);
    answer.name(&[Value::Word(b"text")]);
    answer.quote();
    match Refusal::of(held.refusal, 0) {
        None => answer.put(Value::Word(word_at(&TEXTS, held.holds as usize))),
        Some(refusal) => refusal.put(answer),
    }
    answer.quote();
    answer.end();
    let written = wikuay::wikuay_write_coding(service, reading);
    answer.name(&[Value::Word(b"written")]);
    answer.quote();
    match Refusal::of(written.refusal, 0) {
        None => answer.put(Value::Octet(written.coding)),
        Some(refusal) => refusal.put(answer),
    }
    answer.quote();
    answer.end();
}

// Answers a command that takes octets.
pub(crate) fn on_octets<'a>(
    answer: &mut Answer<'_>,
    job: &Job<'_>,
    text: &'a [u8],
) -> Result<(), Fault<'a>> {
    // Fixed memory, since no heap is a rule of the project.
    let mut buffer = [0u8; MOST / 2];
    let n = digits::octets_of(text, &mut buffer).ok_or(Fault::Octets(text))?;
    let octets = front(&buffer, n);
    let outcome = match job.verb {
        Verb::Coding => match *octets {
            [octet] => coding(answer, job, octets, octet),
            _ => return Err(Fault::Coding(text)),
        },
        Verb::Header => match <[u8; 88]>::try_from(octets) {
            Ok(octets) => {
                broadcast::header(answer, octets);
                Ok(())
            }
            Err(_) => return Err(Fault::Block(text)),
        },
        Verb::Pack => pack(answer, job, octets),
        Verb::Unpack => unpack(answer, job, octets),
        Verb::Join => broadcast::join(answer, octets),
        Verb::Part => long_text::read(answer, job, octets),
        Verb::JoinParts => long_text::join(answer, job, octets),
        _ => read(answer, job, octets),
    };
    settle(answer, outcome);
    Ok(())
}

// Answers a command that takes a text, whose units are stored unless they are given.
pub(crate) fn on_text<'a>(
    rt: &impl Print,
    answer: &mut Answer<'_>,
    job: &Job<'_>,
    text: &[u8],
    units: &mut [u16],
) -> Result<(), Fault<'a>> {
    let n = match job.options.units {
        Some(n) => n,
        None => {
            if !text.is_ascii() {
                return Err(Fault::Ascii);
            }
            for (unit, c) in units.iter_mut().zip(text) {
                *unit = u16::from(*c);
            }
            text.len()
        }
    };
    let units = front(units, n);
    let outcome = match job.verb {
        Verb::Room => {
            room::room(rt, answer, job, units);
            Ok(())
        }
        Verb::Pages => broadcast::write(answer, job, units),
        Verb::Parts => long_text::write(answer, job, units),
        _ => write(answer, job, units),
    };
    settle(answer, outcome);
    Ok(())
}

// Ends an answer: what was refused is told in its place.
fn settle(answer: &mut Answer<'_>, outcome: Result<(), Refused<'_>>) {
    if let Err(refused) = outcome {
        refused.tell(answer);
    }
}
