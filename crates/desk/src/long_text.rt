// Long short messages: a text into parts, parts into a text, and one part read.
use crate::asked::Job;
use crate::digits;
use crate::refusal::{Refused, Shown, judge, judge_one, judge_text};
use crate::tell::{Answer, Value, front};
use crate::verb::Service;
use names::ReadingNumbers;
use part_answers::PartsAnswer;
use printed::Sheet;
use wikuay::long_messages;

// The parts of a text: all of them, or the one that is asked for.
pub(crate) fn write<'a>(
    answer: &mut Answer<'_>,
    job: &Job<'_>,
    units: &'a [u16],
) -> Result<(), Refused<'a>> {
    let read = wikuay::wikuay_read_coding(Service::ShortMessage.number(), job.coding());
    match job.options.part {
        Some(number) => one(answer, job, read.reading, units, number),
        None => all(answer, job, read.reading, units),
    }
}

// All parts: how many they are, the mark and the coding octet, and the count and the octets of each.
// Never inlined: its buffers are on the stack only while it runs.
#[inline(never)]
fn all<'a>(
    answer: &mut Answer<'_>,
    job: &Job<'_>,
    reading: ReadingNumbers,
    units: &'a [u16],
) -> Result<(), Refused<'a>> {
    // Fixed memory, since no heap is a rule of the project.
    let mut octets = [0u8; 35700];
    let mut sizes = [0u8; 510];
    let reference = job.options.reference.unwrap_or(0);
    // The call is lent the front of the buffer, as long as the room asked for.
    let room = job.room().min(octets.len());
    let written = long_messages::wikuay_write_parts(
        reading,
        reference,
        units,
        &mut octets[..room],
        &mut sizes,
    );
    judge_text(written.refusal, written.position, job, units)?;
    tell_whole(answer, written);
    // Of each part the sizes have its count and how many octets it has.
    let mut rest = front(&octets, written.written);
    let sizes = front(&sizes, (written.parts as usize).saturating_mul(2));
    for (number, size) in (1..).zip(sizes.chunks_exact(2)) {
        let (part, behind) = rest.split_at(usize::from(size[1]).min(rest.len()));
        tell_part(answer, number, u64::from(size[0]), part);
        rest = behind;
    }
    Ok(())
}

// What is said of the whole message.
fn tell_whole(answer: &mut Answer<'_>, written: PartsAnswer) {
    answer.fact(b"parts", Value::Number(u64::from(written.parts)));
    answer.fact(b"mark", Value::Number(u64::from(written.mark)));
    answer.fact(b"coding", Value::Octet(written.coding));
}

// A part with its number and its count.
fn tell_part(answer: &mut Answer<'_>, number: usize, count: u64, octets: &[u8]) {
    answer.numbered(b"count", number, Value::Number(count));
    answer.numbered(b"part", number, Value::Octets(octets));
}

// The part that is asked for, and how many there are.
fn one<'a>(
    answer: &mut Answer<'_>,
    job: &Job<'_>,
    reading: ReadingNumbers,
    units: &'a [u16],
    number: u32,
) -> Result<(), Refused<'a>> {
    // Fixed memory, since no heap is a rule of the project.
    let mut octets = [0u8; 140];
    let reference = job.options.reference.unwrap_or(0);
    // The call is lent the front of the buffer, as long as the room asked for.
    let room = job.room().min(octets.len());
    let written = long_messages::wikuay_write_part(
        reading,
        reference,
        units,
        number as usize,
        &mut octets[..room],
    );
    judge_one(
        written.refusal,
        written.position,
        job,
        units,
        Shown::Part(number),
    )?;
    tell_whole(answer, written);
    tell_part(
        answer,
        number as usize,
        u64::from(written.count),
        front(&octets, written.written),
    );
    Ok(())
}

// The text of a part, and its numbers where it has them.
pub(crate) fn read<'a>(
    answer: &mut Answer<'_>,
    job: &Job<'_>,
    octets: &'a [u8],
) -> Result<(), Refused<'a>> {
    // Fixed memory, since no heap is a rule of the project.
    let mut buffer = [0u16; 160];
    let mark = u8::from(job.options.mark.unwrap_or(true));
    let read = long_messages::wikuay_read_part(
        job.coding(),
        job.count(),
        mark,
        octets,
        &mut buffer,
    );
    judge(
        read.refusal,
        read.position,
        job.coding(),
        Shown::Octets(octets),
    )?;
    let units = front(&buffer, read.written);
    answer.fact(b"units", Value::Units(units));
    answer.fact(b"text", Value::Text(units));
    if read.numbered != 0 {
        answer.fact(b"reference", Value::Number(u64::from(read.reference)));
        answer.fact(b"part", Value::Number(u64::from(read.number)));
        answer.fact(b"parts", Value::Number(u64::from(read.total)));
    }
    Ok(())
}

// The text of parts.
// Never inlined, as all.
#[inline(never)]
pub(crate) fn join<'a>(
    answer: &mut Answer<'_>,
    job: &Job<'_>,
    octets: &'a [u8],
) -> Result<(), Refused<'a>> {
    // Fixed memory, since no heap is a rule of the project.
    let mut places = [0u8; digits::MOST];
    let mut counts = Sheet::new(&mut places);
    if let Some(word) = job.options.counts {
        digits::put_counts(word, &mut counts);
    }
    let mut buffer = [0u16; digits::MOST];
    let joined = long_messages::wikuay_join_parts(
        job.coding(),
        counts.written(),
        octets,
        &mut buffer,
    );
    judge(
        joined.refusal,
        joined.position,
        job.coding(),
        Shown::Octets(octets),
    )?;
    let units = front(&buffer, joined.written);
    answer.fact(b"units", Value::Units(units));
    answer.fact(b"text", Value::Text(units));
    answer.fact(b"reference", Value::Number(u64::from(joined.reference)));
    answer.fact(b"parts", Value::Number(u64::from(joined.parts)));
    Ok(())
}
