// Broadcasts of several pages: a text into blocks, blocks into a text, and the header of one.
use crate::asked::Job;
use crate::refusal::{Refused, Shown, judge, judge_one, judge_text};
use crate::tell::{Answer, Value, front};
use crate::verb::Service;
use crate::verbs;
use names::ReadingNumbers;
use page_answers::Block;
use wikuay::broadcasts;

// The pages of a text: all of them, or the one that is asked for.
pub(crate) fn write<'a>(
    answer: &mut Answer<'_>,
    job: &Job<'_>,
    units: &'a [u16],
) -> Result<(), Refused<'a>> {
    let read = wikuay::wikuay_read_coding(Service::Broadcast.number(), job.coding());
    let reading = verbs::lettered(job, read.reading);
    match job.options.page {
        Some(number) => one(answer, job, reading, units, number),
        None => all(answer, job, reading, units),
    }
}

// All pages: how many they are, and the block of each.
fn all<'a>(
    answer: &mut Answer<'_>,
    job: &Job<'_>,
    reading: ReadingNumbers,
    units: &'a [u16],
) -> Result<(), Refused<'a>> {
    // Fixed memory, since no heap is a rule of the project.
    let mut octets = [0u8; 1320];
    let sequence = job.options.sequence.unwrap_or(0);
    let identifier = job.options.identifier.unwrap_or(0);
    // The call is lent the front of the buffer, as long as the room asked for.
    let room = job.room().min(octets.len());
    let written = broadcasts::wikuay_write_pages(
        sequence,
        identifier,
        reading,
        units,
        &mut octets[..room],
    );
    judge_text(written.refusal, written.position, job, units)?;
    answer.fact(b"pages", Value::Number(u64::from(written.pages)));
    for (number, block) in (1..).zip(front(&octets, written.written).chunks_exact(88)) {
        answer.numbered(b"page", number, Value::Octets(block));
    }
    Ok(())
}

// The page that is asked for, and how many there are.
fn one<'a>(
    answer: &mut Answer<'_>,
    job: &Job<'_>,
    reading: ReadingNumbers,
    units: &'a [u16],
    number: u32,
) -> Result<(), Refused<'a>> {
    let sequence = job.options.sequence.unwrap_or(0);
    let identifier = job.options.identifier.unwrap_or(0);
    let built = broadcasts::wikuay_build_page(
        sequence,
        identifier,
        reading,
        units,
        number as usize,
    );
    judge_one(
        built.refusal,
        built.position,
        job,
        units,
        Shown::Page(number),
    )?;
    answer.fact(b"pages", Value::Number(u64::from(built.pages)));
    answer.numbered(b"page", number as usize, Value::Octets(&built.block.octets));
    Ok(())
}

// The text of blocks. 1, 2 and 3 are of the first block's coding octet.
// Never inlined: its buffer is on the stack only while it runs.
#[inline(never)]
pub(crate) fn join<'a>(answer: &mut Answer<'_>, octets: &'a [u8]) -> Result<(), Refused<'a>> {
    // Fixed memory, since no heap is a rule of the project.
    let mut buffer = [0u16; 1395];
    let joined = broadcasts::wikuay_join_pages(octets, &mut buffer);
    let coding = octets.get(4).copied().unwrap_or(0);
    judge(
        joined.refusal,
        joined.position,
        coding,
        Shown::Octets(octets),
    )?;
    let units = front(&buffer, joined.written);
    answer.fact(b"units", Value::Units(units));
    answer.fact(b"text", Value::Text(units));
    answer.fact(b"sequence", Value::Number(u64::from(joined.sequence)));
    answer.fact(b"identifier", Value::Number(u64::from(joined.identifier)));
    answer.fact(b"pages", Value::Number(u64::from(joined.pages)));
    Ok(())
}

// What stands in a block in front of the text.
pub(crate) fn header(answer: &mut Answer<'_>, octets: [u8; 88]) {
    let head = broadcasts::wikuay_read_header(Block { octets });
    answer.fact(b"sequence", Value::Number(u64::from(head.sequence)));
    answer.fact(b"identifier", Value::Number(u64::from(head.identifier)));
    answer.fact(b"coding", Value::Octet(head.coding));
    answer.fact(b"page", Value::Number(u64::from(head.number)));
    answer.fact(b"pages", Value::Number(u64::from(head.total)));
}
