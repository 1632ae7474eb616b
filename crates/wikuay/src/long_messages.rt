// The calls for long short messages (document 02, W5). No rule lives here.
// A reading with a number that names nothing is refused 8 before all else, and so is a mark that is neither 0 nor 1.
ghost use Rattle.std.specs.Prelude.{◌≡◌, ◌≤◌, length};
ghost use Rattle.parted.specs.Reports.{counted_parts, part_travels, part_parts, parts_parts, join_parts};
ghost use Rattle.part_answers.specs.PartAnswers.{counted_answer, part_written_answer, parts_written_answer, parts_joined_answer};
ghost use Rattle.wikuay.specs.PartCalls.{read_part_gives, read_part_keeps, count_parts_gives, write_part_gives, write_part_keeps, write_parts_gives, write_parts_keeps, write_parts_lists, join_parts_gives, join_parts_keeps};

use names::ReadingNumbers;
use part_answers::{PartAnswer, PartsAnswer, PartsJoinAnswer};
use parted::{PartWritten, PartsJoined, PartsWritten};
use words::Refusal;

// Reads one short message, where the mark says whether a header stands in front: 1, or 0. Refuses 8, 1, 2, 4, 12, 4, 7, and then leaves the buffer as it
// came; a success touches only the written front.
pub fn wikuay_read_part(
    coding: u8,
    count: usize,
    mark: u8,
    octets: &[u8],
    out: &mut [u16],
) -> PartAnswer
    ensures answer { result ≡ read_part_gives coding count mark octets.now (length out.old) }
    ensures buffer { out.new ≡ read_part_keeps coding count mark octets.now out.old }
{
    if 2 <= mark {
        return part_answers::part_refused(Refusal::Unwritable);
    }
    part_answers::part_read(part_reading::read_part(coding, count, mark == 1, octets, out))
}

// How many parts a text takes. Refuses 8, 1, 2, 6, 5.
pub fn wikuay_count_parts(reading: ReadingNumbers, text: &[u16]) -> PartsAnswer
    ensures answer { result ≡ count_parts_gives reading text.now }
{
    let Some(reading) = names::reading(reading) else {
        return part_answers::parts_refused(Refusal::Unwritable);
    };
    counted(parts::count_parts(reading, text))
}

// Writes one part of a text, counted from 1. Refuses 8, 1, 2, 6, 5, 10, 7, and then leaves the buffer as it came; a success touches only the written front.
pub fn wikuay_write_part(
    reading: ReadingNumbers,
    reference: u8,
    text: &[u16],
    number: usize,
    out: &mut [u8],
) -> PartsAnswer
    ensures answer { result ≡ write_part_gives reading reference text.now number (length out.old) }
    ensures buffer { out.new ≡ write_part_keeps reading reference text.now number out.old }
{
    let Some(reading) = names::reading(reading) else {
        return part_answers::parts_refused(Refusal::Unwritable);
    };
    part_written(parts::write_part(reading, reference, text, number, out))
}

// Writes all parts of a text end to end, and for each its count and its length in octets. Refuses 8, 1, 2, 6, 5, 7, and then leaves both buffers as they
// came; a success touches only the written fronts.
pub fn wikuay_write_parts(
    reading: ReadingNumbers,
    reference: u8,
    text: &[u16],
    out: &mut [u8],
    sizes: &mut [u8],
) -> PartsAnswer
    ensures answer { result ≡ write_parts_gives reading reference text.now (length out.old) (length sizes.old) }
    ensures buffer { out.new ≡ write_parts_keeps reading reference text.now (length sizes.old) out.old }
    ensures sizes { sizes.new ≡ write_parts_lists reading reference text.now (length out.old) sizes.old }
{
    let Some(reading) = names::reading(reading) else {
        return part_answers::parts_refused(Refusal::Unwritable);
    };
    parts_written(parts::write_parts(reading, reference, text, out, sizes))
}

// Joins parts, lent end to end in any order beside their counts. Refuses 1, 2, 4, 12, 4, 10, 7, and then leaves the buffer as it came; a success touches
// only the written front.
pub fn wikuay_join_parts(
    coding: u8,
    counts: &[u8],
    octets: &[u8],
    out: &mut [u16],
) -> PartsJoinAnswer
    ensures answer { result ≡ join_parts_gives coding counts.now octets.now (length out.old) }
    ensures buffer { out.new ≡ join_parts_keeps coding counts.now octets.now out.old }
{
    joined(part_joining::join_parts(coding, counts, octets, out))
}

// The answer of counting parts in numbers. No message has over 255 parts: the cast asks for that bound, and a From has no place for it.
fn counted(answer: Result<usize, Refusal>) -> PartsAnswer
    requires { counted_parts answer ≤ 255 }
    ensures { result ≡ counted_answer answer }
{
    match answer {
        Ok(parts) => part_answers::parts_done(parts as u32, 0, 0, 0, false),
        Err(refusal) => part_answers::parts_refused(refusal),
    }
}

// The answer of writing one part in numbers. No count is over 160.
fn part_written(answer: Result<PartWritten, Refusal>) -> PartsAnswer
    requires { (part_parts answer ≤ 255) × (part_travels answer ≤ 160) }
    ensures { result ≡ part_written_answer answer }
{
    match answer {
        Ok(part) => part_answers::parts_done(
            part.parts as u32,
            part.octets,
            part.count as u32,
            part.coding,
            part.marked,
        ),
        Err(refusal) => part_answers::parts_refused(refusal),
    }
}

// The answer of writing all parts in numbers.
fn parts_written(answer: Result<PartsWritten, Refusal>) -> PartsAnswer
    requires { parts_parts answer ≤ 255 }
    ensures { result ≡ parts_written_answer answer }
{
    match answer {
        Ok(all) => {
            part_answers::parts_done(all.parts as u32, all.octets, 0, all.coding, all.marked)
        }
        Err(refusal) => part_answers::parts_refused(refusal),
    }
}

// The answer of joining parts in numbers.
fn joined(answer: Result<PartsJoined, Refusal>) -> PartsJoinAnswer
    requires { join_parts answer ≤ 255 }
    ensures { result ≡ parts_joined_answer answer }
{
    match answer {
        Ok(text) => {
            part_answers::join_done(text.parts as u32, text.units, text.reference, text.reading)
        }
        Err(refusal) => part_answers::join_refused(refusal),
    }
}
