// The calls that C links for long short messages.
ghost use Rattle.std.specs.Prelude.{◌≡◌, length};
ghost use Rattle.wikuay.specs.PartCalls.{read_part_gives, read_part_keeps, count_parts_gives, write_part_gives, write_part_keeps, write_parts_gives, write_parts_keeps, write_parts_lists, join_parts_gives, join_parts_keeps};

use names::ReadingNumbers;
use part_answers::{PartAnswer, PartsAnswer, PartsJoinAnswer};

// Reads one short message, where the mark says whether a header stands in front: 1, or 0. Refuses 8, 1, 2, 4, 12, 4, 7, and then leaves the buffer as it
// came; a success touches only the written front.
#[unsafe(no_mangle)]
pub extern "C" fn wikuay_read_part(
    coding: u8,
    count: usize,
    mark: u8,
    octets: &[u8],
    out: &mut [u16],
) -> PartAnswer
    ensures answer { result ≡ read_part_gives coding count mark octets.now (length out.old) }
    ensures buffer { out.new ≡ read_part_keeps coding count mark octets.now out.old }
{
    wikuay::long_messages::wikuay_read_part(coding, count, mark, octets, out)
}

// How many parts a text takes. Refuses 8, 1, 2, 6, 5.
#[unsafe(no_mangle)]
pub extern "C" fn wikuay_count_parts(reading: ReadingNumbers, text: &[u16]) -> PartsAnswer
    ensures answer { result ≡ count_parts_gives reading text.now }
{
    wikuay::long_messages::wikuay_count_parts(reading, text)
}

// Writes one part of a text, counted from 1. Refuses 8, 1, 2, 6, 5, 10, 7, and then leaves the buffer as it came; a success touches only the written front.
#[unsafe(no_mangle)]
pub extern "C" fn wikuay_write_part(
    reading: ReadingNumbers,
    reference: u8,
    text: &[u16],
    number: usize,
    out: &mut [u8],
) -> PartsAnswer
    ensures answer { result ≡ write_part_gives reading reference text.now number (length out.old) }
    ensures buffer { out.new ≡ write_part_keeps reading reference text.now number out.old }
{
    wikuay::long_messages::wikuay_write_part(reading, reference, text, number, out)
}

// Writes all parts of a text end to end, and for each its count and its length in octets. Refuses 8, 1, 2, 6, 5, 7, and then leaves both buffers as they
// came; a success touches only the written fronts.
#[unsafe(no_mangle)]
pub extern "C" fn wikuay_write_parts(
    reading: ReadingNumbers,
    reference: u8,
    text: &[u16],
    out: &mut [u8],
    sizes: &mut [u8],
) -> PartsAnswer
    ensures answer { result ≡ write_parts_gives reading reference text.now (length out.old) (length sizes.old) }
    ensures buffer { out.new ≡ write_parts_keeps reading reference text.now (length sizes.old) out.old }
    ensures sizes { sizes.new ≡ write_parts_lists reading reference text.now (length out.old) sizes.old }
{
    wikuay::long_messages::wikuay_write_parts(reading, reference, text, out, sizes)
}

// Joins parts, lent end to end in any order beside their counts. Refuses 1, 2, 4, 12, 4, 10, 7, and then leaves the buffer as it came; a success touches
// only the written front.
#[unsafe(no_mangle)]
pub extern "C" fn wikuay_join_parts(
    coding: u8,
    counts: &[u8],
    octets: &[u8],
    out: &mut [u16],
) -> PartsJoinAnswer
    ensures answer { result ≡ join_parts_gives coding counts.now octets.now (length out.old) }
    ensures buffer { out.new ≡ join_parts_keeps coding counts.now octets.now out.old }
{
    wikuay::long_messages::wikuay_join_parts(coding, counts, octets, out)
}
