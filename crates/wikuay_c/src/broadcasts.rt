// The calls that C links for broadcasts of several pages.
ghost use Rattle.std.specs.Prelude.{◌≡◌, length};
ghost use Rattle.wikuay.specs.PageCalls.{read_header_gives, count_pages_gives, build_page_gives, write_pages_gives, write_pages_keeps, join_pages_gives, join_pages_keeps};

use names::ReadingNumbers;
use page_answers::{Block, BlockHeader, JoinAnswer, PageAnswer, PagesAnswer};

// The header of a block. It refuses nothing.
#[unsafe(no_mangle)]
pub extern "C" fn wikuay_read_header(block: Block) -> BlockHeader
    ensures answer { result ≡ read_header_gives block }
{
    wikuay::broadcasts::wikuay_read_header(block)
}

// How many pages a text takes. Refuses 8, 1, 2, 3, 6, 5.
#[unsafe(no_mangle)]
pub extern "C" fn wikuay_count_pages(reading: ReadingNumbers, text: &[u16]) -> PagesAnswer
    ensures answer { result ≡ count_pages_gives reading text.now }
{
    wikuay::broadcasts::wikuay_count_pages(reading, text)
}

// Builds one page of a text, counted from 1. Refuses 8, 1, 2, 3, 6, 5, 10; a refused block is all zero.
#[unsafe(no_mangle)]
pub extern "C" fn wikuay_build_page(
    sequence: u16,
    identifier: u16,
    reading: ReadingNumbers,
    text: &[u16],
    number: usize,
) -> PageAnswer
    ensures answer { result ≡ build_page_gives sequence identifier reading text.now number }
{
    wikuay::broadcasts::wikuay_build_page(sequence, identifier, reading, text, number)
}

// Writes all pages of a text end to end. Refuses 8, 1, 2, 3, 6, 5, 7, and then leaves the buffer as it came; a success touches only the
// written front.
#[unsafe(no_mangle)]
pub extern "C" fn wikuay_write_pages(
    sequence: u16,
    identifier: u16,
    reading: ReadingNumbers,
    text: &[u16],
    out: &mut [u8],
) -> PagesAnswer
    ensures answer { result ≡ write_pages_gives sequence identifier reading text.now (length out.old) }
    ensures buffer { out.new ≡ write_pages_keeps sequence identifier reading text.now out.old }
{
    wikuay::broadcasts::wikuay_write_pages(sequence, identifier, reading, text, out)
}

// Joins blocks, lent end to end in any order. Refuses 4, 10, 1, 2, 3, 10, 7, and then leaves the buffer as it came; a success touches only
// the written front.
#[unsafe(no_mangle)]
pub extern "C" fn wikuay_join_pages(blocks: &[u8], out: &mut [u16]) -> JoinAnswer
    ensures answer { result ≡ join_pages_gives blocks.now (length out.old) }
    ensures buffer { out.new ≡ join_pages_keeps blocks.now out.old }
{
    wikuay::broadcasts::wikuay_join_pages(blocks, out)
}
