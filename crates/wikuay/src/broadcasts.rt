// The calls for broadcasts of several pages (document 02, W1). No rule lives here.
// A reading with a number that names nothing is refused 8 before all else.
ghost use Rattle.std.specs.Prelude.{◌≡◌, ◌≤◌, length};
ghost use Rattle.pages.specs.Reports.{counted_pages, pages_pages, join_pages};
ghost use Rattle.pages.specs.Written.{built_of};
ghost use Rattle.page_answers.specs.PageAnswers.{counted_answer, pages_written_answer, built_answer, joined_answer};
ghost use Rattle.wikuay.specs.PageCalls.{read_header_gives, count_pages_gives, build_page_gives, write_pages_gives, write_pages_keeps, join_pages_gives, join_pages_keeps};

use names::ReadingNumbers;
use page_answers::{Block, BlockHeader, JoinAnswer, PageAnswer, PagesAnswer};
use pages::{Joined, Page, PagesWritten};
use words::Refusal;

// The header of a block. It refuses nothing.
pub fn wikuay_read_header(block: Block) -> BlockHeader
    ensures answer { result ≡ read_header_gives block }
{
    let octets = block.octets;
    page_answers::header(blocks::read_header(octets))
}

// How many pages a text takes. Refuses 8, 1, 2, 3, 6, 5.
pub fn wikuay_count_pages(reading: ReadingNumbers, text: &[u16]) -> PagesAnswer
    ensures answer { result ≡ count_pages_gives reading text.now }
{
    let Some(reading) = names::reading(reading) else {
        return page_answers::pages_refused(Refusal::Unwritable);
    };
    counted(paging::count_pages(reading, text))
}

// Builds one page of a text, counted from 1. Refuses 8, 1, 2, 3, 6, 5, 10; a refused block is all zero.
pub fn wikuay_build_page(
    sequence: u16,
    identifier: u16,
    reading: ReadingNumbers,
    text: &[u16],
    number: usize,
) -> PageAnswer
    ensures answer { result ≡ build_page_gives sequence identifier reading text.now number }
{
    let Some(reading) = names::reading(reading) else {
        return page_answers::page(page_answers::pages_refused(Refusal::Unwritable), [0u8; 88]);
    };
    built(paging::build_page(sequence, identifier, reading, text, number))
}

// Writes all pages of a text end to end. Refuses 8, 1, 2, 3, 6, 5, 7, and then leaves the buffer as it came; a success touches only the
// written front.
pub fn wikuay_write_pages(
    sequence: u16,
    identifier: u16,
    reading: ReadingNumbers,
    text: &[u16],
    out: &mut [u8],
) -> PagesAnswer
    ensures answer { result ≡ write_pages_gives sequence identifier reading text.now (length out.old) }
    ensures buffer { out.new ≡ write_pages_keeps sequence identifier reading text.now out.old }
{
    let Some(reading) = names::reading(reading) else {
        return page_answers::pages_refused(Refusal::Unwritable);
    };
    pages_written(paging::write_pages(sequence, identifier, reading, text, out))
}

// Joins blocks, lent end to end in any order. Refuses 4, 10, 1, 2, 3, 10, 7, and then leaves the buffer as it came; a success touches only
// the written front.
pub fn wikuay_join_pages(blocks: &[u8], out: &mut [u16]) -> JoinAnswer
    ensures answer { result ≡ join_pages_gives blocks.now (length out.old) }
    ensures buffer { out.new ≡ join_pages_keeps blocks.now out.old }
{
    joined(joining::join_pages(blocks, out))
}

// The answer of building a page in numbers, and its block, all zero where it is refused. No message has over 15 pages: the cast
// asks for that bound, and a From has no place for it.
fn built(answer: Result<Page, Refusal>) -> PageAnswer
    requires { counted_pages (built_of answer).answer ≤ 15 }
    ensures { result ≡ built_answer (built_of answer) }
{
    match answer {
        Ok(page) => {
            let block = page.block;
            page_answers::page(page_answers::pages_done(page.pages as u32, 0), block)
        }
        Err(refusal) => page_answers::page(page_answers::pages_refused(refusal), [0u8; 88]),
    }
}

// The answer of counting pages in numbers. No message has over 15 pages.
fn counted(answer: Result<usize, Refusal>) -> PagesAnswer
    requires { counted_pages answer ≤ 15 }
    ensures { result ≡ counted_answer answer }
{
    match answer {
        Ok(pages) => page_answers::pages_done(pages as u32, 0),
        Err(refusal) => page_answers::pages_refused(refusal),
    }
}

// The answer of writing all pages in numbers.
fn pages_written(answer: Result<PagesWritten, Refusal>) -> PagesAnswer
    requires { pages_pages answer ≤ 15 }
    ensures { result ≡ pages_written_answer answer }
{
    match answer {
        Ok(all) => page_answers::pages_done(all.pages as u32, all.octets),
        Err(refusal) => page_answers::pages_refused(refusal),
    }
}

// The answer of joining pages in numbers.
fn joined(answer: Result<Joined, Refusal>) -> JoinAnswer
    requires { join_pages answer ≤ 15 }
    ensures { result ≡ joined_answer answer }
{
    match answer {
        Ok(text) => page_answers::join_done(
            text.pages as u32,
            text.units,
            text.sequence,
            text.identifier,
            text.reading,
        ),
        Err(refusal) => page_answers::join_refused(refusal),
    }
}
