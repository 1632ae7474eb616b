// The answers of the calls with pages in numbers: what each reports, by the definitions of the crate that gives it. Functions and no From, as in
// answers: a success takes more than one value.
#![tactic(auto)]

ghost use Rattle.std.specs.Prelude.{◌≡◌};
ghost use Rattle.page_answers.specs.PageAnswers.{header_numbers, pages_done_answer, pages_refused_answer, page_answer, join_done_answer, join_refused_answer};

use coding::Reading;
use names::ReadingNumbers;
use pages::Header;
use words::Refusal;

// A block by value.
#[repr(C)]
#[derive(Clone, Copy)]
pub struct Block {
    pub octets: [u8; 88],
}

// What stands in a block in front of the text.
#[repr(C)]
#[derive(Clone, Copy)]
pub struct BlockHeader {
    pub sequence: u16,
    pub identifier: u16,
    pub coding: u8,
    pub total: u8,
    pub number: u8,
}

// What a call answers that counts the pages of a text, or writes all of them.
#[repr(C)]
#[derive(Clone, Copy)]
pub struct PagesAnswer {
    pub refusal: u32,
    pub pages: u32,
    pub position: usize,
    pub written: usize,
}

// What a call answers that builds a page.
#[repr(C)]
#[derive(Clone, Copy)]
pub struct PageAnswer {
    pub refusal: u32,
    pub pages: u32,
    pub position: usize,
    pub block: Block,
}

// What a call answers that joins pages.
#[repr(C)]
#[derive(Clone, Copy)]
pub struct JoinAnswer {
    pub refusal: u32,
    pub pages: u32,
    pub position: usize,
    pub written: usize,
    pub sequence: u16,
    pub identifier: u16,
    pub reading: ReadingNumbers,
}

// The header of a block.
pub fn header(head: Header) -> BlockHeader
    ensures answer { result ≡ header_numbers head }
{
    BlockHeader {
        sequence: head.sequence,
        identifier: head.identifier,
        coding: head.coding,
        total: head.total,
        number: head.number,
    }
}

// A success of counting or writing all pages.
pub fn pages_done(pages: u32, written: usize) -> PagesAnswer
    ensures answer { result ≡ pages_done_answer pages written }
{
    PagesAnswer {
        refusal: 0,
        pages,
        position: 0,
        written,
    }
}

// A refusal of counting or writing all pages.
pub fn pages_refused(refusal: Refusal) -> PagesAnswer
    ensures answer { result ≡ pages_refused_answer refusal }
{
    let plain = answers::refused(refusal);
    PagesAnswer {
        refusal: plain.refusal,
        pages: 0,
        position: plain.position,
        written: 0,
    }
}

// The answer of building a page, with its block.
pub fn page(answer: PagesAnswer, octets: [u8; 88]) -> PageAnswer
    ensures answer { result ≡ page_answer answer octets }
{
    PageAnswer {
        refusal: answer.refusal,
        pages: answer.pages,
        position: answer.position,
        block: Block { octets },
    }
}

// A success of joining pages.
pub fn join_done(
    pages: u32,
    written: usize,
    sequence: u16,
    identifier: u16,
    reading: Reading,
) -> JoinAnswer
    ensures answer { result ≡ join_done_answer pages written sequence identifier reading }
{
    JoinAnswer {
        refusal: 0,
        pages,
        position: 0,
        written,
        sequence,
        identifier,
        reading: names::numbers(reading),
    }
}

// A refusal of joining pages: its reading holds the unmentioned values.
pub fn join_refused(refusal: Refusal) -> JoinAnswer
    ensures answer { result ≡ join_refused_answer refusal }
{
    let plain = answers::refused(refusal);
    JoinAnswer {
        refusal: plain.refusal,
        pages: 0,
        position: plain.position,
        written: 0,
        sequence: 0,
        identifier: 0,
        reading: names::numbers(Reading::plain()),
    }
}
