// The answers of the calls with parts in numbers: what each reports, by the definitions of the crate that gives it. Functions and no From, as in
// answers: a success takes more than one value.
#![tactic(auto)]

ghost use Rattle.std.specs.Prelude.{◌≡◌};
ghost use Rattle.part_answers.specs.PartAnswers.{parts_done_answer, parts_refused_answer, part_done_answer, part_refused_answer, part_read_answer, parts_join_done_answer, parts_join_refused_answer};

use coding::Reading;
use fields::flag;
use headed::Numbers;
use names::ReadingNumbers;
use parted::PartRead;
use words::Refusal;

// What a call answers that counts the parts of a text, writes one, or writes all of them.
#[repr(C)]
#[derive(Clone, Copy)]
pub struct PartsAnswer {
    pub refusal: u32,
    pub parts: u32,
    pub position: usize,
    pub written: usize,
    pub count: u32,
    pub coding: u8,
    pub mark: u8,
}

// What a call answers that reads a part.
#[repr(C)]
#[derive(Clone, Copy)]
pub struct PartAnswer {
    pub refusal: u32,
    pub numbered: u8,
    pub reference: u8,
    pub total: u8,
    pub number: u8,
    pub position: usize,
    pub written: usize,
    pub reading: ReadingNumbers,
}

// What a call answers that joins parts.
#[repr(C)]
#[derive(Clone, Copy)]
pub struct PartsJoinAnswer {
    pub refusal: u32,
    pub parts: u32,
    pub position: usize,
    pub written: usize,
    pub reference: u8,
    pub reading: ReadingNumbers,
}

// A success of counting or writing parts.
pub fn parts_done(parts: u32, written: usize, count: u32, coding: u8, marked: bool) -> PartsAnswer
    ensures answer { result ≡ parts_done_answer parts written count coding marked }
{
    PartsAnswer {
        refusal: 0,
        parts,
        position: 0,
        written,
        count,
        coding,
        mark: flag(marked),
    }
}

// A refusal of counting or writing parts.
pub fn parts_refused(refusal: Refusal) -> PartsAnswer
    ensures answer { result ≡ parts_refused_answer refusal }
{
    let plain = answers::refused(refusal);
    PartsAnswer {
        refusal: plain.refusal,
        parts: 0,
        position: plain.position,
        written: 0,
        count: 0,
        coding: 0,
        mark: 0,
    }
}

// Of reading a part.
pub fn part_read(answer: Result<PartRead, Refusal>) -> PartAnswer
    ensures answer { result ≡ part_read_answer answer }
{
    match answer {
        Ok(
            PartRead {
                units,
                reading,
                concatenation,
            },
        ) => part_done(units, reading, concatenation),
        Err(refusal) => part_refused(refusal),
    }
}

// A success of reading a part: 1 and the three numbers of its header, or zeros.
fn part_done(written: usize, reading: Reading, concatenation: Option<Numbers>) -> PartAnswer
    ensures { result ≡ part_done_answer written reading concatenation }
{
    let alone = PartAnswer {
        refusal: 0,
        numbered: 0,
        reference: 0,
        total: 0,
        number: 0,
        position: 0,
        written,
        reading: names::numbers(reading),
    };
    match concatenation {
        Some(part) => PartAnswer {
            numbered: 1,
            reference: part.reference,
            total: part.total,
            number: part.number,
            ..alone
        },
        None => alone,
    }
}

// A refusal of reading a part: its reading holds the unmentioned values.
pub fn part_refused(refusal: Refusal) -> PartAnswer
    ensures answer { result ≡ part_refused_answer refusal }
{
    let plain = answers::refused(refusal);
    PartAnswer {
        refusal: plain.refusal,
        numbered: 0,
        reference: 0,
        total: 0,
        number: 0,
        position: plain.position,
        written: 0,
        reading: names::numbers(Reading::plain()),
    }
}

// A success of joining parts.
pub fn join_done(parts: u32, written: usize, reference: u8, reading: Reading) -> PartsJoinAnswer
    ensures answer { result ≡ parts_join_done_answer parts written reference reading }
{
    PartsJoinAnswer {
        refusal: 0,
        parts,
        position: 0,
        written,
        reference,
        reading: names::numbers(reading),
    }
}

// A refusal of joining parts: its reading holds the unmentioned values.
pub fn join_refused(refusal: Refusal) -> PartsJoinAnswer
    ensures answer { result ≡ parts_join_refused_answer refusal }
{
    let plain = answers::refused(refusal);
    PartsJoinAnswer {
        refusal: plain.refusal,
        parts: 0,
        position: plain.position,
        written: 0,
        reference: 0,
        reading: names::numbers(Reading::plain()),
    }
}
