// The library's answers in numbers: what each reports, by the definitions of the crate that gives it. They are functions and no From: a count, an octet and
// a message are told of in the same Answer, each with fields of its own, and the name says which.
#![tactic(auto)]

ghost use Rattle.std.specs.Prelude.{◌≡◌};
ghost use Rattle.answers.specs.Answers.{done_answer, refused_answer, read_answer, read_refused_answer, filled_answer, octet_written_answer, octet_read_answer, held_answer, shown_told, lettered_told, refused_told, told_answer};

use coding::{Held, Reading};
use lettered::LetteredRead;
use names::{JoinedNumbers, ReadingNumbers};
use words::Refusal;

// What a call answers that writes, or that fills a lent buffer.
#[repr(C)]
#[derive(Clone, Copy)]
pub struct Answer {
    pub refusal: u32,
    pub count: u32,
    pub position: usize,
    pub written: usize,
    pub coding: u8,
}

// What a call answers that reads a coding octet.
#[repr(C)]
#[derive(Clone, Copy)]
pub struct ReadAnswer {
    pub refusal: u32,
    pub position: usize,
    pub written: usize,
    pub holds: u32,
    pub reading: ReadingNumbers,
}

// A success.
pub fn done(count: u32, written: usize, coding: u8) -> Answer
    ensures answer { result ≡ done_answer count written coding }
{
    Answer {
        refusal: 0,
        count,
        position: 0,
        written,
        coding,
    }
}

// A refusal.
pub fn refused(refusal: Refusal) -> Answer
    ensures answer { result ≡ refused_answer refusal }
{
    Answer {
        refusal: refusal.number() as u32,
        count: 0,
        position: refusal.position(),
        written: 0,
        coding: 0,
    }
}

// A success of a call that reads.
fn read(written: usize, holds: u32, reading: Reading) -> ReadAnswer
    ensures { result ≡ read_answer written holds reading }
{
    ReadAnswer {
        refusal: 0,
        position: 0,
        written,
        holds,
        reading: names::numbers(reading),
    }
}

// A refusal of a call that reads: its reading holds the unmentioned values.
pub fn read_refused(refusal: Refusal) -> ReadAnswer
    ensures answer { result ≡ read_refused_answer refusal }
{
    let plain = refused(refusal);
    ReadAnswer {
        refusal: plain.refusal,
        position: plain.position,
        written: 0,
        holds: 0,
        reading: names::numbers(Reading::plain()),
    }
}

// Of a call that fills a lent buffer.
pub fn filled(answer: Result<usize, Refusal>) -> Answer
    ensures answer { result ≡ filled_answer answer }
{
    match answer {
        Ok(written) => done(0, written, 0),
        Err(refusal) => refused(refusal),
    }
}

// Of writing a coding octet.
pub fn octet_written(answer: Result<u8, Refusal>) -> Answer
    ensures answer { result ≡ octet_written_answer answer }
{
    match answer {
        Ok(coding) => done(0, 0, coding),
        Err(refusal) => refused(refusal),
    }
}

// Of reading a coding octet.
pub fn octet_read(answer: Result<Reading, Refusal>) -> ReadAnswer
    ensures answer { result ≡ octet_read_answer answer }
{
    match answer {
        Ok(reading) => read(0, 0, reading),
        Err(refusal) => read_refused(refusal),
    }
}

// Of which text a reading holds.
pub fn held(answer: Result<Held, Refusal>) -> ReadAnswer
    ensures answer { result ≡ held_answer answer }
{
    match answer {
        Ok(Held::Septets) => read(0, 1, Reading::plain()),
        Ok(Held::Units) => read(0, 2, Reading::plain()),
        Err(refusal) => read_refused(refusal),
    }
}

// What reading a message answers, its reading joined: C's own answer is made of it in one place, message_told.
#[derive(Clone, Copy)]
pub struct MessageTold {
    pub refusal: u32,
    pub position: usize,
    pub written: usize,
    pub reading: JoinedNumbers,
}

// Of reading a text by itself, with its reading.
pub fn shown(reading: JoinedNumbers, answer: Result<usize, Refusal>) -> MessageTold
    ensures answer { result ≡ shown_told reading answer }
{
    match answer {
        Ok(units) => MessageTold {
            refusal: 0,
            position: 0,
            written: units,
            reading,
        },
        Err(refusal) => message_refused(refusal),
    }
}

// Of reading a page behind the letters of its language.
pub fn lettered_shown(ucs2: bool, answer: Result<LetteredRead, Refusal>) -> MessageTold
    ensures answer { result ≡ lettered_told ucs2 answer }
{
    match answer {
        Ok(LetteredRead { units, letters }) => MessageTold {
            refusal: 0,
            position: 0,
            written: units,
            reading: names::join(names::lettered_numbers(ucs2, letters)),
        },
        Err(refusal) => message_refused(refusal),
    }
}

// A refusal of reading a message: its reading holds the unmentioned values.
pub fn message_refused(refusal: Refusal) -> MessageTold
    ensures answer { result ≡ refused_told refusal }
{
    let plain = refused(refusal);
    MessageTold {
        refusal: plain.refusal,
        position: plain.position,
        written: 0,
        reading: names::join(names::numbers(Reading::plain())),
    }
}

// Of reading a message, as C takes it.
pub fn message_told(answer: MessageTold) -> ReadAnswer
    ensures answer { result ≡ told_answer answer }
{
    ReadAnswer {
        refusal: answer.refusal,
        position: answer.position,
        written: answer.written,
        holds: 0,
        reading: names::part(answer.reading),
    }
}
