// The calls with pages on what a case hands over.
use crate::lent::{Lent, Verdict, judge, left_in, room};
use crate::text::Text;
use crate::value::Value;
use page_answers::Block;
use wikuay::broadcasts;

pub(crate) fn read_header(case: &mut Text, lent: &mut Lent) -> Option<Verdict> {
    let octets = case.block()?;
    let expected = case.expected()?;
    let header = broadcasts::wikuay_read_header(Block { octets });
    judge(
        expected,
        &[
            (b"sequence", Value::Pair(header.sequence)),
            (b"identifier", Value::Pair(header.identifier)),
            (b"coding", Value::Octet(header.coding)),
            (b"total", Value::Number(header.total.into())),
            (b"number", Value::Number(header.number.into())),
        ],
        &[],
        &mut lent.came,
    )
}

pub(crate) fn count_pages(case: &mut Text, lent: &mut Lent) -> Option<Verdict> {
    let reading = case.reading()?;
    let text = case.units(b"text", &mut lent.units)?;
    let expected = case.expected()?;
    let answer = broadcasts::wikuay_count_pages(reading, text);
    judge(
        expected,
        &[
            (b"refusal", answer.refusal.into()),
            (b"position", answer.position.into()),
            (b"pages", answer.pages.into()),
        ],
        &[],
        &mut lent.came,
    )
}

pub(crate) fn build_page(case: &mut Text, lent: &mut Lent) -> Option<Verdict> {
    let sequence = case.pair(b"sequence")?;
    let identifier = case.pair(b"identifier")?;
    let reading = case.reading()?;
    let text = case.units(b"text", &mut lent.units)?;
    let number = case.number(b"number")?;
    let expected = case.expected()?;
    let answer = broadcasts::wikuay_build_page(
        sequence,
        identifier,
        reading,
        text,
        number as usize,
    );
    let block = answer.block.octets;
    judge(
        expected,
        &[
            (b"refusal", answer.refusal.into()),
            (b"position", answer.position.into()),
            (b"pages", answer.pages.into()),
            (b"block", Value::Block(&block)),
        ],
        &[],
        &mut lent.came,
    )
}

pub(crate) fn write_pages(case: &mut Text, lent: &mut Lent) -> Option<Verdict> {
    let sequence = case.pair(b"sequence")?;
    let identifier = case.pair(b"identifier")?;
    let reading = case.reading()?;
    let text = case.units(b"text", &mut lent.units)?;
    let out = room(&mut lent.out, case.number(b"room")?)?;
    let expected = case.expected()?;
    let answer = broadcasts::wikuay_write_pages(sequence, identifier, reading, text, out);
    let (front, touched) = left_in(out, answer.written);
    judge(
        expected,
        &[
            (b"refusal", answer.refusal.into()),
            (b"position", answer.position.into()),
            (b"written", answer.written.into()),
            (b"pages", answer.pages.into()),
            (b"out", Value::Octets(front)),
        ],
        &[(b"touched", touched)],
        &mut lent.came,
    )
}

pub(crate) fn join_pages(case: &mut Text, lent: &mut Lent) -> Option<Verdict> {
    let blocks = case.octets(b"octets", &mut lent.octets)?;
    let out = room(&mut lent.text, case.number(b"room")?)?;
    let expected = case.expected()?;
    let answer = broadcasts::wikuay_join_pages(blocks, out);
    let (front, touched) = left_in(out, answer.written);
    judge(
        expected,
        &[
            (b"refusal", answer.refusal.into()),
            (b"position", answer.position.into()),
            (b"written", answer.written.into()),
            (b"reading", answer.reading.into()),
            (b"sequence", Value::Pair(answer.sequence)),
            (b"identifier", Value::Pair(answer.identifier)),
            (b"pages", answer.pages.into()),
            (b"out", Value::Units(front)),
        ],
        &[(b"touched", touched)],
        &mut lent.came,
    )
}
