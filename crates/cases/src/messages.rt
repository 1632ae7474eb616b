// The calls of codings, septets and messages on what a case hands over.
use crate::lent::{Lent, Verdict, judge, left_in, room};
use crate::text::Text;
use crate::value::Value;
use answers::Answer;
use printed::Sheet;

pub(crate) fn read_coding(case: &mut Text, lent: &mut Lent) -> Option<Verdict> {
    let service = case.service()?;
    let coding = case.octet(b"coding")?;
    let expected = case.expected()?;
    let answer = wikuay::wikuay_read_coding(service, coding);
    judge(
        expected,
        &[
            (b"refusal", answer.refusal.into()),
            (b"position", answer.position.into()),
            (b"reading", answer.reading.into()),
        ],
        &[],
        &mut lent.came,
    )
}

pub(crate) fn write_coding(case: &mut Text, lent: &mut Lent) -> Option<Verdict> {
    let service = case.service()?;
    let reading = case.reading()?;
    let expected = case.expected()?;
    let answer = wikuay::wikuay_write_coding(service, reading);
    judge(
        expected,
        &[
            (b"refusal", answer.refusal.into()),
            (b"position", answer.position.into()),
            (b"coding", Value::Octet(answer.coding)),
        ],
        &[],
        &mut lent.came,
    )
}

pub(crate) fn holds_text(case: &mut Text, lent: &mut Lent) -> Option<Verdict> {
    let reading = case.reading()?;
    let expected = case.expected()?;
    let answer = wikuay::wikuay_holds_text(reading);
    judge(
        expected,
        &[
            (b"refusal", answer.refusal.into()),
            (b"position", answer.position.into()),
            (b"holds", Value::Holds(answer.holds)),
        ],
        &[],
        &mut lent.came,
    )
}

pub(crate) fn pack(case: &mut Text, lent: &mut Lent) -> Option<Verdict> {
    let service = case.service()?;
    let septets = case.octets(b"septets", &mut lent.octets)?;
    let out = room(&mut lent.out, case.number(b"room")?)?;
    let expected = case.expected()?;
    let answer = wikuay::wikuay_pack(service, septets, out);
    let (front, touched) = left_in(out, answer.written);
    judge(
        expected,
        &[
            (b"refusal", answer.refusal.into()),
            (b"position", answer.position.into()),
            (b"written", answer.written.into()),
            (b"count", answer.count.into()),
            (b"out", Value::Octets(front)),
        ],
        &[(b"touched", touched)],
        &mut lent.came,
    )
}

pub(crate) fn unpack(case: &mut Text, lent: &mut Lent) -> Option<Verdict> {
    let service = case.service()?;
    let count = case.number(b"count")?;
    let octets = case.octets(b"octets", &mut lent.octets)?;
    let out = room(&mut lent.out, case.number(b"room")?)?;
    let expected = case.expected()?;
    let answer = wikuay::wikuay_unpack(service, octets, count as usize, out);
    let (front, touched) = left_in(out, answer.written);
    judge_filled(
        expected,
        answer,
        Value::Octets(front),
        touched,
        &mut lent.came,
    )
}

pub(crate) fn text_to_septets(case: &mut Text, lent: &mut Lent) -> Option<Verdict> {
    let text = case.units(b"text", &mut lent.units)?;
    let out = room(&mut lent.out, case.number(b"room")?)?;
    let expected = case.expected()?;
    let answer = wikuay::wikuay_text_to_septets(text, out);
    let (front, touched) = left_in(out, answer.written);
    judge_filled(
        expected,
        answer,
        Value::Octets(front),
        touched,
        &mut lent.came,
    )
}

pub(crate) fn septets_to_text(case: &mut Text, lent: &mut Lent) -> Option<Verdict> {
    let septets = case.octets(b"septets", &mut lent.octets)?;
    let out = room(&mut lent.text, case.number(b"room")?)?;
    let expected = case.expected()?;
    let answer = wikuay::wikuay_septets_to_text(septets, out);
    let (front, touched) = left_in(out, answer.written);
    judge_filled(
        expected,
        answer,
        Value::Units(front),
        touched,
        &mut lent.came,
    )
}

pub(crate) fn read_message(case: &mut Text, lent: &mut Lent) -> Option<Verdict> {
    let service = case.service()?;
    let coding = case.octet(b"coding")?;
    let count = case.number(b"count")?;
    let octets = case.octets(b"octets", &mut lent.octets)?;
    let out = room(&mut lent.text, case.number(b"room")?)?;
    let expected = case.expected()?;
    let answer = wikuay::wikuay_read_message(service, coding, count as usize, octets, out);
    let (front, touched) = left_in(out, answer.written);
    judge(
        expected,
        &[
            (b"refusal", answer.refusal.into()),
            (b"position", answer.position.into()),
            (b"written", answer.written.into()),
            (b"reading", answer.reading.into()),
            (b"out", Value::Units(front)),
        ],
        &[(b"touched", touched)],
        &mut lent.came,
    )
}

pub(crate) fn write_message(case: &mut Text, lent: &mut Lent) -> Option<Verdict> {
    let service = case.service()?;
    let reading = case.reading()?;
    let text = case.units(b"text", &mut lent.units)?;
    let out = room(&mut lent.out, case.number(b"room")?)?;
    let expected = case.expected()?;
    let answer = wikuay::wikuay_write_message(service, reading, text, out);
    let (front, touched) = left_in(out, answer.written);
    judge(
        expected,
        &[
            (b"refusal", answer.refusal.into()),
            (b"position", answer.position.into()),
            (b"written", answer.written.into()),
            (b"count", answer.count.into()),
            (b"coding", Value::Octet(answer.coding)),
            (b"out", Value::Octets(front)),
        ],
        &[(b"touched", touched)],
        &mut lent.came,
    )
}

// The answer of a call that fills a buffer and tells no more.
fn judge_filled(
    expected: &[u8],
    answer: Answer,
    out: Value,
    touched: Option<usize>,
    came: &mut Sheet,
) -> Option<Verdict> {
    judge(
        expected,
        &[
            (b"refusal", answer.refusal.into()),
            (b"position", answer.position.into()),
            (b"written", answer.written.into()),
            (b"out", out),
        ],
        &[(b"touched", touched)],
        came,
    )
}
