// The calls of a long short message on what a case hands over.
use crate::lent::{Lent, Verdict, judge, judge_both, left_in, repeated, room};
use crate::text::Text;
use crate::value::Value;
use names::ReadingNumbers;
use part_answers::PartsAnswer;
use wikuay::long_messages;

// No text that is taken several times is longer.
const LONG: [u16; 40960] = [0; 40960];

pub(crate) fn read_part(case: &mut Text, lent: &mut Lent) -> Option<Verdict> {
    let coding = case.octet(b"coding")?;
    let count = case.number(b"count")?;
    let mark = case.mark()?;
    let octets = case.octets(b"octets", &mut lent.octets)?;
    let out = room(&mut lent.text, case.number(b"room")?)?;
    let expected = case.expected()?;
    let answer = long_messages::wikuay_read_part(coding, count as usize, mark, octets, out);
    let (front, touched) = left_in(out, answer.written);
    let numbers = [answer.reference, answer.total, answer.number];
    judge(
        expected,
        &[
            (b"refusal", answer.refusal.into()),
            (b"position", answer.position.into()),
            (b"written", answer.written.into()),
            (b"reading", answer.reading.into()),
            (
                b"numbers",
                Value::Numbers((answer.numbered == 1).then_some(numbers)),
            ),
            (b"out", Value::Units(front)),
        ],
        &[(b"touched", touched)],
        &mut lent.came,
    )
}

// The three calls on a text that is taken several times. None is inlined: the long text is on the stack only while one of them runs.
#[inline(never)]
fn counted(reading: ReadingNumbers, units: &[u16], times: usize) -> Option<PartsAnswer> {
    let mut long = LONG;
    let text = repeated(units, times, &mut long)?;
    Some(long_messages::wikuay_count_parts(reading, text))
}

#[inline(never)]
fn part_written(
    reading: ReadingNumbers,
    reference: u8,
    units: &[u16],
    times: usize,
    number: usize,
    out: &mut [u8],
) -> Option<PartsAnswer> {
    let mut long = LONG;
    let text = repeated(units, times, &mut long)?;
    Some(long_messages::wikuay_write_part(reading, reference, text, number, out))
}

#[inline(never)]
fn parts_written(
    reading: ReadingNumbers,
    reference: u8,
    units: &[u16],
    times: usize,
    out: &mut [u8],
    sizes: &mut [u8],
) -> Option<PartsAnswer> {
    let mut long = LONG;
    let text = repeated(units, times, &mut long)?;
    Some(long_messages::wikuay_write_parts(reading, reference, text, out, sizes))
}

pub(crate) fn count_parts(case: &mut Text, lent: &mut Lent) -> Option<Verdict> {
    let reading = case.reading()?;
    let units = case.units(b"text", &mut lent.units)?;
    let times = case.times()?;
    let expected = case.expected()?;
    let answer = counted(reading, units, times)?;
    judge(
        expected,
        &[
            (b"refusal", answer.refusal.into()),
            (b"position", answer.position.into()),
            (b"parts", answer.parts.into()),
        ],
        &[],
        &mut lent.came,
    )
}

pub(crate) fn write_part(case: &mut Text, lent: &mut Lent) -> Option<Verdict> {
    let reading = case.reading()?;
    let reference = case.octet(b"reference")?;
    let units = case.units(b"text", &mut lent.units)?;
    let times = case.times()?;
    let number = case.number(b"number")?;
    let out = room(&mut lent.out, case.number(b"room")?)?;
    let expected = case.expected()?;
    let answer = part_written(reading, reference, units, times, number as usize, out)?;
    let (front, touched) = left_in(out, answer.written);
    judge(
        expected,
        &[
            (b"refusal", answer.refusal.into()),
            (b"position", answer.position.into()),
            (b"written", answer.written.into()),
            (b"mark", Value::Mark(answer.mark)),
            (b"count", answer.count.into()),
            (b"coding", Value::Octet(answer.coding)),
            (b"parts", answer.parts.into()),
            (b"out", Value::Octets(front)),
        ],
        &[(b"touched", touched)],
        &mut lent.came,
    )
}

pub(crate) fn write_parts(case: &mut Text, lent: &mut Lent) -> Option<Verdict> {
    let reading = case.reading()?;
    let reference = case.octet(b"reference")?;
    let units = case.units(b"text", &mut lent.units)?;
    let times = case.times()?;
    let out = room(&mut lent.out, case.number(b"room")?)?;
    let sizes = room(&mut lent.sizes, case.number(b"list")?)?;
    let expected = case.expected()?;
    let answer = parts_written(reading, reference, units, times, out, sizes)?;
    let (front, touched) = left_in(out, answer.written);
    let (listed, also) = left_in(sizes, 2 * (answer.parts as usize));
    judge_both(
        expected,
        &[
            (b"refusal", answer.refusal.into()),
            (b"position", answer.position.into()),
            (b"written", answer.written.into()),
            (b"mark", Value::Mark(answer.mark)),
            (b"coding", Value::Octet(answer.coding)),
            (b"parts", answer.parts.into()),
            (b"out", Value::Octets(front)),
        ],
        &[(b"sizes", Value::Octets(listed))],
        &[(b"touched", touched), (b"listed", also)],
        &mut lent.came,
    )
}

pub(crate) fn join_parts(case: &mut Text, lent: &mut Lent) -> Option<Verdict> {
    let coding = case.octet(b"coding")?;
    let counts = case.octets(b"counts", &mut lent.counts)?;
    let octets = case.octets(b"octets", &mut lent.octets)?;
    let out = room(&mut lent.text, case.number(b"room")?)?;
    let expected = case.expected()?;
    let answer = long_messages::wikuay_join_parts(coding, counts, octets, out);
    let (front, touched) = left_in(out, answer.written);
    judge(
        expected,
        &[
            (b"refusal", answer.refusal.into()),
            (b"position", answer.position.into()),
            (b"written", answer.written.into()),
            (b"reading", answer.reading.into()),
            (b"reference", Value::Octet(answer.reference)),
            (b"parts", answer.parts.into()),
            (b"out", Value::Units(front)),
        ],
        &[(b"touched", touched)],
        &mut lent.came,
    )
}
