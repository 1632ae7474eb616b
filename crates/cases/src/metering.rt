// The calls of a meter on what a case hands over.
use crate::lent::{Lent, Verdict, judge};
use crate::text::Text;
use crate::value::Value;
use printed::Sheet;
use wikuay::meters::{self, MeterAnswer, MeterNumbers};

fn meter_of(case: &mut Text) -> Option<MeterNumbers> {
    let service = case.service()?;
    let used = case.number(b"used")?;
    Some(MeterNumbers { service, used })
}

fn judge_meter(expected: &[u8], answer: MeterAnswer, came: &mut Sheet) -> Option<Verdict> {
    judge(
        expected,
        &[
            (b"refusal", answer.refusal.into()),
            (b"position", answer.position.into()),
            (b"left", Value::Signed(answer.left)),
            (b"service", Value::Service(answer.meter.service)),
            (b"used", answer.meter.used.into()),
        ],
        &[],
        came,
    )
}

pub(crate) fn new_meter(case: &mut Text, lent: &mut Lent) -> Option<Verdict> {
    let service = case.service()?;
    let expected = case.expected()?;
    judge_meter(expected, meters::wikuay_new_meter(service), &mut lent.came)
}

// A key that types no unit.
pub(crate) fn key<F: FnOnce(MeterNumbers) -> MeterAnswer>(
    case: &mut Text,
    lent: &mut Lent,
    press: F,
) -> Option<Verdict>
    requires { F.IsAlwaysCallable press }
{
    let meter = meter_of(case)?;
    let expected = case.expected()?;
    judge_meter(expected, press(meter), &mut lent.came)
}

// A key that types a unit, or takes one back.
pub(crate) fn unit_key<F: FnOnce(MeterNumbers, u16) -> MeterAnswer>(
    case: &mut Text,
    lent: &mut Lent,
    press: F,
) -> Option<Verdict>
    requires { F.IsAlwaysCallable press }
{
    let meter = meter_of(case)?;
    let unit = case.unit(b"unit")?;
    let expected = case.expected()?;
    judge_meter(expected, press(meter, unit), &mut lent.came)
}
