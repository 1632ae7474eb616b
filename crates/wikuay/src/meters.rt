// The calls for the room left while a text is typed (document 02, W4). No rule lives here.
// A record whose number names no service is refused 8 before all else, and comes back as it is.
ghost use Rattle.std.specs.Prelude.{◌≡◌};
ghost use Rattle.wikuay.specs.MeterCalls.{named_meter, shown_for, unnamed_meter, new_meter_gives, room_left_gives, unit_added_gives, unit_taken_back_gives, meter_cleared_gives};

use metered::{Keyed, Meter};
use words::Refusal;

// The record of a meter.
#[repr(C)]
#[derive(Clone, Copy)]
pub struct MeterNumbers {
    pub service: u32,
    pub used: u32,
}

// What a call of a meter answers.
#[repr(C)]
#[derive(Clone, Copy)]
pub struct MeterAnswer {
    pub refusal: u32,
    pub position: usize,
    pub left: i64,
    pub meter: MeterNumbers,
}

// A meter for a service, with nothing typed. Refuses 8.
pub fn wikuay_new_meter(service: u32) -> MeterAnswer
    ensures answer { result ≡ new_meter_gives service }
{
    wikuay_room_left(MeterNumbers { service, used: 0 })
}

// The number that a record shows. Refuses 8.
pub fn wikuay_room_left(meter: MeterNumbers) -> MeterAnswer
    ensures answer { result ≡ room_left_gives meter }
{
    let Some(known) = named(meter) else {
        return unnamed(meter);
    };
    let kept = Keyed {
        meter: known,
        answer: Ok(()),
    };
    shown(meter.service, kept)
}

// A unit is typed. Refuses 8, 6, 5, and then leaves the record as it was.
pub fn wikuay_unit_added(meter: MeterNumbers, unit: u16) -> MeterAnswer
    ensures answer { result ≡ unit_added_gives meter unit }
{
    let Some(known) = named(meter) else {
        return unnamed(meter);
    };
    shown(meter.service, meter::added(known, unit))
}

// A unit is taken back. Refuses 8, 6, 5, and then leaves the record as it was.
pub fn wikuay_unit_taken_back(meter: MeterNumbers, unit: u16) -> MeterAnswer
    ensures answer { result ≡ unit_taken_back_gives meter unit }
{
    let Some(known) = named(meter) else {
        return unnamed(meter);
    };
    shown(meter.service, meter::taken_back(known, unit))
}

// The whole text is taken back. Refuses 8.
pub fn wikuay_meter_cleared(meter: MeterNumbers) -> MeterAnswer
    ensures answer { result ≡ meter_cleared_gives meter }
{
    let Some(known) = named(meter) else {
        return unnamed(meter);
    };
    shown(meter.service, meter::cleared(known))
}

// The record that the numbers name, if their service is one.
fn named(meter: MeterNumbers) -> Option<Meter>
    ensures { result ≡ named_meter meter }
{
    Some(Meter {
        service: words::named_service(meter.service)?,
        used: meter.used,
    })
}

// The answer of a key in numbers, where the service has this one.
fn shown(service: u32, key: Keyed) -> MeterAnswer
    ensures { result ≡ shown_for service key }
{
    let answer = match key.answer {
        Ok(()) => answers::done(0, 0, 0),
        Err(refusal) => answers::refused(refusal),
    };
    MeterAnswer {
        refusal: answer.refusal,
        position: answer.position,
        left: meter::left(key.meter),
        meter: MeterNumbers {
            service,
            used: key.meter.used,
        },
    }
}

// The refusal of a record with no service.
fn unnamed(meter: MeterNumbers) -> MeterAnswer
    ensures { result ≡ unnamed_meter meter }
{
    let plain = answers::refused(Refusal::Unwritable);
    MeterAnswer {
        refusal: plain.refusal,
        position: plain.position,
        left: 0,
        meter,
    }
}
