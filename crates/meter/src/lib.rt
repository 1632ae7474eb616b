// The room left while a text is typed (document 02, W4): one record, which each key changes in place, by a function that takes it and gives it back.
// A key takes the same time whatever was typed before: no text is kept.
#![tactic(auto)]

ghost use Rattle.std.specs.Prelude.{true, ◌≡◌, ◌≤◌};
ghost use Rattle.metered.specs.Metered.{add, back, clear, new_meter, remains, unit_septets, refused_key, keyed};
ghost use Rattle.metered.specs.Inner.{less_or, judged_as};

use metered::{Keyed, Meter};
use words::{Refusal, Service};

// A meter for a service: nothing is typed yet.
pub fn new_meter(service: Service) -> Meter
    ensures answer { result ≡ new_meter service }
{
    Meter { service, used: 0 }
}

// The number to show: how many septets remain, below zero where the text is over.
pub fn left(meter: Meter) -> i64
    ensures answer { result ≡ remains meter }
{
    let size = meter.service.most_septets() as i64;
    let used = meter.used as i64;
    size - used
}

// The unit is typed. Refuses 6, 5.
pub fn added(meter: Meter, unit: u16) -> Keyed
    ensures answer { result ≡ keyed meter (add unit) }
{
    let septets = septets_of(unit);
    let used = meter.used as u64;
    judged(meter, septets, used + septets)
}

// The unit is taken back. Refuses 6, 5.
pub fn taken_back(meter: Meter, unit: u16) -> Keyed
    ensures answer { result ≡ keyed meter (back unit) }
{
    let septets = septets_of(unit);
    let used = meter.used as u64;
    judged(meter, septets, less(used, septets))
}

// The whole text is taken back. Refuses nothing.
pub fn cleared(meter: Meter) -> Keyed
    ensures answer { result ≡ keyed meter clear }
{
    let empty = new_meter(meter.service);
    Keyed {
        meter: empty,
        answer: Ok(()),
    }
}

// `added`, in place.
pub fn add(meter: &mut Meter, unit: u16) -> Result<(), Refusal>
    ensures answer { result ≡ (keyed meter.old (add unit)).answer }
    ensures record { meter.new ≡ (keyed meter.old (add unit)).meter }
{
    let after = added(*meter, unit);
    *meter = after.meter;
    after.answer
}

// `taken_back`, in place.
pub fn take_back(meter: &mut Meter, unit: u16) -> Result<(), Refusal>
    ensures answer { result ≡ (keyed meter.old (back unit)).answer }
    ensures record { meter.new ≡ (keyed meter.old (back unit)).meter }
{
    let after = taken_back(*meter, unit);
    *meter = after.meter;
    after.answer
}

// `cleared`, in place.
pub fn clear(meter: &mut Meter) -> Result<(), Refusal>
    ensures answer { result ≡ (keyed meter.old clear).answer }
    ensures record { meter.new ≡ (keyed meter.old clear).meter }
{
    let after = cleared(*meter);
    *meter = after.meter;
    after.answer
}

// How many septets a unit takes: none where it is unlisted. A number and no Option, as unit_septets says it, of which the meter's theorems speak.
fn septets_of(unit: u16) -> u64
    ensures { (result ≡ unit_septets unit) × (result ≤ 2) }
{
    if is_small(unit) {
        return 1;
    }
    counted(unit)
}

// Whether a unit is a small letter, as most keys are: each is its own code.
fn is_small(unit: u16) -> bool
    ensures { result ≡ true → unit_septets unit ≡ 1 }
{
    matches!(unit, 0x61..=0x7a)
}

// The same of any unit, which is encoded as a text of its own: a second caller of the tables would cost every message that is written.
fn counted(unit: u16) -> u64
    ensures { (result ≡ unit_septets unit) × (result ≤ 2) }
{
    let text = [unit];
    let mut scrap = [0u8; 1];
    let told = to_septets::encode(&text, &mut scrap);
    told.septets as u64
}

// The septets used less those of a unit; where that is below zero, one more than a sum may be: so one test of the sum refuses both ways, 5.
fn less(used: u64, septets: u64) -> u64
    ensures { result ≡ less_or used septets }
{
    if used < septets {
        return 65_536;
    }
    used - septets
}

// A key of a unit that takes so many septets, where it leaves the sum.
fn judged(meter: Meter, septets: u64, sum: u64) -> Keyed
    ensures { result ≡ judged_as meter septets sum }
{
    // What the key leaves where it goes.
    let next = Meter {
        service: meter.service,
        used: (sum % 4_294_967_296) as u32,
    };
    if septets < 1 {
        return refused(meter, Refusal::Unlisted { unit: 0 });
    }
    if 65_535 < sum {
        return refused(meter, Refusal::TooLong);
    }
    Keyed {
        meter: next,
        answer: Ok(()),
    }
}

// A refused key: the record is as it was.
fn refused(meter: Meter, refusal: Refusal) -> Keyed
    ensures { result ≡ refused_key meter refusal }
{
    Keyed {
        meter: meter,
        answer: Err(refusal),
    }
}
