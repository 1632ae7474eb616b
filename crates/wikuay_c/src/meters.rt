// The calls that C links for the room left while a text is typed.
ghost use Rattle.std.specs.Prelude.{◌≡◌};
ghost use Rattle.wikuay.specs.MeterCalls.{new_meter_gives, room_left_gives, unit_added_gives, unit_taken_back_gives, meter_cleared_gives};

use wikuay::meters::{MeterAnswer, MeterNumbers};

// A meter for a service, with nothing typed. Refuses 8.
#[unsafe(no_mangle)]
pub extern "C" fn wikuay_new_meter(service: u32) -> MeterAnswer
    ensures answer { result ≡ new_meter_gives service }
{
    wikuay::meters::wikuay_new_meter(service)
}

// The number that a record shows. Refuses 8.
#[unsafe(no_mangle)]
pub extern "C" fn wikuay_room_left(meter: MeterNumbers) -> MeterAnswer
    ensures answer { result ≡ room_left_gives meter }
{
    wikuay::meters::wikuay_room_left(meter)
}

// A unit is typed. Refuses 8, 6, 5, and then leaves the record as it was.
#[unsafe(no_mangle)]
pub extern "C" fn wikuay_unit_added(meter: MeterNumbers, unit: u16) -> MeterAnswer
    ensures answer { result ≡ unit_added_gives meter unit }
{
    wikuay::meters::wikuay_unit_added(meter, unit)
}

// A unit is taken back. Refuses 8, 6, 5, and then leaves the record as it was.
#[unsafe(no_mangle)]
pub extern "C" fn wikuay_unit_taken_back(meter: MeterNumbers, unit: u16) -> MeterAnswer
    ensures answer { result ≡ unit_taken_back_gives meter unit }
{
    wikuay::meters::wikuay_unit_taken_back(meter, unit)
}

// The whole text is taken back. Refuses 8.
#[unsafe(no_mangle)]
pub extern "C" fn wikuay_meter_cleared(meter: MeterNumbers) -> MeterAnswer
    ensures answer { result ≡ meter_cleared_gives meter }
{
    wikuay::meters::wikuay_meter_cleared(meter)
}
