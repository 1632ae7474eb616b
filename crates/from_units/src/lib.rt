// UCS2 units into octets under each service: high octet first, and the page of 41 units.
#![tactic(auto)]

ghost use Rattle.std.specs.Prelude.{◌≡◌, ◌≤◌, length, take};
ghost use Rattle.words.specs.declared.Service.TheVariants.{ShortMessage};
ghost use Rattle.stream.specs.Ucs2.{unit_octets, unit_page};
ghost use Rattle.stream.specs.UnitCalls.{to_octets_answers, to_octets_leaves};
ghost use Rattle.stream.specs.Storing.{given_answers, given_leaves};

use words::{Refusal, Service};

// UCS2 units as octets, high octet first: how many octets. A broadcast page is filled up with 000D.
// Refuses an old page (8), a text over the service's size (5), a short buffer (7).
// Stores the octets at the front of out; a refusal stores nothing.
pub fn units_to_octets(service: Service, units: &[u16], out: &mut [u8]) -> Result<usize, Refusal>
    ensures answer { result ≡ to_octets_answers service units.now (length out.old) }
    ensures buffer { out.new ≡ to_octets_leaves service units.now out.old }
{
    if service.is_old_page() {
        return Err(Refusal::Unwritable);
    }
    if service.most_units() < units.len() {
        return Err(Refusal::TooLong);
    }
    match service {
        Service::ShortMessage => put_units(units, out),
        Service::Broadcast => put_page(units, out),
        Service::Ussd => put_units(units, out),
        Service::OldPage => Err(Refusal::Unwritable),
    }
}

// Stores the octets of units.
fn put_units(units: &[u16], out: &mut [u8]) -> Result<usize, Refusal>
    requires { length units.now ≤ 80 }
    ensures answer { result ≡ given_answers (unit_octets units.now) (length out.old) }
    ensures buffer { out.new ≡ given_leaves (unit_octets units.now) out.old }
{
    let n = units.len();
    if out.len() < 2 * n {
        return Err(Refusal::NoRoom);
    }
    for (i, &unit) in units.iter().enumerate() {
        let [high, low] = unit.to_be_bytes();
        out[2 * i] = high;
        out[2 * i + 1] = low;
    }
    Ok(2 * n)
}

// The same for a short message: a part of a long one is laid by it, so that the whole-message call keeps its one caller, in whose place the compiler puts it.
// Refuses a text over the size (5), a short buffer (7). Stores the octets at the front of out; a refusal stores nothing.
pub fn short_octets(units: &[u16], out: &mut [u8]) -> Result<usize, Refusal>
    ensures answer { result ≡ to_octets_answers ShortMessage units.now (length out.old) }
    ensures buffer { out.new ≡ to_octets_leaves ShortMessage units.now out.old }
{
    if 70 < units.len() {
        return Err(Refusal::TooLong);
    }
    put_units(units, out)
}

// The page of a text: 41 units 000D, and the text over the front.
fn lay(units: &[u16]) -> [u16; 41]
    requires { length units.now ≤ 41 }
    ensures { result ≡ unit_page units.now }
{
    let mut page = [13u16; 41];
    page[..units.len()].copy_from_slice(units);
    page
}

// Stores the octets of the page of a text.
fn put_page(units: &[u16], out: &mut [u8]) -> Result<usize, Refusal>
    requires { length units.now ≤ 41 }
    ensures answer { result ≡ given_answers (unit_octets (unit_page units.now)) (length out.old) }
    ensures buffer { out.new ≡ given_leaves (unit_octets (unit_page units.now)) out.old }
{
    let page = lay(units);
    put_units(&page, out)
}

// The octets of the page of a text, by value. What is over 41 units is left out. It refuses nothing.
pub fn page_octets(units: &[u16]) -> [u8; 82]
    ensures answer { result ≡ unit_octets (unit_page (take 41 units.now)) }
{
    let page = lay(&units[..units.len().min(41)]);
    let mut octets = [0u8; 82];
    let _ = put_units(&page, &mut octets);
    octets
}
