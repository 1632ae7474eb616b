// Octets into UCS2 units under each service: high octet first, and the page of 41 units without its closing CRs. Units left without those, and stored.
#![tactic(auto)]

ghost use Rattle.std.specs.Prelude.{◌≡◌, ◌+◌, ◌*◌, ◌≤◌, ◌<◌, ◌++◌, length, take, drop, get_or, eqb};
ghost use Rattle.lists.specs.Lists.{laid};
ghost use Rattle.lists.specs.Closing.{without_closing};
ghost use Rattle.stream.specs.Ucs2.{octet_units};
ghost use Rattle.stream.specs.UnitCalls.{units_fit, to_units_answers, to_units_leaves};
ghost use Rattle.stream.specs.Storing.{given_answers, given_leaves};
ghost use Rattle.to_units.specs.Laying.{laid_count, laid_units, kept_units};

use words::{Refusal, Service};

// The UCS2 units that octets hold under a service: how many there are. A broadcast page drops its closing 000D.
// Refuses octets that do not fit the service or the count, and any for an old page (4), then a short buffer (7).
// Stores the units at the front of out; a refusal stores nothing.
pub fn octets_to_units(
    service: Service,
    octets: &[u8],
    count: usize,
    out: &mut [u16],
) -> Result<usize, Refusal>
    ensures answer { result ≡ to_units_answers service octets.now count (length out.old) }
    ensures buffer { out.new ≡ to_units_leaves service octets.now count out.old }
{
    if !fits(service, octets.len(), count) {
        return Err(Refusal::WrongLength);
    }
    match service {
        Service::ShortMessage => get_units(octets, octets.len() / 2, out),
        Service::Broadcast => get_units(octets, page_kept(octets), out),
        Service::Ussd => get_units(octets, octets.len() / 2, out),
        Service::OldPage => Err(Refusal::WrongLength),
    }
}

// Lays all units that octets hold over the front of out, closing ones too, as far as there is room: how many. It refuses nothing.
pub fn lay_units(octets: &[u8], out: &mut [u16]) -> usize
    ensures answer { result ≡ laid_count octets.now (length out.old) }
    ensures buffer { out.new ≡ laid_units octets.now out.old }
{
    let n = out.len().min(octets.len() / 2);
    get_few(octets, n, out);
    n
}

// How many units are left without the 000D that close them. It refuses nothing.
pub fn kept(units: &[u16]) -> usize
    ensures answer { result ≡ kept_units units.now }
{
    match units.iter().rposition(|unit| *unit != 13) {
        Some(last) => last + 1,
        None => 0,
    }
}

// Stores units: how many there are. packing has the same of octets: the clauses of one over any type would speak of opaque elements, and these of numbers.
// Refuses a short buffer (7). Stores the units at the front of out; a refusal stores nothing.
pub fn store(units: &[u16], out: &mut [u16]) -> Result<usize, Refusal>
    ensures answer { result ≡ given_answers units.now (length out.old) }
    ensures buffer { out.new ≡ given_leaves units.now out.old }
{
    let n = units.len();
    if out.len() < n {
        return Err(Refusal::NoRoom);
    }
    out[..n].copy_from_slice(units);
    Ok(n)
}

// Whether so many octets fit the service and the count. An odd number fits none: a page has 82.
fn fits(service: Service, octets: usize, count: usize) -> bool
    ensures { result ≡ units_fit service octets count }
{
    if octets % 2 == 1 {
        return false;
    }
    let most = service.most_octets();
    match service {
        Service::ShortMessage => octets <= most && count == octets,
        Service::Broadcast => octets == most && count == 0,
        Service::Ussd => octets <= most && count == 0,
        Service::OldPage => false,
    }
}

// How many units of a page are left without the 000D that close it.
fn page_kept(octets: &[u8]) -> usize
    requires { length octets.now ≡ 82 }
    ensures { result ≡ length (without_closing 13 (octet_units octets.now)) }
{
    for n in (0..41).rev() {
        if !is_cr(octets, n) {
            return n + 1;
        }
    }
    0
}

// Whether the unit at a place is a CR, octet by octet: two as one number take the compiler an instruction that stalls, half as long again for an empty page.
fn is_cr(octets: &[u8], i: usize) -> bool
    requires { 2 * i + 1 < length octets.now }
    ensures { result ≡ eqb (get_or (octet_units octets.now) i 0) 13 }
{
    octets[2 * i] == 0 && octets[2 * i + 1] == 13
}

// The unit at a place, high octet first.
fn unit_at(octets: &[u8], i: usize) -> u16
    requires { 2 * i + 1 < length octets.now }
    ensures { result ≡ get_or (octet_units octets.now) i 0 }
{
    u16::from_be_bytes([octets[2 * i], octets[2 * i + 1]])
}

// From here to eight_units each call requires a little less than the one above it, of octets and n as lent: a slice cut for it would ask the same where it is cut.
// Stores the first n units that octets hold.
fn get_units(octets: &[u8], n: usize, out: &mut [u16]) -> Result<usize, Refusal>
    requires { 2 * n ≤ length octets.now }
    ensures answer { result ≡ given_answers (take n (octet_units octets.now)) (length out.old) }
    ensures buffer { out.new ≡ given_leaves (take n (octet_units octets.now)) out.old }
{
    if out.len() < n {
        return Err(Refusal::NoRoom);
    }
    if n < 8 {
        get_few(octets, n, out);
    } else {
        get_many(octets, n, out);
    }
    Ok(n)
}

// Lays the first n units over the front of out, one after the other.
fn get_few(octets: &[u8], n: usize, out: &mut [u16])
    requires { (2 * n ≤ length octets.now) × (n ≤ length out.old) }
    ensures { out.new ≡ laid (take n (octet_units octets.now)) out.old }
{
    for i in 0..n {
        out[i] = unit_at(octets, i);
    }
}

// The same eight at a time, the last eight over again where they overlap.
fn get_many(octets: &[u8], n: usize, out: &mut [u16])
    requires { (2 * n ≤ length octets.now) × (n ≤ length out.old) × (8 ≤ n) }
    ensures { out.new ≡ laid (take n (octet_units octets.now)) out.old }
{
    for group in 0..n / 8 {
        get_eight(octets, 8 * group, out);
    }
    if n % 8 != 0 {
        get_eight(octets, n - 8, out);
    }
}

// Eight units from at on, at the same place of out: all are loaded before the first is stored, so that the compiler turns them together.
fn get_eight(octets: &[u8], at: usize, out: &mut [u16])
    requires { (2 * (at + 8) ≤ length octets.now) × (at + 8 ≤ length out.old) }
    ensures { out.new ≡ take at out.old ++ take 8 (drop at (octet_units octets.now)) ++ drop (at + 8) out.old }
{
    let eight = eight_units(octets, at);
    out[at..at + 8].copy_from_slice(&eight);
}

// Eight units from at on.
fn eight_units(octets: &[u8], at: usize) -> [u16; 8]
    requires { 2 * (at + 8) ≤ length octets.now }
    ensures { result ≡ take 8 (drop at (octet_units octets.now)) }
{
    let mut eight = [0u16; 8];
    for k in 0..8 {
        eight[k] = unit_at(octets, at + k);
    }
    eight
}
