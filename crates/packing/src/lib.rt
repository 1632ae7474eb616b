// Septets into octets and back, under each service.
#![tactic(auto)]

ghost use Rattle.std.specs.Prelude.{◌≡◌, length};
ghost use Rattle.words.specs.declared.Service.TheVariants.{ShortMessage};
ghost use Rattle.stream.specs.SeptetCalls.{pack_answers, pack_leaves, unpack_answers, unpack_leaves};
ghost use Rattle.stream.specs.ArrayCalls.{array_answers, array_leaves, page_answers, page_leaves, all_answers, all_leaves};
ghost use Rattle.stream.specs.Inner.{counted_as};

use stream::Packed;
use words::{Refusal, Service};

mod pieces;
mod septets;

// Packs septets for a service: how many octets that takes, and the length count.
// Refuses an old page (8), a septet of 128 or more (9, the first), a text over the service's size (5), a short buffer (7).
// Stores the octets at the front of out; a refusal stores nothing.
pub fn pack(service: Service, septets: &[u8], out: &mut [u8]) -> Result<Packed, Refusal>
    ensures answer { result ≡ pack_answers service septets.now (length out.old) }
    ensures buffer { out.new ≡ pack_leaves service septets.now out.old }
{
    if service.is_old_page() {
        return Err(Refusal::Unwritable);
    }
    let n = septets.len();
    let high = wide::first_wide(septets);
    if high < n {
        return Err(Refusal::NoSeptet { septet: high });
    }
    if service.most_septets() < n {
        return Err(Refusal::TooLong);
    }
    let count = closing::length_count(service, n);
    if septets::is_page(service) {
        let page = closing::page_of(septets);
        return counted(septets::send_page(page, out), count);
    }
    let cr = closing::adds_cr(service, septets);
    counted(septets::send(septets, cr, out), count)
}

// Packs the low seven bits of the first n septets of an array, as pack does: a text's own septets are below 128, and to judge them again
// would cost 3 in 100. An array and a length, no slice: the last group is loaded whole, past the text, which a slice would take in up to three loads,
// a dozen instructions more.
// Refuses an old page (8), n over the service's size (5), a short buffer (7).
// Stores the octets at the front of out; a refusal stores nothing.
pub fn pack_text(
    service: Service,
    septets: &[u8; 184],
    n: usize,
    out: &mut [u8],
) -> Result<Packed, Refusal>
    ensures answer { result ≡ array_answers service septets.now n (length out.old) }
    ensures buffer { out.new ≡ array_leaves service septets.now n out.old }
{
    if service.is_old_page() {
        return Err(Refusal::Unwritable);
    }
    if service.most_septets() < n {
        return Err(Refusal::TooLong);
    }
    let count = closing::length_count(service, n);
    let text = septets::front(septets, n);
    let cr = closing::adds_cr(service, text);
    if septets::is_page(service) {
        let page = closing::page_of(text);
        return counted(septets::send_page(page, out), count);
    }
    counted(septets::send_front(septets, n, cr, out), count)
}

// Packs the low seven bits of septets for a short message, all of them, as pack_text does of the first of an array.
// Refuses more than 160 septets (5), a short buffer (7).
// Stores the octets at the front of out; a refusal stores nothing.
pub fn pack_short(septets: &[u8], out: &mut [u8]) -> Result<Packed, Refusal>
    ensures answer { result ≡ array_answers ShortMessage septets.now (length septets.now) (length out.old) }
    ensures buffer { out.new ≡ array_leaves ShortMessage septets.now (length septets.now) out.old }
{
    let n = septets.len();
    if 160 < n {
        return Err(Refusal::TooLong);
    }
    counted(septets::send(septets, false, out), n)
}

// Packs the 93 septets of a page: how many octets that takes.
// Refuses a septet of 128 or more (9, the first), a short buffer (7).
// Stores the octets at the front of out; a refusal stores nothing.
pub fn pack_page(page: [u8; 93], out: &mut [u8]) -> Result<usize, Refusal>
    ensures answer { result ≡ page_answers page (length out.old) }
    ensures buffer { out.new ≡ page_leaves page out.old }
{
    let high = wide::first_wide(&page);
    if high < 93 {
        return Err(Refusal::NoSeptet { septet: high });
    }
    septets::send_page(page, out)
}

// The answer of a packing, with its length count.
fn counted(stored: Result<usize, Refusal>, count: usize) -> Result<Packed, Refusal>
    ensures { result ≡ counted_as stored count }
{
    Ok(Packed {
        octets: stored?,
        count,
    })
}

// Unpacks the septets that octets hold under a service, filling dropped: how many there are.
// Refuses octets that do not fit the service or the count (4), then a short buffer (7). Spare bits are ignored.
// Stores the septets at the front of out; a refusal stores nothing.
pub fn unpack(
    service: Service,
    octets: &[u8],
    count: usize,
    out: &mut [u8],
) -> Result<usize, Refusal>
    ensures answer { result ≡ unpack_answers service octets.now count (length out.old) }
    ensures buffer { out.new ≡ unpack_leaves service octets.now count out.old }
{
    let mut septets = [0u8; 184];
    let all = septets::unpack_whole(service, octets, count, &mut septets)?;
    let n = closing::text_length(service, &septets[..all]);
    septets::store(&septets[..n], out)
}

// Unpacks all septets that octets hold under a service, the closing ones that unpack drops too: how many there are.
// Refuses octets that do not fit the service or the count (4), then a short buffer (7). Spare bits are ignored.
// Stores the septets at the front of out; a refusal stores nothing.
pub fn unpack_all(
    service: Service,
    octets: &[u8],
    count: usize,
    out: &mut [u8],
) -> Result<usize, Refusal>
    ensures answer { result ≡ all_answers service octets.now count (length out.old) }
    ensures buffer { out.new ≡ all_leaves service octets.now count out.old }
{
    septets::unpack_whole(service, octets, count, out)
}
