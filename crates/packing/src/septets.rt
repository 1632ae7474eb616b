// Texts and pages packed into the lent buffer, and all septets taken out of octets.
ghost use Rattle.std.specs.Prelude.{◌≡◌, ℕ, ◌≤◌, List, true, length, take};
ghost use Rattle.lists.specs.Lists.{laid};
ghost use Rattle.stream.specs.Stream.{octets_for, packed, unpacked};
ghost use Rattle.stream.specs.UssdPacking.{with_cr};
ghost use Rattle.stream.specs.SeptetCalls.{septets_fit};
ghost use Rattle.stream.specs.Digits.{low_of};
ghost use Rattle.stream.specs.ArrayCalls.{all_answers, all_leaves, held_count};
ghost use Rattle.stream.specs.Inner.{is_page};
ghost use Rattle.stream.specs.Storing.{given_answers, given_leaves};

use crate::pieces::{Pack, Unpack, low_eight, put_end, recut, take_end};
use closing::fits;
use groups::{left_over, octets_for, squeeze, stretch};
use words::{Refusal, Service};

// Whether a text is laid over a page.
pub(crate) fn is_page(service: Service) -> bool
    ensures { result ≡ is_page service }
{
    match service {
        Service::ShortMessage => false,
        Service::Broadcast => true,
        Service::Ussd => false,
        Service::OldPage => false,
    }
}

// The first n septets.
pub(crate) fn front(septets: &[u8], n: usize) -> &[u8]
    requires { n ≤ length septets.now }
    ensures { result.now ≡ take n septets.now }
{
    &septets[..n]
}

// Packs a page.
pub(crate) fn send_page(page: [u8; 93], out: &mut [u8]) -> Result<usize, Refusal>
    ensures answer { result ≡ given_answers (packed (low_of 7 page)) (length out.old) }
    ensures buffer { out.new ≡ given_leaves (packed (low_of 7 page)) out.old }
{
    send(&page, false, out)
}

// How many septets n septets are with a CR where cr says so.
fn with_cr(n: usize, cr: bool) -> usize
    requires { n ≤ 183 }
    ensures { (l : List ℕ) → length l ≡ n → result ≡ length (with_cr cr l) }
{
    if cr { n + 1 } else { n }
}

// Packs the low seven bits of septets, with a CR after them where cr says so.
pub(crate) fn send(septets: &[u8], cr: bool, out: &mut [u8]) -> Result<usize, Refusal>
    requires { length septets.now ≤ 183 }
    ensures answer { result ≡ given_answers (packed (with_cr cr (low_of 7 septets.now))) (length out.old) }
    ensures buffer { out.new ≡ given_leaves (packed (with_cr cr (low_of 7 septets.now))) out.old }
{
    let n = septets.len();
    let octets = octets_for(with_cr(n, cr));
    if out.len() < octets {
        return Err(Refusal::NoRoom);
    }
    let groups = n / 8;
    recut::<Pack>(septets, groups, out);
    let done = 7 * groups;
    if done < octets {
        let v = squeeze(take_end(septets, 8 * groups, n % 8));
        let w = left_over(v, n, cr);
        put_end(w, out, done, octets - done);
    }
    Ok(octets)
}

// The same of the first n septets of an array. The last group is loaded whole, and what stands behind the text is masked off.
pub(crate) fn send_front(
    septets: &[u8],
    n: usize,
    cr: bool,
    out: &mut [u8],
) -> Result<usize, Refusal>
    requires { (n ≤ 182) × (length septets.now ≡ 184) }
    ensures answer { result ≡ given_answers (packed (with_cr cr (take n (low_of 7 septets.now)))) (length out.old) }
    ensures buffer { out.new ≡ given_leaves (packed (with_cr cr (take n (low_of 7 septets.now)))) out.old }
{
    let octets = octets_for(with_cr(n, cr));
    if out.len() < octets {
        return Err(Refusal::NoRoom);
    }
    let groups = n / 8;
    recut::<Pack>(septets, groups, out);
    let done = 7 * groups;
    if done < octets {
        let v = low_eight(septets, 8 * groups);
        let w = left_over(v, n, cr);
        put_end(w, out, done, octets - done);
    }
    Ok(octets)
}

// How many septets so many octets hold, the closing ones too.
fn septets_held(service: Service, octets: usize, count: usize) -> usize
    requires { septets_fit service octets count ≡ true }
    ensures { result ≡ held_count service octets count }
{
    match service {
        Service::ShortMessage => count,
        Service::Broadcast => 93,
        Service::Ussd => octets + octets / 7,
        Service::OldPage => 93,
    }
}

// The first n septets that octets hold, over the front of out.
fn unpack_into(octets: &[u8], n: usize, out: &mut [u8])
    requires { (length octets.now ≡ octets_for n) × (n ≤ length out.old) }
    ensures { out.new ≡ laid (unpacked n octets.now) out.old }
{
    let groups = n / 8;
    recut::<Unpack>(octets, groups, out);
    let rest = n % 8;
    if 0 < rest {
        let v = take_end(octets, 7 * groups, rest);
        put_end(stretch(v), out, 8 * groups, rest);
    }
}

// Unpacks all septets that octets hold under a service: how many there are.
pub(crate) fn unpack_whole(
    service: Service,
    octets: &[u8],
    count: usize,
    out: &mut [u8],
) -> Result<usize, Refusal>
    ensures answer { result ≡ all_answers service octets.now count (length out.old) }
    ensures buffer { out.new ≡ all_leaves service octets.now count out.old }
{
    if !fits(service, octets.len(), count) {
        return Err(Refusal::WrongLength);
    }
    let all = septets_held(service, octets.len(), count);
    if out.len() < all {
        return Err(Refusal::NoRoom);
    }
    unpack_into(octets, all, out);
    Ok(all)
}

// Stores septets.
pub(crate) fn store(septets: &[u8], out: &mut [u8]) -> Result<usize, Refusal>
    ensures answer { result ≡ given_answers septets.now (length out.old) }
    ensures buffer { out.new ≡ given_leaves septets.now out.old }
{
    let n = septets.len();
    if out.len() < n {
        return Err(Refusal::NoRoom);
    }
    out[..n].copy_from_slice(septets);
    Ok(n)
}
