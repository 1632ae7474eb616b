// What a service adds to the septets of a text and drops from them, and what fits it: the page, and what numbers and the last septets decide.
#![tactic(auto)]

ghost use Rattle.std.specs.Prelude.{◌≡◌, length, take};
ghost use Rattle.lists.specs.Closing.{without_closing};
ghost use Rattle.stream.specs.Pages.{page};
ghost use Rattle.stream.specs.SeptetCalls.{septets_fit, travels};
ghost use Rattle.stream.specs.UssdPacking.{adds_cr};
ghost use Rattle.stream.specs.Digits.{low_of};
ghost use Rattle.stream.specs.ArrayCalls.{adds_under, kept_count};

use groups::octets_for;
use words::Service;

// The page of a text: 93 septets, all CR, and the text over the front. What is over 93 is left out.
pub fn page_of(septets: &[u8]) -> [u8; 93]
    ensures answer { result ≡ page (take 93 septets.now) }
{
    let n = septets.len().min(93);
    let mut page = [13u8; 93];
    page[..n].copy_from_slice(&septets[..n]);
    page
}

// Whether the service adds a CR to the low seven bits of septets: USSD does where seven are left over whole groups of eight, or none are and a
// CR is the last.
pub fn adds_cr(service: Service, septets: &[u8]) -> bool
    ensures answer { result ≡ adds_under service (low_of 7 septets.now) }
{
    match service {
        Service::ShortMessage => false,
        Service::Broadcast => false,
        Service::Ussd => ussd_adds(septets),
        Service::OldPage => false,
    }
}

fn ussd_adds(septets: &[u8]) -> bool
    ensures { result ≡ adds_cr (low_of 7 septets.now) }
{
    let over = septets.len() % 8;
    match septets.last() {
        Some(last) => over == 7 || over == 0 && last & 0x7f == 13,
        None => false,
    }
}

// The length count that travels with so many septets, or octets of UCS2.
pub fn length_count(service: Service, n: usize) -> usize
    ensures answer { result ≡ travels service n }
{
    match service {
        Service::ShortMessage => n,
        Service::Broadcast => 0,
        Service::Ussd => 0,
        Service::OldPage => 0,
    }
}

// Whether so many octets fit the service and the count.
pub fn fits(service: Service, octets: usize, count: usize) -> bool
    ensures answer { result ≡ septets_fit service octets count }
{
    let most = service.most_octets();
    match service {
        Service::ShortMessage => count <= service.most_septets() && octets == octets_for(count),
        Service::Broadcast => octets == most && count == 0,
        Service::Ussd => octets <= most && count == 0,
        Service::OldPage => octets == most && count == 0,
    }
}

// How many of all septets that octets hold are left of a text: without the filling of a page, or the CR that closes whole groups of eight
// under USSD.
pub fn text_length(service: Service, septets: &[u8]) -> usize
    ensures answer { result ≡ kept_count service septets.now }
{
    match service {
        Service::ShortMessage => septets.len(),
        Service::Broadcast => kept(septets, 13),
        Service::Ussd => match septets.split_last() {
            Some((last, text)) if septets.len() % 8 == 0 && *last == 13 => text.len(),
            _ => septets.len(),
        },
        Service::OldPage => kept(septets, 0),
    }
}

// How many septets are left without the filling that closes them. to_units has the same of units and 000D: over any element its clause would not speak
// of numbers. Never inlined: it would stand twice in each call that reads.
#[inline(never)]
fn kept(septets: &[u8], filling: u8) -> usize
    ensures { result ≡ length (without_closing filling septets.now) }
{
    // The last sixteen one by one: rposition looks at sixteen at once, and of septets that were stored a moment ago, in eights, that load has to wait.
    let front = septets.len().saturating_sub(16);
    for n in (front..septets.len()).rev() {
        if septets[n] != filling {
            return n + 1;
        }
    }
    match septets[..front]
        .iter()
        .rposition(|septet| *septet != filling)
    {
        Some(last) => last + 1,
        None => 0,
    }
}
