// Text into the blocks of a message of several pages: how many it takes, one of them by value, and all end to end.
#![tactic(auto)]

ghost use Rattle.std.specs.Prelude.{◌≡◌, cond, ℕ, ◌+◌, ◌*◌, ◌≤◌, ◌<◌, length, MatchResult, Ok, Err};
ghost use Rattle.lists.specs.Lists.{laid};
ghost use Rattle.filling.specs.Filling.{part_at};
ghost use Rattle.pages.specs.Parts.{page_room, page_text};
ghost use Rattle.pages.specs.Written.{page_block, blocks_from, count_answers, build_answers, pages_answers, pages_leaves};
ghost use Rattle.pages.proofs.Steps.{Gathered};
ghost use Rattle.pages.specs.Inner.{sized_as, paged_as, text_builds, text_pages, text_pages_leaves};
ghost use Rattle.paging.specs.Inner.{in_units, held_in, IsLow};

use coding::Reading;
use pages::{Header, Page, PagesWritten};
use words::{Refusal, Service};
use writer::TextCoding;

// How many pages a text takes under a reading.
// Refuses a reading that cannot be written on a broadcast page (8), compressed text (1), a coding that holds no text (2), a prefix or
// header mark (3), a unit that is not in the alphabet (6, the first), more than 15 pages (5).
pub fn count_pages(reading: Reading, units: &[u16]) -> Result<usize, Refusal>
    ensures answer { result ≡ count_answers reading units.now }
{
    let coding = writer::settle(Service::Broadcast, reading)?;
    text_pages(coding.ucs2(), units)
}

// The same of a text by itself: 6, 5.
fn text_pages(ucs2: bool, units: &[u16]) -> Result<usize, Refusal>
    ensures { result ≡ sized_as ucs2 units.now }
{
    if ucs2 {
        return paged(41, units.len());
    }
    // A match, as in cutting: map_err would take a closure for one field.
    match to_septets::survey(units).measured {
        Ok(n) => paged(93, n),
        Err(unit) => Err(Refusal::Unlisted { unit }),
    }
}

// How many pages with this room n septets or units take: 5.
fn paged(room: usize, n: usize) -> Result<usize, Refusal>
    requires { (0 < room) × (room ≤ 93) }
    ensures { result ≡ paged_as room n }
{
    let total = n.div_ceil(room).max(1);
    if 15 < total {
        return Err(Refusal::TooLong);
    }
    Ok(total)
}

// Builds page `number`, from 1, of a text under a reading: the block, and how many pages the message has.
// Refuses as count_pages (8, 1, 2, 3, 6, 5), then a page that the message lacks (10).
pub fn build_page(
    sequence: u16,
    identifier: u16,
    reading: Reading,
    units: &[u16],
    number: usize,
) -> Result<Page, Refusal>
    ensures answer { result ≡ build_answers sequence identifier reading units.now number }
{
    let coding = writer::settle(Service::Broadcast, reading)?;
    build_text(sequence, identifier, coding, units, number)
}

// Builds a page where the coding is settled: 6, 5, 10.
fn build_text(
    sequence: u16,
    identifier: u16,
    coding: TextCoding,
    units: &[u16],
    number: usize,
) -> Result<Page, Refusal>
    ensures { result ≡ text_builds sequence identifier coding.octet coding.ucs2 units.now number }
{
    let ucs2 = coding.ucs2();
    let mut septets = [0u8; 1395];
    let sized = gather_pages(ucs2, units, &mut septets)?;
    if number == 0 || sized.pages < number {
        return Err(Refusal::WrongPages);
    }
    let head = Header {
        sequence,
        identifier,
        coding: coding.octet(),
        total: sized.pages as u8,
        number: number as u8,
    };
    let content = Content::of(ucs2, &septets[..sized.septets], units);
    let mut text = [0u8; 82];
    content.put_page(number - 1, &mut text);
    Ok(Page {
        block: blocks::page_block(head, text),
        pages: sized.pages,
    })
}

// Writes all pages of a text under a reading end to end: how many octets and pages.
// Refuses as count_pages (8, 1, 2, 3, 6, 5), then a short buffer (7).
// Stores the blocks at the front of out, in their order; a refusal stores nothing.
pub fn write_pages(
    sequence: u16,
    identifier: u16,
    reading: Reading,
    units: &[u16],
    out: &mut [u8],
) -> Result<PagesWritten, Refusal>
    ensures answer { result ≡ pages_answers sequence identifier reading units.now (length out.old) }
    ensures buffer { out.new ≡ pages_leaves sequence identifier reading units.now out.old }
{
    let coding = writer::settle(Service::Broadcast, reading)?;
    write_text(sequence, identifier, coding, units, out)
}

// Writes all pages where the coding is settled: 6, 5, 7.
fn write_text(
    sequence: u16,
    identifier: u16,
    coding: TextCoding,
    units: &[u16],
    out: &mut [u8],
) -> Result<PagesWritten, Refusal>
    ensures answer { result ≡ text_pages sequence identifier coding.octet coding.ucs2 units.now (length out.old) }
    ensures buffer { out.new ≡ text_pages_leaves sequence identifier coding.octet coding.ucs2 units.now out.old }
{
    let ucs2 = coding.ucs2();
    let mut septets = [0u8; 1395];
    let sized = gather_pages(ucs2, units, &mut septets)?;
    let octets = 88 * sized.pages;
    if out.len() < octets {
        return Err(Refusal::NoRoom);
    }
    let head = Header {
        sequence,
        identifier,
        coding: coding.octet(),
        total: sized.pages as u8,
        number: 0,
    };
    let content = Content::of(ucs2, &septets[..sized.septets], units);
    put_pages(head, content, sized.pages, out);
    Ok(PagesWritten {
        octets,
        pages: sized.pages,
    })
}

// How many pages a text takes, and how many septets of it were stored: none of UCS2.
#[derive(Clone, Copy)]
struct Sized {
    pages: usize,
    septets: usize,
}

// Counts the pages of a text in one pass, and lays its septets over the front of out, as far as they fit: 6, 5.
// The array is the caller's, with how much of it is laid in the answer, since nothing here is on the heap.
fn gather_pages(ucs2: bool, units: &[u16], out: &mut [u8]) -> Result<Sized, Refusal>
    requires { length out.old ≡ 1395 }
    ensures { MatchResult result (λ s. (sized_as ucs2 units.now ≡ Ok s.pages) × Gathered ucs2 units.now s.pages s.septets out.new) (λ q. sized_as ucs2 units.now ≡ Err q) }
{
    if ucs2 {
        return Ok(Sized {
            pages: paged(41, units.len())?,
            septets: 0,
        });
    }
    let told = to_septets::encode(units, out);
    if told.units < units.len() {
        return Err(Refusal::Unlisted { unit: told.units });
    }
    Ok(Sized {
        pages: paged(93, told.septets)?,
        septets: told.septets,
    })
}

// Lays so many pages over the front of out.
fn put_pages(head: Header, content: Content, total: usize, out: &mut [u8])
    requires total_bound { (total ≤ 15) × (88 * total ≤ length out.old) × IsLow content }
    requires total_in_bounds { page_room (in_units content) * total ≤ length (held_in content) + page_room (in_units content) }
    ensures { out.new ≡ laid (blocks_from head.sequence head.identifier head.coding head.total (in_units content.entry) (held_in content.entry) 1 total) out.old }
{
    for k in 0..total {
        let numbered = Header {
            number: (k + 1) as u8,
            ..head
        };
        let mut text = [0u8; 82];
        content.put_page(k, &mut text);
        let block = blocks::page_block(numbered, text);
        out[88 * k..88 * k + 88].copy_from_slice(&block);
    }
}

// The content of a message: what its pages hold, end to end.
#[derive(Clone, Copy)]
enum Content<'a> {
    Units(&'a [u16]),
    Septets(&'a [u8]),
}

impl<'a> Content<'a> {
    // That of a text: its units where it is UCS2, and else its septets.
    fn of(ucs2: bool, septets: &'a [u8], units: &'a [u16]) -> Content<'a>
        ensures ucs2 { in_units result ≡ ucs2 }
        ensures held { held_in result ≡ cond ucs2 units.now septets.now }
    {
        if ucs2 {
            Content::Units(units)
        } else {
            Content::Septets(septets)
        }
    }

    // Lays the text of page k, counted from 0, over 82 octets: 41 units or 93 septets, or what is left.
    // It is laid over an array of the caller's: one that is returned the compiler takes apart, octet by octet.
    fn put_page(self, k: usize, text: &mut [u8])
        requires { (k < 15) × IsLow self × (page_room (in_units self) * k ≤ length (held_in self)) × (length text.old ≡ 82) }
        ensures { text.new ≡ page_text (in_units self.entry) (part_at (page_room (in_units self.entry)) (held_in self.entry) (k + 1)) }
    {
        match self {
            Content::Units(units) => {
                text.copy_from_slice(&from_units::page_octets(&units[41 * k..]));
            }
            Content::Septets(septets) => {
                let _ = packing::pack_page(closing::page_of(&septets[93 * k..]), text);
            }
        }
    }
}
