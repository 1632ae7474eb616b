// The blocks of a message of several pages joined, in whatever order they come, into its text.
#![tactic(auto)]

ghost use Rattle.std.specs.Prelude.{◌≡◌, ℕ, get_or, true, false, ◌+◌, ◌*◌, ◌<◌, ◌≤◌, length};
ghost use Rattle.lists.specs.Lists.{laid};
ghost use Rattle.pages.specs.Joined.{header_at, total_at, block_at, place_of, wrong_pages, joined_from, join_answers, join_leaves};
ghost use Rattle.pages.specs.Inner.{held_joins, held_join_leaves, text_joins, text_join_leaves, Places};

use coding::Reading;
use pages::{Header, Joined};
use words::{Refusal, Service};

// Joins blocks, lent end to end in any order: the units of their text, what the coding octet says, and the header.
// Refuses a length that is no multiple of 88 (4), no block (10), by the first block compressed text (1), a coding that holds no text (2), a prefix
// or header mark (3), pages that are not those of one message (10), a short buffer (7). Stores the units at the front of out; a refusal stores nothing.
pub fn join_pages(blocks: &[u8], out: &mut [u16]) -> Result<Joined, Refusal>
    ensures answer { result ≡ join_answers blocks.now (length out.old) }
    ensures buffer { out.new ≡ join_leaves blocks.now out.old }
{
    if blocks.len() % 88 != 0 {
        return Err(Refusal::WrongLength);
    }
    if blocks.len() == 0 {
        return Err(Refusal::WrongPages);
    }
    let head = blocks::read_header(blocks::block_at(blocks, 0));
    let reading = coding::read_octet(Service::Broadcast, head.coding)?;
    join_held(head, reading, blocks, out)
}

// Joins behind the first block's coding octet: 1, 2, 3, 10, 7.
fn join_held(
    head: Header,
    reading: Reading,
    blocks: &[u8],
    out: &mut [u16],
) -> Result<Joined, Refusal>
    requires { (88 ≤ length blocks.now) × (head ≡ header_at blocks.now 0) }
    ensures answer { result ≡ held_joins head reading blocks.now (length out.old) }
    ensures buffer { out.new ≡ held_join_leaves reading blocks.now out.old }
{
    let text = reading.holds(Service::Broadcast)?;
    let pages = head.total as usize;
    let units = join_text(text.is_ucs2(), pages, blocks, out)?;
    Ok(Joined {
        units,
        reading,
        sequence: head.sequence,
        identifier: head.identifier,
        pages,
    })
}

// Joins the text of blocks, as 7-bit text or as UCS2: 10, 7.
fn join_text(ucs2: bool, total: usize, blocks: &[u8], out: &mut [u16]) -> Result<usize, Refusal>
    requires { (88 ≤ length blocks.now) × (total ≡ total_at blocks.now 0) }
    ensures answer { result ≡ text_joins ucs2 blocks.now (length out.old) }
    ensures buffer { out.new ≡ text_join_leaves ucs2 blocks.now out.old }
{
    let Some(places) = ordering::page_order(blocks) else {
        return Err(Refusal::WrongPages);
    };
    let pages = Pages {
        blocks,
        places,
        total,
    };
    if ucs2 {
        pages.join_units(out)
    } else {
        pages.join_septets(out)
    }
}

// The blocks of one message, how many pages it has, and of each, by its number, one more than its place among the blocks.
#[derive(Drop)]
struct Pages<'a> {
    blocks: &'a [u8],
    places: [usize; 16],
    total: usize,
    ghost octets: { (k : ℕ) → get_or blocks.now k 0 < 256 },
    ghost right: { wrong_pages blocks.now ≡ false },
    ghost counted: { total ≡ total_at blocks.now 0 },
    ghost placed: { Places blocks.now places },
}

impl Pages<'_> {
    // The block of page k, counted from 0, taken out of the lent run by value.
    fn block(&self, k: usize) -> [u8; 88]
        requires { k < self.now.total }
        ensures { result ≡ block_at self.now.blocks.now (place_of self.now.blocks.now (1 + k)) }
    {
        blocks::block_at(self.blocks, self.places[1 + k] - 1)
    }

    // 7-bit text: the septets of all pages in an array of our own, without the CRs that close them, read by the alphabet.
    fn join_septets(&self, out: &mut [u16]) -> Result<usize, Refusal>
        ensures answer { result ≡ text_joins false self.now.blocks.now (length out.old) }
        ensures buffer { out.new ≡ text_join_leaves false self.now.blocks.now out.old }
    {
        let mut septets = [0u8; 1395];
        self.unpack(&mut septets);
        let n = closing::text_length(Service::Broadcast, &septets[..93 * self.total]);
        to_text::septets_to_text(&septets[..n], out)
    }

    // Lays the septets of all pages over the front of out, in the order of the pages.
    fn unpack(&self, out: &mut [u8])
        requires { 93 * self.now.total ≤ length out.old }
        ensures { out.new ≡ laid (joined_from false self.now.blocks.now 1 self.now.total) out.old }
    {
        for k in 0..self.total {
            let block = self.block(k);
            let _ = packing::unpack_all(Service::Broadcast, &block[6..], 0, &mut out[93 * k..]);
        }
    }

    // What lays, closes and reads a text is another call in each of the two, over another element: a trait of three methods for both
    // is longer than these two and their loops of one line.
    // UCS2: the units of all pages in an array of our own, without the CRs that close them.
    fn join_units(&self, out: &mut [u16]) -> Result<usize, Refusal>
        ensures answer { result ≡ text_joins true self.now.blocks.now (length out.old) }
        ensures buffer { out.new ≡ text_join_leaves true self.now.blocks.now out.old }
    {
        let mut units = [0u16; 615];
        self.take(&mut units);
        let n = to_units::kept(&units[..41 * self.total]);
        to_units::store(&units[..n], out)
    }

    // Lays the units of all pages over the front of out, in the order of the pages.
    fn take(&self, out: &mut [u16])
        requires { 41 * self.now.total ≤ length out.old }
        ensures { out.new ≡ laid (joined_from true self.now.blocks.now 1 self.now.total) out.old }
    {
        for k in 0..self.total {
            let block = self.block(k);
            to_units::lay_units(&block[6..], &mut out[41 * k..]);
        }
    }
}
