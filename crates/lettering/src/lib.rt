// A broadcast page that begins with the letters of its language (document 02, W2): written and read.
#![tactic(auto)]

ghost use Rattle.std.specs.Prelude.{◌≡◌, ℕ, get_or, true, false, ◌<◌, ◌≤◌, length};
ghost use Rattle.stream.specs.SeptetCalls.{septets_fit};
ghost use Rattle.words.specs.declared.Service.TheVariants.{Broadcast};
ghost use Rattle.fields.specs.Letters.{are_letters};
ghost use Rattle.lettered.specs.LetteredPage.{lettered_writes, lettered_write_leaves, letters_in, lettered_reads, lettered_read_leaves};

use fields::Letters;
use lettered::LetteredRead;
use words::{Refusal, Service};

// Writes a page: the octets of a text behind the letters of its language, as UCS2 or as 7-bit text with a CR behind the letters.
// Refuses letters of which one is not a to z (11), a unit that is not in the alphabet (6, the first), a text over 90 septets or 40 units (5), a
// short buffer (7). Stores the octets at the front of out; a refusal stores nothing.
pub fn write_lettered(
    ucs2: bool,
    letters: Letters,
    units: &[u16],
    out: &mut [u8],
) -> Result<usize, Refusal>
    ensures answer { result ≡ lettered_writes ucs2 letters units.now (length out.old) }
    ensures buffer { out.new ≡ lettered_write_leaves ucs2 letters units.now out.old }
{
    let named = letters.named();
    if !named {
        return Err(Refusal::WrongLetters);
    }
    if ucs2 {
        return write_units(letters, units, out);
    }
    write_septets(letters, units, out)
}

// 7-bit text: a page of 93 CR, with the letters and the text laid over it so that one CR is left between them: 6, 5, 7.
fn write_septets(letters: Letters, units: &[u16], out: &mut [u8]) -> Result<usize, Refusal>
    requires { are_letters letters ≡ true }
    ensures answer { result ≡ lettered_writes false letters units.now (length out.old) }
    ensures buffer { out.new ≡ lettered_write_leaves false letters units.now out.old }
{
    let mut page = [13u8; 93];
    page[0] = letters.first;
    page[1] = letters.second;
    let told = to_septets::encode(units, &mut page[3..]);
    if told.units < units.len() {
        return Err(Refusal::Unlisted { unit: told.units });
    }
    if 90 < told.septets {
        return Err(Refusal::TooLong);
    }
    packing::pack_page(page, out)
}

// UCS2: the letters as two septets, and behind them the octets of a page of units but its last: 5, 7.
fn write_units(letters: Letters, units: &[u16], out: &mut [u8]) -> Result<usize, Refusal>
    requires { are_letters letters ≡ true }
    ensures answer { result ≡ lettered_writes true letters units.now (length out.old) }
    ensures buffer { out.new ≡ lettered_write_leaves true letters units.now out.old }
{
    if 40 < units.len() {
        return Err(Refusal::TooLong);
    }
    if out.len() < 82 {
        return Err(Refusal::NoRoom);
    }
    let octets = from_units::page_octets(units);
    out[0] = letters.first | ((letters.second & 1) << 7);
    out[1] = letters.second >> 1;
    out[2..82].copy_from_slice(&octets[..80]);
    Ok(82)
}

// Reads a page: the units of its text, and the letters.
// Refuses octets that are not 82, or a count that is not 0 (4), letters of which one is not a to z, or a CR that is missing behind them in 7-bit text
// (11), a short buffer (7). Stores the units at the front of out; a refusal stores nothing.
pub fn read_lettered(
    ucs2: bool,
    count: usize,
    octets: &[u8],
    out: &mut [u16],
) -> Result<LetteredRead, Refusal>
    ensures answer { result ≡ lettered_reads ucs2 count octets.now (length out.old) }
    ensures buffer { out.new ≡ lettered_read_leaves ucs2 count octets.now out.old }
{
    let fit = is_page(octets.len(), count);
    let letters = letters_in(octets);
    let spelt = letters.named();
    if !fit {
        return Err(Refusal::WrongLength);
    }
    if !spelt {
        return Err(Refusal::WrongLetters);
    }
    let page = Page { octets, letters };
    if ucs2 {
        page.read_units(out)
    } else {
        page.read_septets(out)
    }
}

// Whether so many octets are a page, and the count that of one.
fn is_page(octets: usize, count: usize) -> bool
    ensures { result ≡ septets_fit Broadcast octets count }
{
    octets == 82 && count == 0
}

// The first two septets. Those of fewer than two octets, which are no page, are taken as 0.
fn letters_in(octets: &[u8]) -> Letters
    ensures { 2 ≤ length octets.now → result ≡ letters_in octets.now }
{
    if octets.len() < 2 {
        return Letters {
            first: 0,
            second: 0,
        };
    }
    Letters {
        first: octets[0] & 0x7f,
        second: (octets[0] >> 7) | ((octets[1] & 0x3f) << 1),
    }
}

// The octets of a page, and the letters in front of its text, which are a to z.
#[derive(Drop)]
struct Page<'a> {
    octets: &'a [u8],
    letters: Letters,
    ghost octet: { (k : ℕ) → get_or octets.now k 0 < 256 },
    ghost whole: { length octets.now ≡ 82 },
    ghost read: { letters ≡ letters_in octets.now },
    ghost named: { are_letters letters ≡ true },
}

impl Page<'_> {
    // 7-bit text: the CR behind the letters, and what the 90 septets hold without the CRs that close them: 11, 7.
    fn read_septets(&self, out: &mut [u16]) -> Result<LetteredRead, Refusal>
        ensures answer { result ≡ lettered_reads false 0 self.now.octets.now (length out.old) }
        ensures buffer { out.new ≡ lettered_read_leaves false 0 self.now.octets.now out.old }
    {
        let mut septets = [0u8; 93];
        let _ = packing::unpack_all(Service::Broadcast, self.octets, 0, &mut septets);
        if septets[2] == 13 {
            let n = closing::text_length(Service::Broadcast, &septets[3..93]);
            let units = to_text::septets_to_text(&septets[3..3 + n], out)?;
            return Ok(LetteredRead {
                units,
                letters: self.letters,
            });
        }
        Err(Refusal::WrongLetters)
    }

    // UCS2: the 40 units behind the letters, without the 000D that close them: 7.
    fn read_units(&self, out: &mut [u16]) -> Result<LetteredRead, Refusal>
        ensures answer { result ≡ lettered_reads true 0 self.now.octets.now (length out.old) }
        ensures buffer { out.new ≡ lettered_read_leaves true 0 self.now.octets.now out.old }
    {
        let mut units = [0u16; 40];
        to_units::lay_units(&self.octets[2..], &mut units);
        let n = to_units::kept(&units);
        let units = to_units::store(&units[..n], out)?;
        Ok(LetteredRead {
            units,
            letters: self.letters,
        })
    }
}
