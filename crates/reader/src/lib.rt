// The whole reader: octets into text, and what their coding octet says.
#![tactic(auto)]

ghost use Rattle.std.specs.Prelude.{◌≡◌, false, length};
ghost use Rattle.words.specs.Sizes.{is_old_page};
ghost use Rattle.letters.specs.Reading.{read_as, text_answers, text_leaves};
ghost use Rattle.demands.specs.MessageRead.{text_reads, text_read_leaves, lettered_as, page_reads, page_read_leaves, read_answers, read_leaves};
ghost use Rattle.demands.specs.Inner.{held_reads, held_read_leaves, shown_as};

use coding::Reading;
use demands::MessageRead;
use words::{Refusal, Service};

// Reads a message: the units of its text and what its coding octet says.
// Refuses compressed text (1), a coding that holds no text (2), a header mark, or a prefix mark but on a broadcast page (3), octets that do not fit the
// service or the count (4), on such a page letters of which one is not a to z or no CR behind them (11), a short buffer (7). Stores the units at the
// front of out; a refusal stores nothing.
pub fn read_message(
    service: Service,
    coding: u8,
    count: usize,
    octets: &[u8],
    out: &mut [u16],
) -> Result<MessageRead, Refusal>
    ensures answer { result ≡ read_answers service coding count octets.now (length out.old) }
    ensures buffer { out.new ≡ read_leaves service coding count octets.now out.old }
{
    let reading = coding::read_octet(service, coding)?;
    if reading.lettered(service) {
        return read_page(reading, count, octets, out);
    }
    read_held(service, reading, count, octets, out)
}

// The reader of a broadcast page behind the letters of its language: 4, 11, 7. The count, the octets and the buffer are C's own arguments, handed
// down as they came.
fn read_page(
    reading: Reading,
    count: usize,
    octets: &[u8],
    out: &mut [u16],
) -> Result<MessageRead, Refusal>
    ensures answer { result ≡ page_reads reading count octets.now (length out.old) }
    ensures buffer { out.new ≡ page_read_leaves reading count octets.now out.old }
{
    let page = lettering::read_lettered(reading.is_ucs2(), count, octets, out)?;
    Ok(MessageRead {
        units: page.units,
        reading: reading.with_letters(page.letters),
    })
}

// The reader of a text by itself behind the coding octet.
fn read_held(
    service: Service,
    reading: Reading,
    count: usize,
    octets: &[u8],
    out: &mut [u16],
) -> Result<MessageRead, Refusal>
    ensures answer { result ≡ held_reads service reading count octets.now (length out.old) }
    ensures buffer { out.new ≡ held_read_leaves service reading count octets.now out.old }
{
    let text = reading.holds(service)?;
    let units = read_text(service, text.is_ucs2(), count, octets, out)?;
    Ok(MessageRead { units, reading })
}

// Reads a text by itself, as 7-bit text or as UCS2, where the coding octet is known: how many units it has.
// Refuses octets that do not fit the service or the count (4), a short buffer (7). Stores the units at the front of out; a refusal
// stores nothing.
pub fn read_text(
    service: Service,
    ucs2: bool,
    count: usize,
    octets: &[u8],
    out: &mut [u16],
) -> Result<usize, Refusal>
    ensures answer { result ≡ text_reads service ucs2 count octets.now (length out.old) }
    ensures buffer { out.new ≡ text_read_leaves service ucs2 count octets.now out.old }
{
    if ucs2 {
        return to_units::octets_to_units(service, octets, count, out);
    }
    read_septets(service, count, octets, out)
}

// 7-bit text: the octets unpacked into septets of our own, and those read by the alphabet of the service.
fn read_septets(
    service: Service,
    count: usize,
    octets: &[u8],
    out: &mut [u16],
) -> Result<usize, Refusal>
    ensures answer { result ≡ text_reads service false count octets.now (length out.old) }
    ensures buffer { out.new ≡ text_read_leaves service false count octets.now out.old }
{
    let mut septets = [0u8; 184];
    let all = packing::unpack_all(service, octets, count, &mut septets)?;
    let n = closing::text_length(service, &septets[..all]);
    read_run(service, &septets[..n], out)
}

// The septets of a text, read by the alphabet of the service.
fn read_run(service: Service, septets: &[u8], out: &mut [u16]) -> Result<usize, Refusal>
    ensures answer { result ≡ text_answers septets.now (read_as (is_old_page service) septets.now) (length out.old) }
    ensures buffer { out.new ≡ text_leaves septets.now (read_as (is_old_page service) septets.now) out.old }
{
    if service.is_old_page() {
        return to_text::old_page_to_text(septets, out);
    }
    to_text::septets_to_text(septets, out)
}
