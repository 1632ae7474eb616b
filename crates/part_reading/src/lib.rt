// One short message read, with or without a user data header in front of its text.
#![tactic(auto)]

ghost use Rattle.std.specs.Prelude.{◌≡◌, true, false, cond, ◌-◌, ◌≤◌, ltb, length};
ghost use Rattle.letters.specs.Reading.{text_of};
ghost use Rattle.stream.specs.Storing.{given_answers, given_leaves};
ghost use Rattle.headed.specs.Header.{septets_over};
ghost use Rattle.parted.specs.Behind.{unpacked_behind};
ghost use Rattle.parted.specs.Read.{count_fits, part_reads, part_read_leaves};
ghost use Rattle.parted.specs.Inner.{held_reads, held_read_leaves, behind_reads, behind_read_leaves, tail_reads, tail_leaves};

use coding::Reading;
use parted::{PartRead, TextRead};
use words::{Refusal, Service};

// Reads one short message, where the mark says whether a header stands in front: the units of its text, what its coding octet says, and the
// numbers of the part as they stand, or none.
// Refuses compressed text (1), a coding that holds no text (2), octets that are not what the count asks (4), a header that is longer than the octets
// or, in septets, than the count, or whose elements are wrong (12), an odd octet of UCS2 behind the header (4), a short buffer (7).
// Stores the units at the front of out; a refusal stores nothing.
pub fn read_part(
    coding: u8,
    count: usize,
    marked: bool,
    octets: &[u8],
    out: &mut [u16],
) -> Result<PartRead, Refusal>
    ensures answer { result ≡ part_reads coding marked count octets.now (length out.old) }
    ensures buffer { out.new ≡ part_read_leaves coding marked count octets.now out.old }
{
    let reading = coding::read_octet(Service::ShortMessage, coding)?;
    read_held(reading, count, marked, octets, out)
}

// The same behind the coding octet.
fn read_held(
    reading: Reading,
    count: usize,
    marked: bool,
    octets: &[u8],
    out: &mut [u16],
) -> Result<PartRead, Refusal>
    ensures answer { result ≡ held_reads reading marked count octets.now (length out.old) }
    ensures buffer { out.new ≡ held_read_leaves reading marked count octets.now out.old }
{
    let held = reading.holds(Service::ShortMessage)?;
    let text = read_behind(held.is_ucs2(), count, marked, octets, out)?;
    Ok(PartRead {
        units: text.units,
        reading,
        concatenation: text.concatenation,
    })
}

// Reads the text of a message by itself: 4, 12, 4, 7. The count, the octets and the buffer are C's own arguments, handed down as they came.
fn read_behind(
    ucs2: bool,
    count: usize,
    marked: bool,
    octets: &[u8],
    out: &mut [u16],
) -> Result<TextRead, Refusal>
    ensures answer { result ≡ behind_reads ucs2 marked count octets.now (length out.old) }
    ensures buffer { out.new ≡ behind_read_leaves ucs2 marked count octets.now out.old }
{
    if !count_fits(ucs2, octets.len(), count) {
        return Err(Refusal::WrongLength);
    }
    if !marked {
        let units = read_tail(ucs2, 0, 0, count, octets, out)?;
        return Ok(TextRead {
            units,
            concatenation: None,
        });
    }
    let header = header::read_header(octets)?;
    let over = header::septets_over(octets[0]);
    if past_count(ucs2, over, count) {
        return Err(Refusal::WrongHeader);
    }
    let units = read_tail(ucs2, header.octets, over, count, octets, out)?;
    Ok(TextRead {
        units,
        concatenation: header.concatenation,
    })
}

// Whether a header takes more septets than the count: of UCS2 the octets are the count, and it is no longer than those.
fn past_count(ucs2: bool, over: usize, count: usize) -> bool
    ensures { result ≡ cond ucs2 false (ltb count over) }
{
    !ucs2 && count < over
}

// Whether so many octets are what the count asks.
fn count_fits(ucs2: bool, octets: usize, count: usize) -> bool
    ensures { result ≡ count_fits ucs2 octets count }
{
    if ucs2 {
        octets <= 140 && count == octets
    } else {
        closing::fits(Service::ShortMessage, octets, count)
    }
}

// Reads the text behind a header of so many octets, which take so many septets: 4, 7.
fn read_tail(
    ucs2: bool,
    size: usize,
    over: usize,
    count: usize,
    octets: &[u8],
    out: &mut [u16],
) -> Result<usize, Refusal>
    requires count_value { (count_fits ucs2 (length octets.now) count ≡ true) × (size ≤ length octets.now) × (over ≡ septets_over size) }
    requires over_le_count { ucs2 ≡ false → over ≤ count }
    ensures answer { result ≡ tail_reads ucs2 size count octets.now (length out.old) }
    ensures buffer { out.new ≡ tail_leaves ucs2 size count octets.now out.old }
{
    if ucs2 {
        return read_units(&octets[size..], out);
    }
    read_septets(over, count, octets, out)
}

// UCS2: the octets behind the header are the units.
fn read_units(behind: &[u8], out: &mut [u16]) -> Result<usize, Refusal>
    ensures answer { result ≡ tail_reads true 0 0 behind.now (length out.old) }
    ensures buffer { out.new ≡ tail_leaves true 0 0 behind.now out.old }
{
    if behind.len() % 2 == 1 {
        return Err(Refusal::WrongLength);
    }
    if out.len() < behind.len() / 2 {
        return Err(Refusal::NoRoom);
    }
    Ok(to_units::lay_units(behind, out))
}

// 7-bit text behind so many septets: the octets unpacked into septets of our own, and those behind read by the alphabet.
fn read_septets(over: usize, count: usize, octets: &[u8], out: &mut [u16]) -> Result<usize, Refusal>
    requires { (count_fits false (length octets.now) count ≡ true) × (over ≤ count) }
    ensures answer { result ≡ given_answers (text_of (unpacked_behind over (count - over) octets.now)) (length out.old) }
    ensures buffer { out.new ≡ given_leaves (text_of (unpacked_behind over (count - over) octets.now)) out.old }
{
    let mut septets = [0u8; 184];
    let _ = packing::unpack_all(Service::ShortMessage, octets, count, &mut septets);
    to_text::septets_to_text(&septets[over..count], out)
}
