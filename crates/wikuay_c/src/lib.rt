// The calls that C links: each has the name and the clauses of the call of `wikuay` that it makes, and adds nothing.
// They stand apart, since a crate is a library or an archive and not both.
#![tactic(auto)]

ghost use Rattle.std.specs.Prelude.{◌≡◌, length};
ghost use Rattle.wikuay.specs.Calls.{version_gives, read_coding_gives, write_coding_gives, holds_text_gives, pack_gives, pack_keeps, unpack_gives, unpack_keeps, text_to_septets_gives, text_to_septets_keeps, septets_to_text_gives, septets_to_text_keeps, read_message_gives, read_message_keeps, write_message_gives, write_message_keeps};

use answers::{Answer, ReadAnswer};
use names::ReadingNumbers;

pub mod broadcasts;
pub mod long_messages;
pub mod meters;

// The version of the library as one number, as the header has it.
#[unsafe(no_mangle)]
pub extern "C" fn wikuay_version() -> u32
    ensures answer { result ≡ version_gives }
{
    wikuay::wikuay_version()
}

// What a coding octet says under a service. Refuses 8, 2.
#[unsafe(no_mangle)]
pub extern "C" fn wikuay_read_coding(service: u32, coding: u8) -> ReadAnswer
    ensures answer { result ≡ read_coding_gives service coding }
{
    wikuay::wikuay_read_coding(service, coding)
}

// The smallest coding octet that says what the reading does. Refuses 8.
#[unsafe(no_mangle)]
pub extern "C" fn wikuay_write_coding(service: u32, reading: ReadingNumbers) -> Answer
    ensures answer { result ≡ write_coding_gives service reading }
{
    wikuay::wikuay_write_coding(service, reading)
}

// Which text a reading holds. Refuses 8, 1, 2, 3.
#[unsafe(no_mangle)]
pub extern "C" fn wikuay_holds_text(reading: ReadingNumbers) -> ReadAnswer
    ensures answer { result ≡ holds_text_gives reading }
{
    wikuay::wikuay_holds_text(reading)
}

// Packs septets. Refuses 8, 9, 5, 7, and then leaves the buffer as it came; a success touches only the written front.
#[unsafe(no_mangle)]
pub extern "C" fn wikuay_pack(service: u32, septets: &[u8], out: &mut [u8]) -> Answer
    ensures answer { result ≡ pack_gives service septets.now (length out.old) }
    ensures buffer { out.new ≡ pack_keeps service septets.now out.old }
{
    wikuay::wikuay_pack(service, septets, out)
}

// Unpacks octets into septets. Refuses 8, 4, 7, and then leaves the buffer as it came; a success touches only the written front.
#[unsafe(no_mangle)]
pub extern "C" fn wikuay_unpack(service: u32, octets: &[u8], count: usize, out: &mut [u8]) -> Answer
    ensures answer { result ≡ unpack_gives service octets.now count (length out.old) }
    ensures buffer { out.new ≡ unpack_keeps service octets.now count out.old }
{
    wikuay::wikuay_unpack(service, octets, count, out)
}

// Text to septets. Refuses 6, 7, and then leaves the buffer as it came; a success touches only the written front.
#[unsafe(no_mangle)]
pub extern "C" fn wikuay_text_to_septets(text: &[u16], out: &mut [u8]) -> Answer
    ensures answer { result ≡ text_to_septets_gives text.now (length out.old) }
    ensures buffer { out.new ≡ text_to_septets_keeps text.now out.old }
{
    wikuay::wikuay_text_to_septets(text, out)
}

// Septets to text. Refuses 9, 7, and then leaves the buffer as it came; a success touches only the written front.
#[unsafe(no_mangle)]
pub extern "C" fn wikuay_septets_to_text(septets: &[u8], out: &mut [u16]) -> Answer
    ensures answer { result ≡ septets_to_text_gives septets.now (length out.old) }
    ensures buffer { out.new ≡ septets_to_text_keeps septets.now out.old }
{
    wikuay::wikuay_septets_to_text(septets, out)
}

// Reads a message. Refuses 8, 1, 2, 3, 4, 11, 7, and then leaves the buffer as it came; a success touches only the written front.
#[unsafe(no_mangle)]
pub extern "C" fn wikuay_read_message(
    service: u32,
    coding: u8,
    count: usize,
    octets: &[u8],
    out: &mut [u16],
) -> ReadAnswer
    ensures answer { result ≡ read_message_gives service coding count octets.now (length out.old) }
    ensures buffer { out.new ≡ read_message_keeps service coding count octets.now out.old }
{
    wikuay::wikuay_read_message(service, coding, count, octets, out)
}

// Writes a message. Refuses 8, 1, 2, 3 or in its place 11, 6, 5, 7, and then leaves the buffer as it came; a success touches only the written front.
#[unsafe(no_mangle)]
pub extern "C" fn wikuay_write_message(
    service: u32,
    reading: ReadingNumbers,
    text: &[u16],
    out: &mut [u8],
) -> Answer
    ensures answer { result ≡ write_message_gives service reading text.now (length out.old) }
    ensures buffer { out.new ≡ write_message_keeps service reading text.now out.old }
{
    wikuay::wikuay_write_message(service, reading, text, out)
}
