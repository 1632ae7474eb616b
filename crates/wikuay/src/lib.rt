// The calls that C links, for Rattle: the library's own under plain names, with numbers for services, readings and refusals. No rule lives here.
// `wikuay_c` exports them.
// A number that names no service is refused 8 before all else, and so is a reading with a number that names nothing.
#![tactic(auto)]

ghost use Rattle.std.specs.Prelude.{◌≡◌, ◌≤◌, length};
ghost use Rattle.stream.specs.Answers.{packed_count};
ghost use Rattle.demands.specs.Reports.{write_count};
ghost use Rattle.answers.specs.Answers.{packed_answer, message_written_answer, told_answer};
ghost use Rattle.wikuay.specs.Calls.{version_gives, read_coding_gives, write_coding_gives, holds_text_gives, pack_gives, pack_keeps, unpack_gives, unpack_keeps, text_to_septets_gives, text_to_septets_keeps, septets_to_text_gives, septets_to_text_keeps, read_message_gives, read_message_keeps, write_message_gives, write_message_keeps};

use answers::{Answer, MessageTold, ReadAnswer};
use demands::MessageWritten;
use names::said::Heard;
use names::{ReadingNumbers, said};
use stream::Packed;
use words::{Refusal, Service};

pub mod broadcasts;
pub mod long_messages;
pub mod meters;

// The version of the library as one number, as the header has it.
pub fn wikuay_version() -> u32
    ensures answer { result ≡ version_gives }
{
    100
}

// What a coding octet says under a service. Refuses 8, 2.
pub fn wikuay_read_coding(service: u32, coding: u8) -> ReadAnswer
    ensures answer { result ≡ read_coding_gives service coding }
{
    let Some(service) = words::named_service(service) else {
        return answers::read_refused(Refusal::Unwritable);
    };
    answers::octet_read(coding::read_octet(service, coding))
}

// The smallest coding octet that says what the reading does. Refuses 8.
pub fn wikuay_write_coding(service: u32, reading: ReadingNumbers) -> Answer
    ensures answer { result ≡ write_coding_gives service reading }
{
    let Some(service) = words::named_service(service) else {
        return answers::refused(Refusal::Unwritable);
    };
    let Some(reading) = names::reading(reading) else {
        return answers::refused(Refusal::Unwritable);
    };
    answers::octet_written(reading.write(service))
}

// Which text a reading holds. Refuses 8, 1, 2, 3.
pub fn wikuay_holds_text(reading: ReadingNumbers) -> ReadAnswer
    ensures answer { result ≡ holds_text_gives reading }
{
    let Some(reading) = names::reading(reading) else {
        return answers::read_refused(Refusal::Unwritable);
    };
    answers::held(reading.holds(Service::ShortMessage))
}

// Packs septets. Refuses 8, 9, 5, 7, and then leaves the buffer as it came; a success touches only the written front.
pub fn wikuay_pack(service: u32, septets: &[u8], out: &mut [u8]) -> Answer
    ensures answer { result ≡ pack_gives service septets.now (length out.old) }
    ensures buffer { out.new ≡ pack_keeps service septets.now out.old }
{
    let Some(service) = words::named_service(service) else {
        return answers::refused(Refusal::Unwritable);
    };
    packed(packing::pack(service, septets, out))
}

// Unpacks octets into septets. Refuses 8, 4, 7, and then leaves the buffer as it came; a success touches only the written front.
pub fn wikuay_unpack(service: u32, octets: &[u8], count: usize, out: &mut [u8]) -> Answer
    ensures answer { result ≡ unpack_gives service octets.now count (length out.old) }
    ensures buffer { out.new ≡ unpack_keeps service octets.now count out.old }
{
    let Some(service) = words::named_service(service) else {
        return answers::refused(Refusal::Unwritable);
    };
    answers::filled(packing::unpack(service, octets, count, out))
}

// Text to septets. Refuses 6, 7, and then leaves the buffer as it came; a success touches only the written front.
pub fn wikuay_text_to_septets(text: &[u16], out: &mut [u8]) -> Answer
    ensures answer { result ≡ text_to_septets_gives text.now (length out.old) }
    ensures buffer { out.new ≡ text_to_septets_keeps text.now out.old }
{
    answers::filled(to_septets::text_to_septets(text, out))
}

// Septets to text. Refuses 9, 7, and then leaves the buffer as it came; a success touches only the written front.
pub fn wikuay_septets_to_text(septets: &[u8], out: &mut [u16]) -> Answer
    ensures answer { result ≡ septets_to_text_gives septets.now (length out.old) }
    ensures buffer { out.new ≡ septets_to_text_keeps septets.now out.old }
{
    answers::filled(to_text::septets_to_text(septets, out))
}

// Reads a message. Refuses 8, 1, 2, 3, 4, 11, 7, and then leaves the buffer as it came; a success touches only the written front.
pub fn wikuay_read_message(
    service: u32,
    coding: u8,
    count: usize,
    octets: &[u8],
    out: &mut [u16],
) -> ReadAnswer
    ensures answer { result ≡ read_message_gives service coding count octets.now (length out.old) }
    ensures buffer { out.new ≡ read_message_keeps service coding count octets.now out.old }
{
    answers::message_told(read_told(service, coding, count, octets, out))
}

// Writes a message. Refuses 8, 1, 2, 3 or in its place 11, 6, 5, 7, and then leaves the buffer as it came; a success touches only the written front.
pub fn wikuay_write_message(
    service: u32,
    reading: ReadingNumbers,
    text: &[u16],
    out: &mut [u8],
) -> Answer
    ensures answer { result ≡ write_message_gives service reading text.now (length out.old) }
    ensures buffer { out.new ≡ write_message_keeps service reading text.now out.old }
{
    let Some(service) = words::named_service(service) else {
        return answers::refused(Refusal::Unwritable);
    };
    let coding = said::coded(service, reading);
    message_written(writer::write_coded(coding, text, out))
}

// The reader: what its answer tells, from which C's is made in one place.
fn read_told(service: u32, coding: u8, count: usize, octets: &[u8], out: &mut [u16]) -> MessageTold
    ensures result_value { told_answer result ≡ read_message_gives service coding count octets.now (length out.old) }
    ensures out_after { out.new ≡ read_message_keeps service coding count octets.now out.old }
{
    let Some(service) = words::named_service(service) else {
        return answers::message_refused(Refusal::Unwritable);
    };
    match said::hears(service, coding) {
        Ok(Heard::Text { ucs2, reading }) => answers::shown(
            reading,
            reader::read_text(service, ucs2, count, octets, out),
        ),
        Ok(Heard::Lettered { ucs2 }) => {
            answers::lettered_shown(ucs2, lettering::read_lettered(ucs2, count, octets, out))
        }
        Err(refusal) => answers::message_refused(refusal),
    }
}

// The answer of packing in numbers. No count is over 160: the cast asks for that bound, and a From has no place for it.
fn packed(answer: Result<Packed, Refusal>) -> Answer
    requires { packed_count answer ≤ 160 }
    ensures { result ≡ packed_answer answer }
{
    match answer {
        Ok(packed) => answers::done(packed.count as u32, packed.octets, 0),
        Err(refusal) => answers::refused(refusal),
    }
}

// The answer of the whole writer in numbers. No count is over 160.
fn message_written(answer: Result<MessageWritten, Refusal>) -> Answer
    requires { write_count answer ≤ 160 }
    ensures { result ≡ message_written_answer answer }
{
    match answer {
        Ok(message) => answers::done(message.count as u32, message.octets, message.coding),
        Err(refusal) => answers::refused(refusal),
    }
}
