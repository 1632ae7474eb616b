// What the numbers of a reading, or a coding octet, settle of a text before it is written or read. Plain text, 7-bit or UCS2, is by far the
// most, and is known by its numbers or its octet: its reading is never built. So is a page behind letters by its octet.
ghost use Rattle.std.specs.Prelude.{◌≡◌, true};
ghost use Rattle.coding.specs.OctetRead.{octet_reads};
ghost use Rattle.coding.specs.Holding.{holds_text};
ghost use Rattle.coding.specs.Readings.{plain_in};
ghost use Rattle.words.specs.declared.Service.TheVariants.{OldPage};
ghost use Rattle.names.specs.Names.{numbers_of};
ghost use Rattle.names.specs.Joined.{joined_numbers};
ghost use Rattle.names.specs.declared.said.Heard.TheVariants.{Text};
ghost use Rattle.names.specs.Said.{coded_in, held_by, heard_by};

use crate::{JoinedNumbers, ReadingNumbers};
use coding::Reading;
use words::{Refusal, Service};
use writer::MessageCoding;

// What one message is read with.
#[derive(Clone, Copy)]
pub enum Heard {
    Text { ucs2: bool, reading: JoinedNumbers },
    // A broadcast page behind the letters of its language.
    Lettered { ucs2: bool },
}

// What the numbers of a reading settle of one message that is written.
pub fn coded(service: Service, numbers: ReadingNumbers) -> Result<MessageCoding, Refusal>
    ensures answer { result ≡ coded_in service numbers }
{
    if crate::plain(numbers, false) {
        let coding = writer::settle_plain(service, false)?;
        return Ok(MessageCoding::Text(coding));
    }
    if crate::plain(numbers, true) {
        let coding = writer::settle_plain(service, true)?;
        return Ok(MessageCoding::Text(coding));
    }
    let Some(reading) = crate::any_reading(numbers) else {
        return Err(Refusal::Unwritable);
    };
    writer::code_message(service, reading)
}

// What one message is read with under a coding octet.
pub fn hears(service: Service, coding: u8) -> Result<Heard, Refusal>
    ensures answer { result ≡ heard_by service (octet_reads service coding) }
{
    if is_plain(service, false, coding) {
        return Ok(plain_heard(false));
    }
    if is_plain(service, true, coding) {
        return Ok(plain_heard(true));
    }
    // Of the two octets 0001 0001 is UCS2.
    if coding::lettered_octet(service, coding) {
        return Ok(Heard::Lettered {
            ucs2: coding == 0x11,
        });
    }
    let reading = coding::read_octet(service, coding)?;
    reading_heard(service, reading)
}

// True only for an octet of plain text: the one that it is written with, and all that an old page may have.
fn is_plain(service: Service, ucs2: bool, coding: u8) -> bool
    ensures { result ≡ true → octet_reads service coding ≡ Ok (plain_in ucs2) }
{
    match service {
        Service::OldPage => is_old(ucs2, coding),
        _ => is_written(service, ucs2, coding),
    }
}

// True only for the octet that plain text is written with.
fn is_written(service: Service, ucs2: bool, coding: u8) -> bool
    ensures { result ≡ true → octet_reads service coding ≡ Ok (plain_in ucs2) }
{
    matches!(coding::plain_octet(service, ucs2), Ok(octet) if octet == coding)
}

// True only for an octet of an old page, which is 7-bit text.
fn is_old(ucs2: bool, coding: u8) -> bool
    ensures { result ≡ true → octet_reads OldPage coding ≡ Ok (plain_in ucs2) }
{
    !ucs2 && coding::read_octet(Service::OldPage, coding).is_ok()
}

// What plain text is read with.
fn plain_heard(ucs2: bool) -> Heard
    ensures { result ≡ Text ucs2 (joined_numbers (numbers_of (plain_in ucs2))) }
{
    Heard::Text {
        ucs2,
        reading: crate::join(crate::plain_numbers(ucs2)),
    }
}

// What a text by itself is read with under any reading.
fn reading_heard(service: Service, reading: Reading) -> Result<Heard, Refusal>
    ensures { result ≡ held_by (holds_text service reading) reading }
{
    let text = reading.holds(service)?;
    Ok(Heard::Text {
        ucs2: text.is_ucs2(),
        reading: crate::join(crate::numbers(reading)),
    })
}
