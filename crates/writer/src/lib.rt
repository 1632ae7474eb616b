// The whole writer: text into octets under a service and a reading.
#![tactic(auto)]

ghost use Rattle.std.specs.Prelude.{◌≡◌, false, length};
ghost use Rattle.words.specs.Sizes.{is_old_page};
ghost use Rattle.coding.specs.Readings.{plain_in};
ghost use Rattle.demands.specs.MessageWritten.{text_writes, text_write_leaves, page_as, page_writes, page_write_leaves, write_answers, write_leaves};
ghost use Rattle.demands.specs.Inner.{packed_as, units_as};
ghost use Rattle.writer.specs.Settled.{octet_in, ucs2_in, held_settled, settled_as, settled_writes, settled_leaves};
ghost use Rattle.writer.specs.Coded.{lettered_by, coded_as, coded_writes, coded_leaves};

use coding::Reading;
use demands::MessageWritten;
use fields::Letters;
use words::{Refusal, Service};

// How a text is coded under a service: the coding octet, and whether it is UCS2. Only settle and settle_plain make one.
#[derive(Clone, Copy)]
pub struct TextCoding {
    service: Service,
    octet: u8,
    ucs2: bool,
}

impl TextCoding {
    // The coding octet.
    pub fn octet(self) -> u8
        ensures answer { result ≡ octet_in self }
    {
        self.octet
    }

    // Whether the text is UCS2.
    pub fn ucs2(self) -> bool
        ensures answer { result ≡ ucs2_in self }
    {
        self.ucs2
    }
}

// How a broadcast page behind the letters of its language is coded: the coding octet, whether it is UCS2, the letters. Only code_message makes one.
#[derive(Clone, Copy)]
pub struct PageCoding {
    octet: u8,
    ucs2: bool,
    letters: Letters,
}

// What settles how one message is written.
#[derive(Clone, Copy)]
pub enum MessageCoding {
    // As a text by itself.
    Text(TextCoding),
    Lettered(PageCoding),
}

// Writes a message: the octets of a text under a reading, with the length count and the coding octet.
// Refuses a reading that cannot be written under the service (8), compressed text (1), a coding that holds no text (2), a header
// mark (3), a prefix mark (3; on a broadcast page only letters of which one is not a to z, 11), a unit that is not in the alphabet (6, the first), a text over the
// size (5), a short buffer (7). Stores the octets at the front of out; a refusal stores nothing.
pub fn write_message(
    service: Service,
    reading: Reading,
    units: &[u16],
    out: &mut [u8],
) -> Result<MessageWritten, Refusal>
    ensures answer { result ≡ write_answers service reading units.now (length out.old) }
    ensures buffer { out.new ≡ write_leaves service reading units.now out.old }
{
    write_coded(code_message(service, reading), units, out)
}

// What a reading settles of one message before its text is seen.
// Refuses a reading that cannot be written under the service (8), compressed text (1), a coding that holds no text (2), a header mark, or a
// prefix mark but on a broadcast page (3).
pub fn code_message(service: Service, reading: Reading) -> Result<MessageCoding, Refusal>
    ensures answer { result ≡ coded_as service reading }
{
    if reading.lettered(service) {
        let octet = reading.text_octet(service)?;
        return Ok(MessageCoding::Lettered(PageCoding {
            octet,
            ucs2: reading.is_ucs2(),
            letters: reading.letters,
        }));
    }
    let coding = settle(service, reading)?;
    Ok(MessageCoding::Text(coding))
}

// Writes one message for which all else is settled, and hands on why it is not.
// Refuses, of a page behind letters, those of which one is not a to z (11); a unit that is not in the alphabet (6, the first), a text over the size
// (5), a short buffer (7). Stores the octets at the front of out; a refusal stores nothing.
pub fn write_coded(
    coding: Result<MessageCoding, Refusal>,
    units: &[u16],
    out: &mut [u8],
) -> Result<MessageWritten, Refusal>
    ensures answer { result ≡ coded_writes coding units.now (length out.old) }
    ensures buffer { out.new ≡ coded_leaves coding units.now out.old }
{
    match coding? {
        MessageCoding::Text(coding) => write_settled(Ok(coding), units, out),
        MessageCoding::Lettered(coding) => write_page(coding, units, out),
    }
}

// A page behind the letters of its language: 11, 6, 5, 7.
fn write_page(coding: PageCoding, units: &[u16], out: &mut [u8]) -> Result<MessageWritten, Refusal>
    ensures answer { result ≡ page_writes coding.ucs2 coding.letters coding.octet units.now (length out.old) }
    ensures buffer { out.new ≡ page_write_leaves coding.ucs2 coding.letters units.now out.old }
{
    let laid = lettering::write_lettered(coding.ucs2, coding.letters, units, out)?;
    Ok(MessageWritten {
        octets: laid,
        count: 0,
        coding: coding.octet,
    })
}

// What a reading settles of a text by itself before it is seen.
// Refuses a reading that cannot be written under the service (8), compressed text (1), a coding that holds no text (2), a prefix or
// header mark (3).
pub fn settle(service: Service, reading: Reading) -> Result<TextCoding, Refusal>
    ensures answer { result ≡ settled_as service reading }
{
    let octet = reading.text_octet(service)?;
    let text = reading.holds(service)?;
    Ok(TextCoding {
        service,
        octet,
        ucs2: text.is_ucs2(),
    })
}

// The same of plain text, 7-bit or UCS2, whose coding octet is known. Refuses an old page (8).
pub fn settle_plain(service: Service, ucs2: bool) -> Result<TextCoding, Refusal>
    ensures answer { result ≡ settled_as service (plain_in ucs2) }
{
    let octet = coding::plain_octet(service, ucs2)?;
    Ok(TextCoding {
        service,
        octet,
        ucs2,
    })
}

// Writes a text for which all else is settled, and hands on why it is not.
// Refuses a unit that is not in the alphabet (6, the first), a text over the service's size (5), a short buffer (7).
// Stores the octets at the front of out; a refusal stores nothing.
pub fn write_settled(
    settled: Result<TextCoding, Refusal>,
    units: &[u16],
    out: &mut [u8],
) -> Result<MessageWritten, Refusal>
    ensures answer { result ≡ settled_writes settled units.now (length out.old) }
    ensures buffer { out.new ≡ settled_leaves settled units.now out.old }
{
    write_text(settled?, units, out)
}

// The same of what is settled.
fn write_text(coding: TextCoding, units: &[u16], out: &mut [u8]) -> Result<MessageWritten, Refusal>
    ensures answer { result ≡ text_writes coding.service coding.ucs2 coding.octet units.now (length out.old) }
    ensures buffer { out.new ≡ text_write_leaves coding.service coding.ucs2 units.now out.old }
{
    let TextCoding {
        service,
        octet,
        ucs2,
    } = coding;
    if service.is_old_page() {
        return Err(Refusal::Unwritable);
    }
    if ucs2 {
        let stored = from_units::units_to_octets(service, units, out)?;
        return Ok(MessageWritten {
            octets: stored,
            count: closing::length_count(service, stored),
            coding: octet,
        });
    }
    write_septets(service, octet, units, out)
}

// 7-bit text: its septets in an array of our own, and those packed.
fn write_septets(
    service: Service,
    code: u8,
    units: &[u16],
    out: &mut [u8],
) -> Result<MessageWritten, Refusal>
    requires { is_old_page service ≡ false }
    ensures answer { result ≡ text_writes service false code units.now (length out.old) }
    ensures buffer { out.new ≡ text_write_leaves service false units.now out.old }
{
    let gathered = to_septets::gather(units);
    let n = gathered.answer?;
    let packed = packing::pack_text(service, &gathered.septets, n, out)?;
    Ok(MessageWritten {
        octets: packed.octets,
        count: packed.count,
        coding: code,
    })
}
