// The data coding octet: read under a service, and written as the smallest octet that reads so.
#![tactic(auto)]

ghost use Rattle.std.specs.Prelude.{◌≡◌, ◌<◌, ◌%◌, ltb, length, cond, not, ◌&&◌};
ghost use Rattle.words.specs.Sizes.{is_old_page};
ghost use Rattle.coding.specs.Readings.{reading_from, unmentioned, plain_in, with_alphabet, with_letters};
ghost use Rattle.coding.specs.LanguageLetters.{is_lettered, coding_writes};
ghost use Rattle.coding.specs.OctetRead.{read_under, octet_reads};
ghost use Rattle.fields.specs.Numbers.{alphabets, classes, languages};
ghost use Rattle.coding.specs.OctetWritten.{octet_writes};
ghost use Rattle.fields.specs.Letters.{any_letter};
ghost use Rattle.keys.specs.Keys.{alphabet_digit, class_digit, language_digit};
ghost use Rattle.coding.specs.Holding.{is_ucs2, holds_text, holds_units};
ghost use Rattle.coding.specs.Inner.{key_of, reading_of, unmarked_holds};

use fields::{
    ALPHABETS, Alphabet, CLASSES, Class, LANGUAGES, Language, Letters, Notice, flag, notice_at,
};
use keys::{CLASS, COMPRESSED, DELETION, HEADER, LANGUAGE, NOTICE, PLAIN, PREFIX, RESERVED};
use words::{Refusal, Service};

// What a data coding octet says, and the letters of the language in front of a text.
#[derive(Clone, Copy)]
pub struct Reading {
    pub alphabet: Alphabet,
    pub compressed: bool,
    pub class: Class,
    pub language: Language,
    pub deletion: bool,
    pub notice: Notice,
    pub prefix: bool,
    pub reserved: bool,
    pub header: bool,
    pub letters: Letters,
}

// What text a reading holds.
#[derive(Clone, Copy)]
pub enum Held {
    Septets,
    Units,
}

impl Held {
    // Whether it is UCS2: from here on a flag, as in the definitions of every call that takes it.
    pub fn is_ucs2(self) -> bool
        ensures answer { result ≡ holds_units self }
    {
        match self {
            Held::Septets => false,
            Held::Units => true,
        }
    }
}

impl Reading {
    // The reading with these fields, and no letters.
    pub fn of(
        alphabet: Alphabet,
        compressed: bool,
        class: Class,
        language: Language,
        deletion: bool,
        notice: Notice,
        prefix: bool,
        reserved: bool,
        header: bool,
    ) -> Self
        ensures answer { result ≡ reading_from alphabet compressed class language deletion notice prefix reserved header }
    {
        Self {
            alphabet,
            compressed,
            class,
            language,
            deletion,
            notice,
            prefix,
            reserved,
            header,
            letters: Letters {
                first: 0,
                second: 0,
            },
        }
    }

    // The values of what a rule does not mention: 7-bit text with nothing special.
    pub fn plain() -> Self
        ensures answer { result ≡ unmentioned }
    {
        Self::of(
            Alphabet::SevenBit,
            false,
            Class::Unset,
            Language::Unspecified,
            false,
            Notice::Nothing,
            false,
            false,
            false,
        )
    }

    // A copy in another alphabet.
    pub fn with_alphabet(self, alphabet: Alphabet) -> Self
        ensures answer { result ≡ with_alphabet alphabet self }
    {
        Self { alphabet, ..self }
    }

    // A copy with other letters.
    pub fn with_letters(self, letters: Letters) -> Self
        ensures answer { result ≡ with_letters letters self }
    {
        Self { letters, ..self }
    }
}

impl Reading {
    // One number for all its fields. The sum cannot wrap, whatever their numbers.
    fn key(self) -> u32
        ensures { result ≡ key_of self }
    {
        (self.alphabet.number() as u32)
            + CLASS * (self.class.number() as u32)
            + LANGUAGE * (self.language.number() as u32)
            + NOTICE * (self.notice.number() as u32)
            + COMPRESSED * (flag(self.compressed) as u32)
            + DELETION * (flag(self.deletion) as u32)
            + PREFIX * (flag(self.prefix) as u32)
            + RESERVED * (flag(self.reserved) as u32)
            + HEADER * (flag(self.header) as u32)
    }
}

// The reading of a key whose fields have values.
fn reading_of(key: u32) -> Reading
    requires { (alphabet_digit key < length alphabets) × (class_digit key < length classes) × (language_digit key < length languages) }
    ensures { result ≡ reading_of key }
{
    Reading::of(
        ALPHABETS[(key % 8) as usize],
        key / COMPRESSED % 2 == 1,
        CLASSES[(key / CLASS % 8) as usize],
        LANGUAGES[(key / LANGUAGE % 32) as usize],
        key / DELETION % 2 == 1,
        notice_at(key / NOTICE % 64),
        key / PREFIX % 2 == 1,
        key / RESERVED % 2 == 1,
        key / HEADER % 2 == 1,
    )
}

// What an octet says under a service. Refuses 2 for an old page whose bits 3..0 are not 0.
pub fn read_octet(service: Service, octet: u8) -> Result<Reading, Refusal>
    ensures answer { result ≡ octet_reads service octet }
{
    if no_alphabet(service, octet) {
        return Err(Refusal::NoText);
    }
    Ok(reading_of(octet_key(service, octet)))
}

// Whether bits 3..0 of an old page's octet name an alphabet that it does not have.
fn no_alphabet(service: Service, octet: u8) -> bool
    ensures { result ≡ (is_old_page service && ltb 0 (octet % 16)) }
{
    service.is_old_page() && 0 < octet % 16
}

// The key of what an octet says under a service.
fn octet_key(service: Service, octet: u8) -> u32
    ensures { result ≡ key_of (read_under service octet) }
{
    match service {
        Service::ShortMessage => short_keys::short_key(octet),
        Service::Broadcast => page_keys::page_key(octet),
        Service::Ussd => page_keys::page_key(octet),
        Service::OldPage => PLAIN,
    }
}

// The octet of plain text under a service, 7-bit or UCS2: what writing Reading::plain() in that alphabet gives. Refuses 8 for an old page.
pub fn plain_octet(service: Service, ucs2: bool) -> Result<u8, Refusal>
    ensures answer { result ≡ octet_writes service (plain_in ucs2) }
{
    match service {
        Service::ShortMessage => plain_done(ucs2, 0x00, 0x08),
        Service::Broadcast => plain_done(ucs2, 0x0f, 0x48),
        Service::Ussd => plain_done(ucs2, 0x0f, 0x48),
        Service::OldPage => Err(Refusal::Unwritable),
    }
}

// Whether one message with this coding octet begins with the letters of its language: a broadcast page, 0001 0000 or 0001 0001. It says what
// Reading::lettered says of the octet's reading, and builds none.
pub fn lettered_octet(service: Service, octet: u8) -> bool
    ensures answer { result ≡ is_lettered service (read_under service octet) }
{
    match service {
        Service::ShortMessage => false,
        Service::Broadcast => octet / 2 == 8,
        Service::Ussd => false,
        Service::OldPage => false,
    }
}

// One octet for 7-bit text, or one for UCS2.
fn plain_done(ucs2: bool, septets: u8, units: u8) -> Result<u8, Refusal>
    ensures { result ≡ Ok (cond ucs2 units septets) }
{
    if ucs2 { Ok(units) } else { Ok(septets) }
}

impl Reading {
    // The smallest octet that reads as self under the service. Refuses 8 for an old page, for a reserved reading, and where no octet
    // reads so.
    pub fn write(self, service: Service) -> Result<u8, Refusal>
        ensures answer { result ≡ octet_writes service self }
    {
        let key = self.key();
        match service {
            Service::ShortMessage => octets::short_octet(key).ok_or(Refusal::Unwritable),
            Service::Broadcast => octets::page_octet(key).ok_or(Refusal::Unwritable),
            Service::Ussd => octets::page_octet(key).ok_or(Refusal::Unwritable),
            Service::OldPage => Err(Refusal::Unwritable),
        }
    }

    // The coding octet of a text with this reading: as write, but that a letter without the prefix mark is refused 8 too.
    pub fn text_octet(self, service: Service) -> Result<u8, Refusal>
        ensures answer { result ≡ coding_writes service self }
    {
        if stray(self.prefix, self.letters) {
            return Err(Refusal::Unwritable);
        }
        self.write(service)
    }

    // Whether its alphabet is UCS2.
    pub fn is_ucs2(self) -> bool
        ensures answer { result ≡ is_ucs2 self.alphabet }
    {
        matches!(self.alphabet, Alphabet::Ucs2)
    }

    // Whether one message begins with the letters of its language: a broadcast page with the prefix mark.
    pub fn lettered(self, service: Service) -> bool
        ensures answer { result ≡ is_lettered service self }
    {
        match service {
            Service::ShortMessage => false,
            Service::Broadcast => self.prefix,
            Service::Ussd => false,
            Service::OldPage => false,
        }
    }

    // Whether it holds text under the service, and if not, why: 1 compressed, 2 8-bit, WAP or I1, 3 the prefix mark or the header mark. Every
    // service judges alike; one broadcast page is judged by lettered first.
    pub fn holds(self, service: Service) -> Result<Held, Refusal>
        ensures answer { result ≡ holds_text service self }
    {
        if self.compressed {
            return Err(Refusal::Compressed);
        }
        match self.alphabet {
            Alphabet::SevenBit => self.unmarked(Held::Septets),
            Alphabet::EightBit => Err(Refusal::NoText),
            Alphabet::Ucs2 => self.unmarked(Held::Units),
            Alphabet::Wap => Err(Refusal::NoText),
            Alphabet::I1 => Err(Refusal::NoText),
        }
    }
}

impl Reading {
    // That text, but 3 where a mark says that something stands in front of it.
    fn unmarked(self, text: Held) -> Result<Held, Refusal>
        ensures { result ≡ unmarked_holds self text }
    {
        if self.prefix {
            return Err(Refusal::Prefixed);
        }
        if self.header {
            return Err(Refusal::Prefixed);
        }
        Ok(text)
    }
}

// Whether there is a letter without the prefix mark.
fn stray(prefix: bool, letters: Letters) -> bool
    ensures { result ≡ (not prefix && any_letter letters) }
{
    !prefix && letters.given()
}
