// The values of the fields of a reading, with their numbers.
#![tactic(auto)]

ghost use Rattle.std.specs.Prelude.{◌≡◌};
ghost use Rattle.fields.specs.Letters.{is_letter, are_letters, any_letter};
ghost use Rattle.fields.specs.Numbers.{alphabet_no, class_no, language_no, kind_no, notice_no, flag_no, notice_at};

#[derive(Clone, Copy)]
pub enum Alphabet {
    SevenBit,
    EightBit,
    Ucs2,
    Wap,
    I1,
}

#[derive(Clone, Copy)]
pub enum Class {
    Unset,
    Class0,
    Class1,
    Class2,
    Class3,
    User1,
    User2,
}

#[derive(Clone, Copy)]
pub enum Language {
    German,
    English,
    Italian,
    French,
    Spanish,
    Dutch,
    Swedish,
    Danish,
    Portuguese,
    Finnish,
    Norwegian,
    Greek,
    Turkish,
    Hungarian,
    Polish,
    Unspecified,
    Czech,
    Hebrew,
    Arabic,
    Russian,
    Icelandic,
}

// What waits for the subscriber.
#[derive(Clone, Copy)]
pub enum Kind {
    Voicemail,
    Fax,
    Mail,
    Other,
}

// A waiting notice; one that is not active is still a notice. Nothing is one of its values, with a number of its own, and no absence of one.
#[derive(Clone, Copy)]
pub enum Notice {
    Nothing,
    Discard { active: bool, kind: Kind },
    Store { active: bool, kind: Kind },
}

// The two letters that name the language of a text, in front of it. A letter is its octet, and 0 where it is absent, as in C's struct.
#[derive(Clone, Copy)]
pub struct Letters {
    pub first: u8,
    pub second: u8,
}

// Numbers by methods and no From: they are the places of a key and the fields of C's struct, and `number` says so where `u8::from` would not.
impl Alphabet {
    // Its number, from 0.
    pub fn number(self) -> u8
        ensures answer { result ≡ alphabet_no self }
    {
        match self {
            Alphabet::SevenBit => 0,
            Alphabet::EightBit => 1,
            Alphabet::Ucs2 => 2,
            Alphabet::Wap => 3,
            Alphabet::I1 => 4,
        }
    }
}

impl Class {
    // Its number: 0 for no class, then the classes in order.
    pub fn number(self) -> u8
        ensures answer { result ≡ class_no self }
    {
        match self {
            Class::Unset => 0,
            Class::Class0 => 1,
            Class::Class1 => 2,
            Class::Class2 => 3,
            Class::Class3 => 4,
            Class::User1 => 5,
            Class::User2 => 6,
        }
    }
}

impl Language {
    // Its number: 0 to 15 as bits 3..0 of group 0000, then from 16 on as those of group 0010.
    pub fn number(self) -> u8
        ensures answer { result ≡ language_no self }
    {
        match self {
            Language::German => 0,
            Language::English => 1,
            Language::Italian => 2,
            Language::French => 3,
            Language::Spanish => 4,
            Language::Dutch => 5,
            Language::Swedish => 6,
            Language::Danish => 7,
            Language::Portuguese => 8,
            Language::Finnish => 9,
            Language::Norwegian => 10,
            Language::Greek => 11,
            Language::Turkish => 12,
            Language::Hungarian => 13,
            Language::Polish => 14,
            Language::Unspecified => 15,
            Language::Czech => 16,
            Language::Hebrew => 17,
            Language::Arabic => 18,
            Language::Russian => 19,
            Language::Icelandic => 20,
        }
    }
}

impl Kind {
    // Its number, as bits 1..0 of a waiting notice.
    pub fn number(self) -> u8
        ensures answer { result ≡ kind_no self }
    {
        match self {
            Kind::Voicemail => 0,
            Kind::Fax => 1,
            Kind::Mail => 2,
            Kind::Other => 3,
        }
    }
}

// The number of a flag. By name and not u8::from, as the other fields' numbers, whose definitions the theorems of keys cite (flag_no).
pub fn flag(b: bool) -> u8
    ensures answer { result ≡ flag_no b }
{
    if b { 1 } else { 0 }
}

impl Notice {
    // Its number: 0 for none, else the octet of group 1100 or 1101 that says so, less B0 (hexadecimal).
    pub fn number(self) -> u16
        ensures answer { result ≡ notice_no self }
    {
        match self {
            Notice::Nothing => 0,
            Notice::Discard { active, kind } => {
                16 + 8 * (flag(active) as u16) + (kind.number() as u16)
            }
            Notice::Store { active, kind } => {
                32 + 8 * (flag(active) as u16) + (kind.number() as u16)
            }
        }
    }
}

// The values in the order of their numbers.
pub const ALPHABETS: [Alphabet; 5] = [
    Alphabet::SevenBit,
    Alphabet::EightBit,
    Alphabet::Ucs2,
    Alphabet::Wap,
    Alphabet::I1,
];

pub const CLASSES: [Class; 7] = [
    Class::Unset,
    Class::Class0,
    Class::Class1,
    Class::Class2,
    Class::Class3,
    Class::User1,
    Class::User2,
];

pub const LANGUAGES: [Language; 21] = [
    Language::German,
    Language::English,
    Language::Italian,
    Language::French,
    Language::Spanish,
    Language::Dutch,
    Language::Swedish,
    Language::Danish,
    Language::Portuguese,
    Language::Finnish,
    Language::Norwegian,
    Language::Greek,
    Language::Turkish,
    Language::Hungarian,
    Language::Polish,
    Language::Unspecified,
    Language::Czech,
    Language::Hebrew,
    Language::Arabic,
    Language::Russian,
    Language::Icelandic,
];

pub const KINDS: [Kind; 4] = [Kind::Voicemail, Kind::Fax, Kind::Mail, Kind::Other];

// The notice of a number, where that has one.
pub fn notice_at(n: u32) -> Notice
    ensures answer { result ≡ notice_at n }
{
    if n == 0 {
        return Notice::Nothing;
    }
    let kind = KINDS[(n % 4) as usize];
    let active = n / 8 % 2 == 1;
    if n < 32 {
        Notice::Discard { active, kind }
    } else {
        Notice::Store { active, kind }
    }
}

impl Letters {
    // Whether both are a to z.
    pub fn named(self) -> bool
        ensures answer { result ≡ are_letters self }
    {
        is_letter(self.first) && is_letter(self.second)
    }

    // Whether one of them is there, be it a letter or not.
    pub fn given(self) -> bool
        ensures answer { result ≡ any_letter self }
    {
        self.first != 0 || self.second != 0
    }
}

// a to z, whose septet and whose unit are the same number.
fn is_letter(octet: u8) -> bool
    ensures { result ≡ is_letter octet }
{
    matches!(octet, 0x61..=0x7a)
}
