// The key of a data coding octet: one number for all that it says under a service, each field in a place of its own; and the keys of the
// groups that short messages and pages share.
#![tactic(auto)]

ghost use Rattle.std.specs.Prelude.{◌≡◌};
ghost use Rattle.keys.specs.Keys.{general_key, last_key};

// The places of a key, above the alphabet: what 1 of each field counts.
pub const CLASS: u32 = 8;

pub const LANGUAGE: u32 = 64;

pub const NOTICE: u32 = 2048;

pub const COMPRESSED: u32 = 131072;

pub const DELETION: u32 = 262144;

pub const PREFIX: u32 = 524288;

pub const RESERVED: u32 = 1048576;

pub const HEADER: u32 = 2097152;

// The alphabets of a key: 0 is 7-bit, 1 is 8-bit data.
pub const UCS2: u32 = 2;

pub const WAP: u32 = 3;

pub const I1: u32 = 4;

// The keys of what a rule does not mention, and of a reserved coding.
pub const PLAIN: u32 = 960;

pub const UNKNOWN: u32 = 1049536;

// Groups 00xx and 01xx.
pub fn general_key(octet: u8, deletion: u8) -> u32
    ensures answer { result ≡ general_key octet deletion }
{
    let alphabet = (octet / 4 % 4) as u32;
    if alphabet == 3 {
        return UNKNOWN;
    }
    let classless = PLAIN
        + alphabet
        + COMPRESSED * ((octet / 32 % 2) as u32)
        + DELETION * (deletion as u32);
    if octet / 16 % 2 == 1 {
        classless + CLASS * ((octet % 4 + 1) as u32)
    } else {
        classless
    }
}

// Group 1111, with the class of that number.
pub fn last_key(octet: u8, class: u8) -> u32
    ensures answer { result ≡ last_key octet class }
{
    if octet / 8 % 2 == 1 {
        return UNKNOWN;
    }
    PLAIN + ((octet / 4 % 2) as u32) + CLASS * (class as u32)
}
