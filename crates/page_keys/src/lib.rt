// The key of a data coding octet of a broadcast page and of USSD.
#![tactic(auto)]

ghost use Rattle.std.specs.Prelude.{◌≡◌};
ghost use Rattle.keys.specs.Keys.{language_key, header_key, page_key};

use keys::{HEADER, I1, LANGUAGE, PLAIN, PREFIX, UCS2, UNKNOWN, WAP, general_key, last_key};

// The numbers of no class, user-defined 1 and 2, class 3.
const USER_CLASSES: [u8; 4] = [0, 5, 6, 4];

// Group 1001: its bit 5 is clear and its bit 4 set, so it reads as 01xx with a class, and has the header mark.
fn header_key(octet: u8) -> u32
    ensures { result ≡ header_key octet }
{
    let key = general_key(octet, 0);
    if key == UNKNOWN {
        return UNKNOWN;
    }
    key + HEADER
}

// Groups 0000 to 0011: a language, by its number, or the prefix mark.
fn language_key(octet: u8) -> u32
    ensures { result ≡ language_key octet }
{
    if octet < 0x10 {
        return LANGUAGE * (octet as u32);
    }
    if octet == 0x10 {
        return PLAIN + PREFIX;
    }
    if octet == 0x11 {
        return PLAIN + UCS2 + PREFIX;
    }
    if octet < 0x20 {
        return UNKNOWN;
    }
    if octet < 0x25 {
        return LANGUAGE * ((octet - 0x10) as u32);
    }
    UNKNOWN
}

// How an octet reads in a broadcast page and in USSD.
pub fn page_key(octet: u8) -> u32
    ensures answer { result ≡ page_key octet }
{
    if octet < 0x40 {
        return language_key(octet);
    }
    if octet < 0x80 {
        return general_key(octet, 0);
    }
    if octet < 0x90 {
        return UNKNOWN;
    }
    if octet < 0xa0 {
        return header_key(octet);
    }
    if octet < 0xd0 {
        return UNKNOWN;
    }
    if octet < 0xe0 {
        return PLAIN + I1;
    }
    if octet < 0xf0 {
        return PLAIN + WAP;
    }
    let i = (octet % 4) as usize;
    last_key(octet, USER_CLASSES[i])
}
