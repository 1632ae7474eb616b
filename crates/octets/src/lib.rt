// The smallest data coding octet of a key: the one octet that can be is built and read back.
#![tactic(auto)]

ghost use Rattle.std.specs.Prelude.{◌≡◌, ◌<◌, cond, eqb};
ghost use Rattle.octets.specs.Smallest.{short_octet, page_octet, octet_or_none};
ghost use Rattle.keys.specs.Keys.{class_digit};
ghost use Rattle.octets.specs.Inner.{class_bits, general_try, short_try, page_try};

use keys::{COMPRESSED, DELETION, HEADER, I1, PLAIN, PREFIX, UCS2, WAP};

// What a class adds to an octet of groups 00xx and 01xx, by its number; a user-defined class lifts it to group 1111.
const CLASS_BITS: [u8; 8] = [0, 0x10, 0x11, 0x12, 0x13, 0xb1, 0xb2, 0];

fn class_bits(key: u32) -> u8
    ensures { result ≡ class_bits (class_digit key) }
{
    CLASS_BITS[(key / keys::CLASS % 8) as usize]
}

// Bits 5..0 of the octet of groups 00xx and 01xx with that key.
fn general_try(key: u32) -> u32
    ensures { (result ≡ general_try key) × (result < 512) }
{
    32 * (key / COMPRESSED % 2) + 4 * (key % 8) + (class_bits(key) as u32)
}

// The one octet of a short message to try for a key.
fn short_try(key: u32) -> u8
    ensures { result ≡ short_try key }
{
    let notice = key / keys::NOTICE % 64;
    if notice == 0 {
        ((64 * (key / DELETION % 2) + general_try(key)) % 256) as u8
    } else {
        ((0xb0 + notice + 8 * (key % 8)) % 256) as u8
    }
}

// The one octet of a broadcast page or USSD to try for a key.
fn page_try(key: u32) -> u8
    ensures { result ≡ page_try key }
{
    let language = key / keys::LANGUAGE % 32;
    if language < 15 {
        return language as u8;
    }
    // Those behind the unspecified one stand from 0x20 on.
    if 15 < language {
        return (0x10 + language) as u8;
    }
    let alphabet = key % 8;
    if key / PREFIX % 2 == 1 {
        return (0x10 + alphabet / 2) as u8;
    }
    if alphabet == WAP {
        return 0xe0;
    }
    if alphabet == I1 {
        return 0xd0;
    }
    // With the header mark, group 1001 for 01xx.
    let general = 0x40 * (key / HEADER % 2) + general_try(key);
    if general == 0 {
        0x0f
    } else {
        ((0x40 + general) % 256) as u8
    }
}

// An octet that was tried for a key, where it says that key.
fn checked(octet: u8, said: u32, key: u32) -> Option<u8>
    ensures { result ≡ cond (eqb said key) (Some octet) None }
{
    if said == key { Some(octet) } else { None }
}

// The smallest octet of a short message with that key: none of a reserved one. Plain text, 7-bit or UCS2, is by far the most, so its octets
// are known.
pub fn short_octet(key: u32) -> Option<u8>
    ensures answer { result ≡ octet_or_none (short_octet key) }
{
    if key == PLAIN {
        return Some(0x00);
    }
    if key == PLAIN + UCS2 {
        return Some(0x08);
    }
    let octet = short_try(key);
    checked(octet, short_keys::short_key(octet), key)
}

// The smallest octet of a broadcast page or USSD with that key, likewise. A second function: with the octets of plain text, what is tried and
// what reads it as parameters, one of both would only name its parts.
pub fn page_octet(key: u32) -> Option<u8>
    ensures answer { result ≡ octet_or_none (page_octet key) }
{
    if key == PLAIN {
        return Some(0x0f);
    }
    if key == PLAIN + UCS2 {
        return Some(0x48);
    }
    let octet = page_try(key);
    checked(octet, page_keys::page_key(octet), key)
}
