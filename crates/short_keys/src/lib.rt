// The key of a data coding octet of a short message.
#![tactic(auto)]

ghost use Rattle.std.specs.Prelude.{◌≡◌, ◌<◌};
ghost use Rattle.keys.specs.Keys.{notice_key, short_key};

use keys::{NOTICE, PLAIN, UCS2, UNKNOWN, general_key, last_key};

// Groups 1100, 1101 and 1110: a notice to discard is 16 and on, one to store 32 and on.
fn notice_key(octet: u8, group: u8, alphabet: u32) -> u32
    requires { alphabet < 8 }
    ensures { result ≡ notice_key octet group alphabet }
{
    if octet / 4 % 2 == 1 {
        return UNKNOWN;
    }
    let notice = (group as u32) + 8 * ((octet / 8 % 2) as u32) + ((octet % 4) as u32);
    PLAIN + alphabet + NOTICE * notice
}

// How an octet reads in a short message.
pub fn short_key(octet: u8) -> u32
    ensures answer { result ≡ short_key octet }
{
    if octet < 0x40 {
        return general_key(octet, 0);
    }
    if octet < 0x80 {
        return general_key(octet, 1);
    }
    if octet < 0xc0 {
        return UNKNOWN;
    }
    if octet < 0xd0 {
        return notice_key(octet, 16, 0);
    }
    if octet < 0xe0 {
        return notice_key(octet, 32, 0);
    }
    if octet < 0xf0 {
        return notice_key(octet, 32, UCS2);
    }
    last_key(octet, octet % 4 + 1)
}
