// Long short messages: definitions and laws, and the types of answers. No code.
#![tactic(auto)]

use coding::Reading;
use headed::Numbers;
use words::Refusal;

// How a text is cut into parts.
#[derive(Clone, Copy)]
pub struct Plan {
    pub ucs2: bool,
    // Whether the units are laid as they stand: those of UCS2, and those of a 7-bit text that are all their own codes.
    pub plain: bool,
    // How many parts it takes.
    pub total: usize,
    // How many units or septets are laid into them.
    pub content: usize,
}

// What writing one part answers.
#[derive(Clone, Copy)]
pub struct PartWritten {
    // How many octets it stored at the front of the lent buffer.
    pub octets: usize,
    // The count that travels with them.
    pub count: usize,
    // Whether a header stands in front.
    pub marked: bool,
    // The data coding octet.
    pub coding: u8,
    // How many parts the message has.
    pub parts: usize,
}

// What writing all parts answers.
#[derive(Clone, Copy)]
pub struct PartsWritten {
    // How many octets it stored at the front of the first lent buffer. In the second each part has two octets: its count, and how many octets it has.
    pub octets: usize,
    // Whether a header stands in front of each part.
    pub marked: bool,
    // The data coding octet.
    pub coding: u8,
    // How many parts the octets are.
    pub parts: usize,
}

// What reading one part, or a message that is none, answers.
#[derive(Clone, Copy)]
pub struct PartRead {
    // How many units it stored at the front of the lent buffer.
    pub units: usize,
    // What the coding octet says.
    pub reading: Reading,
    // The numbers that the header gives.
    pub concatenation: Option<Numbers>,
}

// What reading a text behind a header, or without one, answers, by itself.
#[derive(Clone, Copy)]
pub struct TextRead {
    // How many units it stored at the front of the lent buffer.
    pub units: usize,
    // The numbers that the header gives.
    pub concatenation: Option<Numbers>,
}

// What joining parts answers.
#[derive(Clone, Copy)]
pub struct PartsJoined {
    // How many units it stored at the front of the lent buffer.
    pub units: usize,
    // What the coding octet says.
    pub reading: Reading,
    // The reference that the parts share.
    pub reference: u8,
    // How many parts the message has.
    pub parts: usize,
}
