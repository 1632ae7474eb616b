// The user data header in front of a short message's text: definitions and laws, and the types of what it says. No code.
#![tactic(auto)]

use words::Refusal;

// What the 8-bit concatenation element says of a part: the reference that the parts of one message share, how many parts the message has, and which
// of them this is, from 1.
#[derive(Clone, Copy)]
pub struct Numbers {
    pub reference: u8,
    pub total: u8,
    pub number: u8,
}

// What reading a header answers.
#[derive(Clone, Copy)]
pub struct HeaderRead {
    // How many octets it takes, its length octet too.
    pub octets: usize,
    // The numbers of the part, where the header has that element.
    pub concatenation: Option<Numbers>,
}
