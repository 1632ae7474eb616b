// Definitions, laws and the types of answers of message. No code.
#![tactic(auto)]

use coding::Reading;
use words::Refusal;

// What reading a message answers.
#[derive(Clone, Copy)]
pub struct MessageRead {
    // How many units it stored at the front of the lent buffer.
    pub units: usize,
    // What the coding octet says.
    pub reading: Reading,
}

// What writing a message answers.
#[derive(Clone, Copy)]
pub struct MessageWritten {
    // How many octets it stored at the front of the lent buffer.
    pub octets: usize,
    // The length count.
    pub count: usize,
    // The data coding octet.
    pub coding: u8,
}
