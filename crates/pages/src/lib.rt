// Broadcasts of several pages: definitions, theorems and the types of answers. No code.
#![tactic(auto)]

use coding::Reading;
use words::Refusal;

// What stands in a block in front of the text.
#[derive(Clone, Copy)]
pub struct Header {
    pub sequence: u16,
    pub identifier: u16,
    // The data coding octet.
    pub coding: u8,
    // How many pages the message has, and which of them this is, from 1.
    pub total: u8,
    pub number: u8,
}

// What building a page answers.
#[derive(Clone, Copy)]
pub struct Page {
    pub block: [u8; 88],
    // How many pages the message has.
    pub pages: usize,
}

// What writing all pages answers.
#[derive(Clone, Copy)]
pub struct PagesWritten {
    // How many octets it stored at the front of the lent buffer.
    pub octets: usize,
    // How many pages they are.
    pub pages: usize,
}

// What joining pages answers.
#[derive(Clone, Copy)]
pub struct Joined {
    // How many units it stored at the front of the lent buffer.
    pub units: usize,
    // What the coding octet says.
    pub reading: Reading,
    // The rest of the header.
    pub sequence: u16,
    pub identifier: u16,
    pub pages: usize,
}
