// The room left while a text is typed: definitions and laws, and the types of its record and of a key's answer. No code.
#![tactic(auto)]

use words::{Refusal, Service};

// The record that each key changes.
#[derive(Clone, Copy)]
pub struct Meter {
    pub service: Service,
    // How many septets the text takes.
    pub used: u32,
}

// A key by value. The record stands beside the answer and not in it: that of a refused key is promised too.
#[derive(Clone, Copy)]
pub struct Keyed {
    // The record after it.
    pub meter: Meter,
    pub answer: Result<(), Refusal>,
}
