// The stream of bits that septets and octets share: definitions and laws, and no code.
#![tactic(auto)]

use words::Refusal;

// What packing answers.
#[derive(Clone, Copy)]
pub struct Packed {
    // How many octets it stored at the front.
    pub octets: usize,
    // The length count: the septets of a short message, else 0.
    pub count: usize,
}
