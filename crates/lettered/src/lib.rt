// Definitions, laws and the type of an answer of a broadcast page that begins with the letters of its language. No code.
#![tactic(auto)]

use fields::Letters;
use words::Refusal;

// What reading such a page answers.
#[derive(Clone, Copy)]
pub struct LetteredRead {
    // How many units it stored at the front of the lent buffer.
    pub units: usize,
    pub letters: Letters,
}
