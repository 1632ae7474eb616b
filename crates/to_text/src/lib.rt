// Septets to text, by the present alphabet and by that of an old page.
#![tactic(auto)]

ghost use Rattle.std.specs.Prelude.{◌≡◌, length};
ghost use Rattle.letters.specs.Reading.{text_of, old_text_of, text_answers, text_leaves};

use words::Refusal;

mod own;
mod reading;

// Septets to text: how many units it stored at the front of the lent buffer.
// Refuses septets of 128 or more (9, the first one), then a buffer that is too short (7).
// A refusal leaves the buffer as it came, a success touches only the written front.
pub fn septets_to_text(septets: &[u8], out: &mut [u16]) -> Result<usize, Refusal>
    ensures answer { result ≡ text_answers septets.now (text_of septets.now) (length out.old) }
    ensures buffer { out.new ≡ text_leaves septets.now (text_of septets.now) out.old }
{
    reading::read_text(septets, false, out)
}

// The septets of an old page to text, as septets_to_text, but 11 and 1B each read as a space and there is no extension.
pub fn old_page_to_text(septets: &[u8], out: &mut [u16]) -> Result<usize, Refusal>
    ensures answer { result ≡ text_answers septets.now (old_text_of septets.now) (length out.old) }
    ensures buffer { out.new ≡ text_leaves septets.now (old_text_of septets.now) out.old }
{
    reading::read_text(septets, true, out)
}
