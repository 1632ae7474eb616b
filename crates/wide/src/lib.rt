// Which septet is none: the first of 128 or more.
#![tactic(auto)]

ghost use Rattle.std.specs.Prelude.{◌≡◌};
ghost use Rattle.lists.specs.Lists.{first_wide};
ghost use Rattle.wide.specs.Bits.{any_bits};

// The bits that any septet has: one test of the result judges them all. The fold vectorises, sixteen septets at a time.
pub fn all_bits(septets: &[u8]) -> u8
    ensures answer { result ≡ any_bits septets.now }
{
    septets.iter().fold(0, |bits, septet| bits | septet)
}

// The place of the first septet of 128 or more, which refusal 9 tells, or the number of septets where there is none. No Option: demands' theorems and
// rule 9 compare it with the length (first_wide), and a public function that could not fail still cannot.
pub fn first_wide(septets: &[u8]) -> usize
    ensures answer { result ≡ first_wide septets.now }
{
    if all_bits(septets) < 128 {
        return septets.len();
    }
    septets
        .iter()
        .position(|septet| 128 <= *septet)
        .unwrap_or(septets.len())
}
