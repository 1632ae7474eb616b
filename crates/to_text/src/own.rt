// Septets that are their own units, as most letters, digits and signs are: a test without branches or tables, and plain copies.
// A fold over the test vectorises, sixteen septets at a time.
ghost use Rattle.std.specs.Prelude.{◌≡◌, ◌≤◌, length};
ghost use Rattle.lists.specs.Lists.{laid};
ghost use Rattle.letters.specs.OwnCodes.{is_own_code, own_text};
ghost use Rattle.letters.specs.Inner.{OwnFrom};

// Whether a septet is its own unit: from 20 to 7A, but for 24, 40 and 5B to 60.
fn is_own(septet: u8) -> bool
    ensures { result ≡ is_own_code septet }
{
    let small = septet | 0x20;
    (0x20 <= septet) & (small <= 0x7a) & (septet != 0x24) & (small != 0x60)
}

// Whether each septet is its own unit. Of a run of known length the compiler makes a few instructions.
fn all_own(septets: &[u8]) -> bool
    ensures { result ≡ own_text septets.now }
{
    septets
        .iter()
        .fold(true, |own, &septet| own & is_own(septet))
}

// How many septets at the front are their own units, counted by 32.
fn own_blocks(septets: &[u8]) -> usize
    ensures { (result ≤ length septets.now) × OwnFrom septets.now 0 result }
{
    let (blocks, _) = septets.as_chunks::<32>();
    match blocks.iter().position(|block| !all_own(block)) {
        Some(k) => 32 * k,
        None => 32 * blocks.len(),
    }
}

// How many septets at the front are their own units: 32 at a time, then eight, or all of them. None of fewer than
// eight septets. The last eight are tested over again where they overlap: a loop over fewer would go septet by septet.
pub(crate) fn own_septets(septets: &[u8]) -> usize
    ensures { (result ≤ length septets.now) × OwnFrom septets.now 0 result }
{
    let len = septets.len();
    if len < 8 {
        return 0;
    }
    let n = own_blocks(septets);
    let (eights, rest) = septets[n..].as_chunks::<8>();
    match eights.iter().position(|eight| !all_own(eight)) {
        Some(k) => n + 8 * k,
        None if rest.is_empty() || all_own(&septets[len - 8..]) => len,
        None => n + 8 * eights.len(),
    }
}

// Lays septets over the front of the buffer as units.
pub(crate) fn copy_septets(septets: &[u8], out: &mut [u16])
    requires { length septets.now ≤ length out.old }
    ensures { out.new ≡ laid septets.now out.old }
{
    for (i, &septet) in septets.iter().enumerate() {
        out[i] = u16::from(septet);
    }
}
