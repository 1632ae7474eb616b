// Eight septets as one number of 64 bits: moved together they are seven octets, moved apart one lies in each octet.
#![tactic(auto)]

ghost use Rattle.std.specs.Prelude.{◌≡◌};
ghost use Rattle.stream.specs.Stream.{octets_for};
ghost use Rattle.stream.specs.Groups.{together, apart, left_over};

// How many octets n septets take. (7n could overflow.)
pub fn octets_for(n: usize) -> usize
    ensures answer { result ≡ octets_for n }
{
    n - n / 8
}

// The low seven bits of the octets of x, moved together: neighbours first, then pairs, then fours. One mask takes the lower of two,
// and the upper from the number shifted down.
pub fn squeeze(x: u64) -> u64
    ensures answer { result ≡ together x }
{
    let pairs = (x & 0x007f007f007f007f) | (((x >> 8) & 0x007f007f007f007f) << 7);
    let fours = (pairs & 0x00003fff00003fff) | (((pairs >> 16) & 0x00003fff00003fff) << 14);
    (fours & 0x0fffffff) | (((fours >> 32) & 0x0fffffff) << 28)
}

// The way back, by the same masks in the other order: the eight septets that lie together in the low 56 bits of v, moved apart, one into each octet.
pub fn stretch(v: u64) -> u64
    ensures answer { result ≡ apart v }
{
    let fours = (v & 0x0fffffff) | (((v >> 28) & 0x0fffffff) << 32);
    let pairs = (fours & 0x00003fff00003fff) | (((fours >> 14) & 0x00003fff00003fff) << 16);
    (pairs & 0x007f007f007f007f) | (((pairs >> 7) & 0x007f007f007f007f) << 8)
}

// The first septets of v that n septets leave over whole groups of eight, and a CR after them where cr says so.
pub fn left_over(v: u64, n: usize, cr: bool) -> u64
    ensures answer { result ≡ left_over v n cr }
{
    let bits = 7 * (n % 8);
    let rest = v & ((1 << bits) - 1);
    if cr { rest | (13 << bits) } else { rest }
}
