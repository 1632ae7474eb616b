// Pieces of one width into pieces of another, through one number of 64 bits: eight septets are seven octets.
ghost use Rattle.std.specs.Prelude.{◌≡◌, ℕ, ◌+◌, ◌*◌, ◌^◌, ◌≤◌, ◌<◌, ◌++◌, length, take, drop};
ghost use Rattle.lists.specs.Lists.{laid};
ghost use Rattle.stream.specs.Digits.{value, digits, low_of};

use groups::{squeeze, stretch};

// An octet as a wide number; as a call it asks no proof of its range.
fn wide(x: u8) -> u64
    ensures { result ≡ x }
{
    x as u64
}

// Two octets from at on as one number, the first lowest. This and the next say their size in their clause and are made of one another: one over the
// size would be a loop over octets.
fn join_two(octets: &[u8], at: usize) -> u64
    requires { at + 2 ≤ length octets.now }
    ensures { result ≡ value 256 (take 2 (drop at octets.now)) }
{
    (wide(octets[at + 1]) << 8) | wide(octets[at])
}

// Four.
fn join_four(octets: &[u8], at: usize) -> u64
    requires { at + 4 ≤ length octets.now }
    ensures { result ≡ value 256 (take 4 (drop at octets.now)) }
{
    (join_two(octets, at + 2) << 16) | join_two(octets, at)
}

// Seven.
fn join_seven(octets: &[u8], at: usize) -> u64
    requires { at + 7 ≤ length octets.now }
    ensures { result ≡ value 256 (take 7 (drop at octets.now)) }
{
    (((wide(octets[at + 6]) << 16) | join_two(octets, at + 4)) << 32) | join_four(octets, at)
}

// Eight. Joined in a function of its own, and octet by octet, they are one load.
fn join_eight(octets: &[u8], at: usize) -> u64
    requires { at + 8 ≤ length octets.now }
    ensures { result ≡ value 256 (take 8 (drop at octets.now)) }
{
    wide(octets[at])
        | (wide(octets[at + 1]) << 8)
        | (wide(octets[at + 2]) << 16)
        | (wide(octets[at + 3]) << 24)
        | (wide(octets[at + 4]) << 32)
        | (wide(octets[at + 5]) << 40)
        | (wide(octets[at + 6]) << 48)
        | (wide(octets[at + 7]) << 56)
}

// The lowest octet of v at a place. This and the next stay functions over a number, a buffer and a place: they are the steps of one store, and a
// buffer with its place inside would be made anew for each.
fn put_one(v: u64, out: &mut [u8], at: usize)
    requires { at + 1 ≤ length out.old }
    ensures { out.new ≡ take at out.old ++ digits 256 1 v ++ drop (at + 1) out.old }
{
    out[at] = (v & 0xff) as u8;
}

// The lowest two octets of v from at on, the lowest first. Stored in a function of its own they are one store.
fn put_two(v: u64, out: &mut [u8], at: usize)
    requires { at + 2 ≤ length out.old }
    ensures { out.new ≡ take at out.old ++ digits 256 2 v ++ drop (at + 2) out.old }
{
    put_one(v, out, at);
    put_one(v >> 8, out, at + 1);
}

// The lowest four.
fn put_four(v: u64, out: &mut [u8], at: usize)
    requires { at + 4 ≤ length out.old }
    ensures { out.new ≡ take at out.old ++ digits 256 4 v ++ drop (at + 4) out.old }
{
    put_two(v, out, at);
    put_two(v >> 16, out, at + 2);
}

// The lowest seven.
fn put_seven(v: u64, out: &mut [u8], at: usize)
    requires { at + 7 ≤ length out.old }
    ensures { out.new ≡ take at out.old ++ digits 256 7 v ++ drop (at + 7) out.old }
{
    put_four(v, out, at);
    put_two(v >> 32, out, at + 4);
    put_one(v >> 48, out, at + 6);
}

// All eight.
fn put_eight(v: u64, out: &mut [u8], at: usize)
    requires { at + 8 ≤ length out.old }
    ensures { out.new ≡ take at out.old ++ digits 256 8 v ++ drop (at + 8) out.old }
{
    put_four(v, out, at);
    put_four(v >> 32, out, at + 4);
}

// The low seven bits of eight septets from at on as one number, the first lowest.
pub(crate) fn low_eight(septets: &[u8], at: usize) -> u64
    requires { at + 8 ≤ length septets.now }
    ensures { result ≡ value 128 (take 8 (drop at (low_of 7 septets.now))) }
{
    squeeze(join_eight(septets, at))
}

// A way to cut a group anew: TAKES pieces of GIVES bits are GIVES pieces of TAKES bits. Of a piece its low bits are taken.
pub(crate) trait Regroup {
    const TAKES: usize;

    const GIVES: usize;

    ghost TAKES: { ℕ };

    ghost GIVES: { ℕ };

    // The group from from on, from to on of out.
    fn group(pieces: &[u8], from: usize, out: &mut [u8], to: usize)
        requires { (from + TAKES ≤ length pieces.now) × (to + GIVES ≤ length out.old) }
        ensures { out.new ≡ take to out.old ++ digits (2 ^ TAKES) GIVES (value (2 ^ GIVES) (take TAKES (drop from (low_of GIVES pieces.now)))) ++ drop (to + GIVES) out.old };
}

// Eight septets are seven octets.
pub(crate) struct Pack;

impl Regroup for Pack {
    const TAKES: usize = 8;

    const GIVES: usize = 7;

    ghost TAKES = { 8 };

    ghost GIVES = { 7 };

    fn group(septets: &[u8], from: usize, out: &mut [u8], to: usize) {
        let v = low_eight(septets, from);
        put_seven(v, out, to);
    }
}

// Seven octets are eight septets. Joined as eight octets, where eight are there, the compiler loads them in fewer pieces; the last of them is
// dropped.
pub(crate) struct Unpack;

impl Regroup for Unpack {
    const TAKES: usize = 7;

    const GIVES: usize = 8;

    ghost TAKES = { 7 };

    ghost GIVES = { 8 };

    fn group(octets: &[u8], from: usize, out: &mut [u8], to: usize) {
        let v = if from + 8 <= octets.len() {
            join_eight(octets, from)
        } else {
            join_seven(octets, from)
        };
        let x = stretch(v);
        put_eight(x, out, to);
    }
}

// Whole groups.
pub(crate) fn recut<R: Regroup>(pieces: &[u8], groups: usize, out: &mut [u8])
    requires { (R.TAKES * groups ≤ length pieces.now) × (R.GIVES * groups ≤ length out.old) }
    ensures { out.new ≡ laid (digits (2 ^ R.TAKES) (R.GIVES * groups) (value (2 ^ R.GIVES) (take (R.TAKES * groups) (low_of R.GIVES pieces.now)))) out.old }
{
    for g in 0..groups {
        R::group(pieces, R::TAKES * g, out, R::GIVES * g);
    }
}

// The lowest n octets of v from at on, in runs of four, two and one: a loop over what whole groups leave would cost several instructions
// an octet.
pub(crate) fn put_end(v: u64, out: &mut [u8], at: usize, n: usize)
    requires { (at + n ≤ length out.old) × (n < 8) }
    ensures { out.new ≡ take at out.old ++ digits 256 n v ++ drop (at + n) out.old }
{
    let mut w = v;
    let mut k = at;
    if 4 <= n {
        put_four(w, out, k);
        w = w >> 32;
        k += 4;
    }
    if 2 <= n % 4 {
        put_two(w, out, k);
        w = w >> 16;
        k += 2;
    }
    if n % 2 == 1 {
        put_one(w, out, k);
    }
}

// n octets from at on as one number, the first lowest, in such runs.
pub(crate) fn take_end(octets: &[u8], at: usize, n: usize) -> u64
    requires { (at + n ≤ length octets.now) × (n < 8) }
    ensures { result ≡ value 256 (take n (drop at octets.now)) }
{
    let mut v: u64 = 0;
    let mut k = at + n;
    if n % 2 == 1 {
        k -= 1;
        v = wide(octets[k]);
    }
    if 2 <= n % 4 {
        k -= 2;
        v = (v << 16) | join_two(octets, k);
    }
    if 4 <= n {
        v = (v << 32) | join_four(octets, at);
    }
    v
}
