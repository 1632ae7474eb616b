// Septets to text, for the present alphabet and for an old page: the passes that judge and count, and the pass that writes.
ghost use Rattle.std.specs.Prelude.{◌≡◌, true, false, ◌⊎◌, ◌+◌, ◌≤◌, ◌<◌, length, take, drop, set, ltb};
ghost use Rattle.lists.specs.Lists.{first_wide, laid};
ghost use Rattle.letters.specs.Reading.{read_as, text_answers, text_leaves};
ghost use Rattle.letters.specs.Inner.{OwnFrom, first_read, Stepped};

use crate::own;
use words::Refusal;

// Lays the unit that is read at i over place n of the buffer, and answers where reading goes on. One code is not read by the main table, so that most
// septets pass one comparison: before `pairs` it is the first of a pair, and from there on a space. Each way stores by itself: of a unit that the ways
// share the compiler makes jumps in place of tables. A septet is masked for the table alone, so that the compiler needs no test of it.
fn lay_step(septets: &[u8], old: bool, pairs: usize, i: usize, n: usize, out: &mut [u16]) -> usize
    requires i_in_bounds { (i < length septets.now) × (length septets.now ≤ first_wide septets.now) × (n + length (read_as old (drop i septets.now)) ≤ length out.old) }
    requires fact { ((old ≡ true) × (pairs ≤ i)) ⊎ ((old ≡ false) × (pairs ≡ length septets.now)) }
    ensures answer { Stepped old septets.now i (first_read old septets.now i) result }
    ensures buffer { out.new ≡ set out.old n (first_read old septets.now i) }
{
    let mark: u8 = if old { 0x11 } else { 0x1b };
    let code = septets[i];
    let next = i + 1;
    if code != mark {
        out[n] = shown::shown_unit(code & 0x7f);
        return next;
    }
    if pairs <= next {
        out[n] = 0x0020;
        return next;
    }
    out[n] = shown::after_escape(septets[next] & 0x7f);
    next + 1
}

// The place after the unit that is read at i.
fn next_place(septets: &[u8], old: bool, i: usize) -> usize
    requires { i < length septets.now }
    ensures answer { Stepped old septets.now i (first_read old septets.now i) result }
{
    let j = i + 1;
    if old {
        return j;
    }
    if septets[i] != 0x1b {
        return j;
    }
    if j == septets.len() {
        return j;
    }
    j + 1
}

// The number of units that the septets read as. A while: a unit takes one septet or two, as next_place says, so that no for over septets counts them.
fn units_in(septets: &[u8], old: bool) -> usize
    ensures answer { result ≡ length (read_as old septets.now) }
{
    let mut n: usize = 0;
    let mut i = 0;
    while i < septets.len() {
        i = next_place(septets, old, i);
        n += 1;
    }
    n
}

// Whether a buffer is too short for the text. Units are never more than septets, so only one that is shorter than those is measured.
fn is_short(septets: &[u8], old: bool, room: usize) -> bool
    ensures { result ≡ ltb room (length (read_as old septets.now)) }
{
    room < septets.len() && room < units_in(septets, old)
}

// Lays the text of the septets over the front of the buffer, and answers how many units it has. The first septets are their own units, and
// stand in the buffer already. A while, as in units_in. Which alphabet is read stays a flag beside the septets, in each function here:
// a trait for two alphabets would name in two types what is one comparison, and every clause speaks of it (read_as).
fn lay_text(septets: &[u8], old: bool, front: usize, out: &mut [u16]) -> usize
    requires front_in_bounds { (front ≤ length septets.now) × (front ≤ length out.old) × OwnFrom septets.now 0 front }
    requires out_value { take front out.old ≡ take front septets.now }
    requires septets_in_bounds { (length (read_as old septets.now) ≤ length out.old) × (length septets.now ≤ first_wide septets.now) }
    ensures answer { result ≡ length (read_as old septets.now) }
    ensures buffer { out.new ≡ laid (read_as old septets.now) out.old }
{
    let pairs = if old { front } else { septets.len() };
    let mut n: usize = front;
    let mut i = front;
    while i < septets.len() {
        i = lay_step(septets, old, pairs, i, n, out);
        n += 1;
    }
    n
}

// The place of the first septet of 128 or more, or the number of septets where there is none. The first septets are their own units, so that only
// the others are looked at: up to sixteen of them by the first and the last eight, which are runs of known length.
fn wide_behind(septets: &[u8], front: usize) -> usize
    requires { (front ≤ length septets.now) × OwnFrom septets.now 0 front }
    ensures answer { result ≡ first_wide septets.now }
{
    let len = septets.len();
    if front == len {
        return len;
    }
    if 8 <= len {
        let left = len - front;
        if left <= 8 {
            if wide::all_bits(&septets[len - 8..]) < 128 {
                return len;
            }
        } else if left <= 16 {
            if wide::all_bits(&septets[front..front + 8]) | wide::all_bits(&septets[len - 8..])
                < 128
            {
                return len;
            }
        }
    }
    let wide = wide::first_wide(&septets[front..]);
    front + wide
}

// Septets to text: the front that is its own units is copied, the rest is judged, and read by a table.
pub(crate) fn read_text(septets: &[u8], old: bool, out: &mut [u16]) -> Result<usize, Refusal>
    ensures answer { result ≡ text_answers septets.now (read_as old septets.now) (length out.old) }
    ensures buffer { out.new ≡ text_leaves septets.now (read_as old septets.now) out.old }
{
    let front = own::own_septets(septets);
    let wide = wide_behind(septets, front);
    if wide < septets.len() {
        return Err(Refusal::NoSeptet { septet: wide });
    }
    if is_short(septets, old, out.len()) {
        return Err(Refusal::NoRoom);
    }
    own::copy_septets(&septets[..front], out);
    if septets.len() <= front {
        return Ok(front);
    }
    let n = lay_text(septets, old, front, out);
    Ok(n)
}
