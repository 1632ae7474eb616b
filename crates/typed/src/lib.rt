// Numbers as they are typed: hexadecimal digits for octets and units, and decimal numbers. Every program reads its input by these.
#![tactic(auto)]

ghost use Rattle.std.specs.Prelude.{◌≡◌, ℕ, ◌^◌, ◌≤◌, ◌<◌, length, leb, IfSome};
ghost use Rattle.std.proofs.Common.{lit<, lit≤};
ghost use Rattle.typed.specs.Spelling.{digit_of, digit_answers, digit_for, other_answers, number_spelled, elements_answers, elements_leave, elements_leave_as, zero_led, number_answers};

// The digit of a value, 0 to F; only its low four bits count.
#[tactic(auto, using(crate::proofs::Spelling::digit_for_ranged))]
pub fn digit_for(value: u8) -> u8
    ensures answer { result ≡ digit_for value }
{
    let v = value % 16;
    if v < 10 { b'0' + v } else { b'A' + (v - 10) }
}

// The value of a hexadecimal digit, 0 to 9 and A to F, and none of anything else.
#[tactic(auto, using(crate::proofs::Spelling::digit_cases))]
pub fn digit_of(c: u8) -> Option<u8>
    ensures answer { result ≡ digit_answers c }
{
    match c {
        b'0'..=b'9' => Some(c - b'0'),
        b'A'..=b'F' => Some(c - b'A' + 10),
        _ => None,
    }
}

// The place of the first octet that is no digit of the base, if there is one.
pub fn first_other(text: &[u8], base: u8) -> Option<usize>
    ensures answer { result ≡ other_answers base text.now }
{
    text.iter().position(|c| is_other(*c, base))
}

// Whether an octet is no digit of the base. Where it is no digit at all, 16 is compared with the base, which its definition has for none.
#[tactic(auto, using(crate::proofs::Spelling::digit_or))]
fn is_other(c: u8, base: u8) -> bool
    ensures { result ≡ leb base (digit_of c) }
{
    base <= digit_of(c).unwrap_or(16)
}

// The number that digits of the base spell, where they are nothing else.
#[tactic(auto, using(crate::proofs::Spelling::reading_laws))]
fn number_of(digits: &[u8], base: u8) -> Option<u64>
    requires few { (length digits.now ≤ 10) × (base ≤ 16) }
    ensures answer { result ≡ number_spelled base digits.now }
    ensures small { IfSome result (λ v. v < 16 ^ length digits.now) }
{
    let mut v: u64 = 0;
    for c in digits {
        let d = digit_of(*c)?;
        if base <= d {
            return None;
        }
        v = v * u64::from(base) + u64::from(d);
    }
    Some(v)
}

// What is typed in hexadecimal digits, so many to each.
trait Element: Copy {
    const DIGITS: usize;

    ghost DIGITS: { ℕ };

    // The element that a number is.
    ghost spelled: { ℕ → Self };

    fn of(number: u64) -> Self
        requires { number < 16 ^ DIGITS }
        ensures { result ≡ spelled number };

    ghost some: { 0 < DIGITS };

    ghost few: { DIGITS ≤ 10 };
}

impl Element for u8 {
    const DIGITS: usize = 2;

    ghost DIGITS = { 2 };

    ghost spelled = { λ n. n };

    fn of(number: u64) -> u8 {
        number as u8
    }

    ghost some = { lit< tt };

    ghost few = { lit≤ tt };
}

impl Element for u16 {
    const DIGITS: usize = 4;

    ghost DIGITS = { 4 };

    ghost spelled = { λ n. n };

    fn of(number: u64) -> u16 {
        number as u16
    }

    ghost some = { lit< tt };

    ghost few = { lit≤ tt };
}

// Reads elements. Stores them at the front of out, or nothing at all.
fn read_elements<T: Element>(text: &[u8], out: &mut [T]) -> Option<usize>
    ensures answer { result ≡ elements_answers T.DIGITS text.now (length out.old) }
    ensures buffer { out.new ≡ elements_leave_as T.spelled T.DIGITS text.now out.old }
{
    let n = text.len() / T::DIGITS;
    if text.len() % T::DIGITS != 0 || out.len() < n || first_other(text, 16).is_some() {
        return None;
    }
    for (i, digits) in text.chunks_exact(T::DIGITS).enumerate() {
        out[i] = T::of(number_of(digits, 16).unwrap());
    }
    Some(n)
}

// Reads octets, two hexadecimal digits each. Stores them at the front of out, or nothing at all.
#[tactic(auto, using(crate::proofs::Spelling::leave_plain))]
pub fn read_octets(text: &[u8], out: &mut [u8]) -> Option<usize>
    ensures answer { result ≡ elements_answers 2 text.now (length out.old) }
    ensures buffer { out.new ≡ elements_leave 2 text.now out.old }
{
    read_elements(text, out)
}

// Reads units, four hexadecimal digits each. Stores them at the front of out, or nothing at all.
#[tactic(auto, using(crate::proofs::Spelling::leave_plain))]
pub fn read_units(text: &[u8], out: &mut [u16]) -> Option<usize>
    ensures answer { result ≡ elements_answers 4 text.now (length out.old) }
    ensures buffer { out.new ≡ elements_leave 4 text.now out.old }
{
    read_elements(text, out)
}

// Whether a zero stands in front of other digits.
#[tactic(auto, unfolding(crate::specs::Spelling::zero_led))]
fn padded(text: &[u8]) -> bool
    ensures { result ≡ zero_led text.now }
{
    matches!(text, [b'0', _, ..])
}

// Reads a decimal number of at most 4294967295, without a leading zero unless it is 0.
pub fn read_number(text: &[u8]) -> Option<u32>
    ensures answer { result ≡ number_answers text.now }
{
    if text.is_empty() || 10 < text.len() || padded(text) {
        return None;
    }
    u32::try_from(number_of(text, 10)?).ok()
}
