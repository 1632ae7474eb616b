// The user data header of a short message, read from octets and written.
#![tactic(auto)]

ghost use Rattle.std.specs.Prelude.{◌≡◌, List, ◌+◌, ◌≤◌, length};
ghost use Rattle.headed.specs.Header.{elements_of, header_reads, concatenation_header, septets_over};
ghost use Rattle.headed.specs.Inner.{body_reads};

use headed::{HeaderRead, Numbers};
use words::Refusal;

// Reads the header in front of octets: how many of them it takes, and the numbers of its concatenation element as they stand, or none.
// Elements of other kinds are passed over; of a repeated one the last counts.
// Refuses no octets, a header longer than the octets, an element that runs past it, a concatenation element of another length than 3 (12).
pub fn read_header(octets: &[u8]) -> Result<HeaderRead, Refusal>
    ensures answer { result ≡ header_reads octets.now }
{
    if octets.len() == 0 {
        return Err(Refusal::WrongHeader);
    }
    let end = octets[0] as usize + 1;
    if octets.len() < end {
        return Err(Refusal::WrongHeader);
    }
    read_elements(&octets[1..end])
}

// Reads the elements that octets are, in one pass from one to the next. An element says itself how long it is, so that no iterator cuts them: what is left
// is split by a while let.
fn read_elements(body: &[u8]) -> Result<HeaderRead, Refusal>
    requires { length body.now ≤ 255 }
    ensures { result ≡ body_reads (length body.now + 1) None (elements_of body.now) }
{
    let mut concatenation = None;
    let mut rest = body;
    while let Some((&identifier, behind)) = rest.split_first() {
        let Some((&n, behind)) = behind.split_first() else {
            return Err(Refusal::WrongHeader);
        };
        let Some((data, next)) = behind.split_at_checked(n as usize) else {
            return Err(Refusal::WrongHeader);
        };
        if identifier == 0 {
            let [reference, total, number] = data else {
                return Err(Refusal::WrongHeader);
            };
            concatenation = Some(Numbers {
                reference: *reference,
                total: *total,
                number: *number,
            });
        }
        rest = next;
    }
    Ok(HeaderRead {
        octets: body.len() + 1,
        concatenation,
    })
}

// The header that gives a part its numbers and says nothing else. It refuses nothing.
pub fn concatenation_header(numbers: Numbers) -> [u8; 6]
    ensures answer { result ≡ concatenation_header numbers }
{
    [5, 0, 3, numbers.reference, numbers.total, numbers.number]
}

// How many septets a header takes, by its length octet: those that its octets reach into. It refuses nothing.
pub fn septets_over(length: u8) -> usize
    ensures answer { result ≡ septets_over (length + 1) }
{
    let h = length as usize + 1;
    (8 * h + 6) / 7
}
