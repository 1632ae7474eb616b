// The parts of a long short message put in order: whether they are those of one message, which number each has, and where it begins.
#![tactic(auto)]

ghost use Rattle.std.specs.Prelude.{◌≡◌, true, false, not, ◌&&◌, ◌≤◌, ◌<◌, eqb, length, replicate, IfOk};
ghost use Rattle.headed.specs.Header.{right_header, header_numbers};
ghost use Rattle.filling.specs.Numbered.{lacks};
ghost use Rattle.parted.specs.Joined.{octets_asked, most_count, wrong_counts, wrong_heads, odd_parts};
ghost use Rattle.parted.specs.Ordered.{no_table, places_of, starts_of, part_order_of, places_left, starts_left};
ghost use Rattle.parted.specs.InnerJoined.{head_judged, heads_judged};

use headed::Numbers;
use words::Refusal;

// Parts as they come: whether their text is UCS2, the count of each, and their octets end to end.
#[derive(Clone, Copy)]
pub struct Parts<'a> {
    pub ucs2: bool,
    pub counts: &'a [u8],
    pub octets: &'a [u8],
}

// Which part has which number, and where each begins. What has no part has 0, as the promised contents say.
#[derive(Drop)]
pub struct Tables {
    // By the number of a part, one more than its place among the parts.
    pub places: [u8; 256],
    // By that place, where it begins among the octets.
    pub starts: [u16; 256],
}

impl Tables {
    // Tables of no parts.
    pub fn new() -> Self
        ensures numbers { result.places ≡ no_table }
        ensures beginnings { result.starts ≡ no_table }
    {
        Tables {
            places: [0; 256],
            starts: [0; 256],
        }
    }

    // Judges parts by their counts: in two passes, one over the headers and one over their numbers. It answers the reference that they share, or by the
    // first rule over all parts that applies why they are refused.
    // Leaves in the tables which part has which number, and where it begins; where the parts are refused, all is 0.
    pub fn order(&mut self, parts: &Parts) -> Result<u8, Refusal>
        ensures answer { result ≡ part_order_of parts.now.ucs2 parts.now.counts.now parts.now.octets.now }
        ensures numbers { self.new.places ≡ places_left parts.now.ucs2 parts.now.counts.now parts.now.octets.now }
        ensures beginnings { self.new.starts ≡ starts_left parts.now.ucs2 parts.now.counts.now parts.now.octets.now }
        ensures few { IfOk result (λ _. length parts.now.counts.now < 256) }
    {
        *self = Tables::new();
        if !parts.counts_fit() {
            return Err(Refusal::WrongLength);
        }
        parts.judge_heads()?;
        let order = parts.place(self);
        if order.is_err() {
            *self = Tables::new();
        }
        order
    }
}

impl<'a> Parts<'a> {
    // Whether no count is more than a short message holds, and they ask for as many octets as there are.
    fn counts_fit(&self) -> bool
        ensures { result ≡ not (wrong_counts self.now.ucs2 self.now.counts.now self.now.octets.now) }
    {
        let most = self.most_count();
        let mut left = self.octets.len();
        for &count in self.counts {
            let asked = self.octets_asked(count);
            if most < count || left < asked {
                return false;
            }
            left -= asked;
        }
        left == 0
    }

    // The most that a count may be.
    fn most_count(&self) -> u8
        ensures { result ≡ most_count self.now.ucs2 }
    {
        if self.ucs2 { 140 } else { 160 }
    }

    // How many octets a count asks.
    fn octets_asked(&self, count: u8) -> usize
        ensures { (result ≡ octets_asked self.now.ucs2 count) × (result ≤ 255) }
    {
        if self.ucs2 {
            count as usize
        } else {
            groups::octets_for(count as usize)
        }
    }

    // Judges the headers, and what stands behind them. A header that is wrong decides at once; an odd part only when all headers are known to be right.
    fn judge_heads(&self) -> Result<(), Refusal>
        requires { wrong_counts self.now.ucs2 self.now.counts.now self.now.octets.now ≡ false }
        ensures { result ≡ heads_judged self.now.ucs2 self.now.counts.now self.now.octets.now }
    {
        let mut all_even = true;
        let mut at: usize = 0;
        for &count in self.counts {
            let end = at + self.octets_asked(count);
            let even = judge_head(self.ucs2, count, &self.octets[at..end])?;
            all_even &= even;
            at = end;
        }
        if !all_even {
            return Err(Refusal::WrongLength);
        }
        Ok(())
    }

    // Puts parts in order whose counts and headers are right, in tables that are clear. The table of places has after each part those of the numbers so
    // far, and a number that has a place already is there twice. Parts as many as the total, of which none is there twice, are all that there are.
    fn place(&self, tables: &mut Tables) -> Result<u8, Refusal>
        requires octets_value { (wrong_counts self.now.ucs2 self.now.counts.now self.now.octets.now ≡ false) × (wrong_heads self.now.ucs2 self.now.counts.now self.now.octets.now ≡ false) × (odd_parts self.now.ucs2 self.now.counts.now self.now.octets.now ≡ false) }
        requires places_value { (tables.old.places ≡ replicate 256 0) × (tables.old.starts ≡ replicate 256 0) }
        ensures value { result ≡ part_order_of self.now.ucs2 self.now.counts.now self.now.octets.now }
        ensures tables_after { IfOk result (λ _. (tables.new.places ≡ places_of self.now.ucs2 self.now.counts.now self.now.octets.now) × (tables.new.starts ≡ starts_of self.now.ucs2 self.now.counts.now)) }
        ensures few { IfOk result (λ _. length self.now.counts.now < 256) }
    {
        let Some(&count) = self.counts.first() else {
            return Err(Refusal::WrongPages);
        };
        let size = self.octets_asked(count);
        let Some(first) = numbers_in(&self.octets[..size]) else {
            return Err(Refusal::WrongPages);
        };
        if self.counts.len() != first.total as usize {
            return Err(Refusal::WrongPages);
        }
        let mut at: usize = 0;
        for (i, &count) in self.counts.iter().enumerate() {
            let end = at + self.octets_asked(count);
            let Some(numbers) = numbers_in(&self.octets[at..end]) else {
                return Err(Refusal::WrongPages);
            };
            let k = numbers.number as usize;
            if !belongs(first, numbers) || tables.places[k] != 0 {
                return Err(Refusal::WrongPages);
            }
            tables.places[k] = i as u8 + 1;
            tables.starts[i] = at as u16;
            at = end;
        }
        Ok(first.reference)
    }
}

// Judges one part: a header that is not right, or takes more septets than the count, is refused. It answers whether what stands behind it is even.
fn judge_head(ucs2: bool, count: u8, part: &[u8]) -> Result<bool, Refusal>
    ensures { result ≡ head_judged ucs2 count part.now }
{
    let header = header::read_header(part)?;
    if ucs2 {
        return Ok((part.len() - header.octets) % 2 != 1);
    }
    if (count as usize) < header::septets_over(part[0]) {
        return Err(Refusal::WrongHeader);
    }
    Ok(true)
}

// The numbers of a part whose header is right, if that has them.
fn numbers_in(part: &[u8]) -> Option<Numbers>
    requires { right_header part.now ≡ true }
    ensures { result ≡ header_numbers part.now }
{
    match header::read_header(part) {
        Ok(header) => header.concatenation,
        Err(_) => None,
    }
}

// Whether a part is of the message of the first one, and its number is from 1 to the total.
fn belongs(first: Numbers, numbers: Numbers) -> bool
    ensures { result ≡ ((eqb first.reference numbers.reference && eqb first.total numbers.total) && not (lacks numbers.total numbers.number)) }
{
    first.reference == numbers.reference
        && (first.total == numbers.total
            && (numbers.number != 0 && numbers.number <= numbers.total))
}
