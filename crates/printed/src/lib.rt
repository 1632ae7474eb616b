// Words, octets and units put on a sheet, one behind the other. Every program prints by these.
#![tactic(auto)]

ghost use Rattle.std.specs.Prelude.{◌≡◌, length};
ghost use Rattle.printed.specs.Printing.{placed, end_of, written, octet_digits, unit_digits, distance};

// A lent buffer, and where the next word goes.
#[derive(Drop)]
pub struct Sheet<'a> {
    pub buffer: &'a mut [u8],
    pub end: usize,
}

impl<'a> Sheet<'a> {
    // A buffer of which nothing is written yet.
    pub fn new(buffer: &'a mut [u8]) -> Sheet<'a>
        ensures end { result.end ≡ 0 }
        ensures buffer { result.buffer.now ≡ buffer.old }
        ensures same_reference { result.buffer.ghost_name ≡ buffer.entry.ghost_name }
    {
        Sheet { buffer, end: 0 }
    }

    // What is written so far.
    pub fn written(&self) -> &[u8]
        ensures { result.now ≡ written self.now.buffer.now self.now.end }
    {
        let n = self.end.min(self.buffer.len());
        &self.buffer[..n]
    }

    // Puts a word behind what stands there, as far as there is room.
    pub fn put(&mut self, word: &[u8])
        ensures end { self.new.end ≡ end_of (length self.old.buffer.now) self.old.end (length word.now) }
        ensures buffer { self.new.buffer.now ≡ placed self.old.buffer.now self.old.end word.now }
        ensures same_reference { self.new.buffer.ghost_name ≡ self.old.buffer.ghost_name }
    {
        if self.end <= self.buffer.len() {
            let n = word.len().min(self.buffer.len() - self.end);
            let to = self.end + n;
            self.buffer[self.end..to].copy_from_slice(&word[..n]);
            self.end = to;
        }
    }

    // Puts octets, two hexadecimal digits each.
    pub fn put_octets(&mut self, octets: &[u8])
        ensures end { self.new.end ≡ end_of (length self.old.buffer.now) self.old.end (length (octet_digits octets.now)) }
        ensures buffer { self.new.buffer.now ≡ placed self.old.buffer.now self.old.end (octet_digits octets.now) }
        ensures same_reference { self.new.buffer.ghost_name ≡ self.old.buffer.ghost_name }
    {
        for v in octets {
            self.put(&[typed::digit_for(v / 16), typed::digit_for(*v)]);
        }
    }

    // Puts units, four hexadecimal digits each.
    pub fn put_units(&mut self, units: &[u16])
        ensures end { self.new.end ≡ end_of (length self.old.buffer.now) self.old.end (length (unit_digits units.now)) }
        ensures buffer { self.new.buffer.now ≡ placed self.old.buffer.now self.old.end (unit_digits units.now) }
        ensures same_reference { self.new.buffer.ghost_name ≡ self.old.buffer.ghost_name }
    {
        for v in units {
            self.put_octets(&v.to_be_bytes());
        }
    }
}

// How far a number is from zero: what is printed behind its sign.
pub fn magnitude(n: i64) -> u64
    ensures answer { result ≡ distance n }
{
    n.unsigned_abs()
}
