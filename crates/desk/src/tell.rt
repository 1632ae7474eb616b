// What the command prints, gathered in one buffer: facts, each a name and a value, in one of three layouts.
use printed::Sheet;

// One line a fact; all on one line; one object a line.
#[derive(Clone, Copy, PartialEq, Eq)]
pub(crate) enum Layout {
    People,
    Words,
    Json,
}

// What is put: a word as it is, a number, octets or units in hexadecimal digits, units or typed octets as a text, the two letters of a
// language, and the highest bits of an octet, so many.
#[derive(Clone, Copy)]
pub(crate) enum Value<'a> {
    Word(&'a [u8]),
    Number(u64),
    Octet(u8),
    Octets(&'a [u8]),
    Units(&'a [u16]),
    Text(&'a [u16]),
    Typed(&'a [u8]),
    Letters([u8; 2]),
    Bits(u8, usize),
}

// As much of a list as the number says, or all of it.
pub(crate) fn front<T>(list: &[T], n: usize) -> &[T] {
    list.get(..n).unwrap_or(list)
}

// The bits of an octet, highest first.
const BITS: [u8; 8] = [128, 64, 32, 16, 8, 4, 2, 1];

#[derive(Drop)]
pub(crate) struct Answer<'a> {
    pub sheet: Sheet<'a>,
    pub layout: Layout,
}

impl<'a> Answer<'a> {
    // Begins an answer: with the number of its line, where it has one.
    pub(crate) fn begun(buffer: &'a mut [u8], layout: Layout, line: Option<usize>) -> Answer<'a> {
        let mut answer = Answer {
            sheet: Sheet::new(buffer),
            layout,
        };
        match layout {
            Layout::People => {}
            Layout::Words => {
                if let Some(line) = line {
                    answer.put(Value::Number(line as u64));
                    answer.end();
                }
            }
            Layout::Json => {
                answer.sheet.put(b"{");
                if let Some(line) = line {
                    answer.fact(b"line", Value::Number(line as u64));
                }
            }
        }
        answer
    }

    // Ends an answer: what stands behind the last fact closes it.
    pub(crate) fn finish(&mut self) {
        let Some(last) = self.sheet.end.checked_sub(1) else {
            return;
        };
        match self.layout {
            Layout::People => {}
            Layout::Words => {
                self.sheet.end = last;
                self.sheet.put(b"\n");
            }
            Layout::Json => {
                self.sheet.end = last;
                self.sheet.put(b"}\n");
            }
        }
    }

    pub(crate) fn put(&mut self, value: Value<'_>) {
        match value {
            Value::Word(word) => self.sheet.put(word),
            Value::Number(n) => {
                let mut digits = [0u8; 20];
                let k = io::decimal(n, &mut digits);
                self.sheet.put(&digits[..k]);
            }
            Value::Octet(octet) => self.sheet.put_octets(&[octet]),
            Value::Octets(octets) => self.sheet.put_octets(octets),
            Value::Units(units) => self.sheet.put_units(units),
            Value::Text(units) => {
                for unit in units {
                    self.put_letter(*unit);
                }
            }
            Value::Typed(word) => {
                for c in word {
                    self.put_letter(u16::from(*c));
                }
            }
            Value::Letters(letters) => {
                for c in &letters {
                    self.put_letter(u16::from(*c));
                }
            }
            Value::Bits(octet, n) => {
                let bits = BITS.map(|bit| if octet & bit == 0 { b'0' } else { b'1' });
                self.sheet.put(front(&bits, n));
            }
        }
    }

    pub(crate) fn puts(&mut self, values: &[Value<'_>]) {
        for value in values {
            self.put(*value);
        }
    }

    // A unit of a text: plain ASCII as it is, a backslash behind a backslash, all else in four digits behind one. A quote has a backslash where
    // the text stands in quotes.
    fn put_letter(&mut self, unit: u16) {
        match u8::try_from(unit) {
            Ok(c @ 32..=126) => {
                if c == b'\\' || (c == b'"' && self.layout == Layout::Json) {
                    self.sheet.put(b"\\");
                }
                self.sheet.put(&[c]);
            }
            _ => {
                self.sheet.put(b"\\u");
                self.sheet.put_units(&[unit]);
            }
        }
    }

    // What stands around a name and a value that is no number.
    pub(crate) fn quote(&mut self) {
        if self.layout == Layout::Json {
            self.sheet.put(b"\"");
        }
    }

    // The name of a fact, and what parts it from the value.
    pub(crate) fn name(&mut self, name: &[Value<'_>]) {
        self.quote();
        self.puts(name);
        self.quote();
        self.sheet.put(match self.layout {
            Layout::People | Layout::Words => b" ",
            Layout::Json => b":",
        });
    }

    // What stands behind a fact.
    pub(crate) fn end(&mut self) {
        self.sheet.put(match self.layout {
            Layout::People => b"\n",
            Layout::Words => b" ",
            Layout::Json => b",",
        });
    }

    pub(crate) fn fact(&mut self, name: &[u8], value: Value<'_>) {
        self.named(&[Value::Word(name)], value);
    }

    // A fact of a page, a part or a key, by its number.
    pub(crate) fn numbered(&mut self, name: &[u8], number: usize, value: Value<'_>) {
        self.named(
            &[
                Value::Word(name),
                Value::Word(b" "),
                Value::Number(number as u64),
            ],
            value,
        );
    }

    fn named(&mut self, name: &[Value<'_>], value: Value<'_>) {
        self.name(name);
        if let Value::Number(_) = value {
            self.put(value);
        } else {
            self.quote();
            self.put(value);
            self.quote();
        }
        self.end();
    }
}
