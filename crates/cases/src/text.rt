// What is left of a line, taken from its front part by part. Each take asks for the one spelling of docs/CASES.md, "Values": where a line has another,
// there is None, and the line is no case.
use crate::reading;
use crate::value::SERVICES;
use names::ReadingNumbers;

#[derive(Drop)]
pub(crate) struct Text<'a> {
    // None behind the last part.
    rest: Option<&'a [u8]>,
}

impl<'a> Text<'a> {
    pub(crate) fn new(text: &'a [u8]) -> Text<'a> {
        Text { rest: Some(text) }
    }

    // The part up to the next mark, which is passed, or all that is left.
    pub(crate) fn part(&mut self, mark: u8) -> Option<&'a [u8]> {
        let text = self.rest?;
        match text.iter().position(|c| *c == mark) {
            Some(end) => {
                self.rest = Some(&text[end + 1..]);
                Some(&text[..end])
            }
            None => {
                self.rest = None;
                Some(text)
            }
        }
    }

    // What is left, unless the last part is taken.
    pub(crate) fn left(&self) -> Option<&'a [u8]> {
        self.rest
    }

    // The word of a key.
    pub(crate) fn word(&mut self, key: &[u8]) -> Option<&'a [u8]> {
        self.part(b' ')?.strip_prefix(key)?.strip_prefix(b"=")
    }

    // The answer that is expected: all that stands behind the colon.
    pub(crate) fn expected(&mut self) -> Option<&'a [u8]> {
        match self.part(b' ')? {
            b":" => self.rest,
            _ => None,
        }
    }

    pub(crate) fn number(&mut self, key: &[u8]) -> Option<u32> {
        typed::read_number(self.word(key)?)
    }

    // How many times a text is taken: once at least.
    pub(crate) fn times(&mut self) -> Option<usize> {
        match self.number(b"times")? {
            0 => None,
            times => Some(times as usize),
        }
    }

    pub(crate) fn pair(&mut self, key: &[u8]) -> Option<u16> {
        u16::try_from(self.number(key)?).ok()
    }

    pub(crate) fn mark(&mut self) -> Option<u8> {
        match self.word(b"mark")? {
            b"0" => Some(0),
            b"1" => Some(1),
            _ => None,
        }
    }

    pub(crate) fn service(&mut self) -> Option<u32> {
        let word = self.word(b"service")?;
        let service = SERVICES.iter().position(|name| *name == word)?;
        u32::try_from(service).ok()
    }

    pub(crate) fn reading(&mut self) -> Option<ReadingNumbers> {
        reading::reading_of(self.word(b"reading")?)
    }

    pub(crate) fn octet(&mut self, key: &[u8]) -> Option<u8> {
        octet_of(self.word(key)?)
    }

    pub(crate) fn unit(&mut self, key: &[u8]) -> Option<u16> {
        let mut unit = [0u16; 1];
        match typed::read_units(self.word(key)?, &mut unit)? {
            1 => Some(unit[0]),
            _ => None,
        }
    }

    pub(crate) fn block(&mut self) -> Option<[u8; 88]> {
        let mut block = [0u8; 88];
        match typed::read_octets(self.word(b"block")?, &mut block)? {
            88 => Some(block),
            _ => None,
        }
    }

    // Octets or units, as they are read, at the front of the buffer; `-` is none.
    fn list<'b, T, F: Fn(&[u8], &mut [T]) -> Option<usize>>(
        &mut self,
        key: &[u8],
        buffer: &'b mut [T],
        read: F,
    ) -> Option<&'b [T]>
        requires { F.IsAlwaysCallable read }
    {
        let n = match self.word(key)? {
            b"-" => 0,
            b"" => return None,
            word => read(word, buffer)?,
        };
        buffer.get(..n)
    }

    pub(crate) fn octets<'b>(&mut self, key: &[u8], buffer: &'b mut [u8]) -> Option<&'b [u8]> {
        self.list(key, buffer, typed::read_octets)
    }

    pub(crate) fn units<'b>(&mut self, key: &[u8], buffer: &'b mut [u16]) -> Option<&'b [u16]> {
        self.list(key, buffer, typed::read_units)
    }
}

// The octet that a word spells.
pub(crate) fn octet_of(word: &[u8]) -> Option<u8> {
    let mut octet = [0u8; 1];
    match typed::read_octets(word, &mut octet)? {
        1 => Some(octet[0]),
        _ => None,
    }
}
