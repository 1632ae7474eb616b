// Readings in words (docs/CASES.md, "Readings"). The words of a field stand beside the numbers that they are in the reading.
use crate::text::{Text, octet_of};
use names::ReadingNumbers;
use printed::Sheet;

static ALPHABETS: [(&[u8], u8); 4] = [(b"8bit", 1), (b"ucs2", 2), (b"wap", 3), (b"i1", 4)];

static CLASSES: [(&[u8], u8); 6] = [
    (b"class0", 1),
    (b"class1", 2),
    (b"class2", 3),
    (b"class3", 4),
    (b"user1", 5),
    (b"user2", 6),
];

// 15 is unspecified, and has no word.
static LANGUAGES: [(&[u8], u8); 20] = [
    (b"german", 0),
    (b"english", 1),
    (b"italian", 2),
    (b"french", 3),
    (b"spanish", 4),
    (b"dutch", 5),
    (b"swedish", 6),
    (b"danish", 7),
    (b"portuguese", 8),
    (b"finnish", 9),
    (b"norwegian", 10),
    (b"greek", 11),
    (b"turkish", 12),
    (b"hungarian", 13),
    (b"polish", 14),
    (b"czech", 16),
    (b"hebrew", 17),
    (b"arabic", 18),
    (b"russian", 19),
    (b"icelandic", 20),
];

// A notice is the sum of its group, its sense and its kind.
static GROUPS: [(&[u8], u8); 2] = [(b"discard", 16), (b"store", 32)];

static SENSES: [(&[u8], u8); 2] = [(b"active", 8), (b"inactive", 0)];

static KINDS: [(&[u8], u8); 4] = [(b"voicemail", 0), (b"fax", 1), (b"mail", 2), (b"other", 3)];

fn plain() -> ReadingNumbers {
    ReadingNumbers {
        alphabet: 0,
        compressed: 0,
        class: 0,
        language: 15,
        deletion: 0,
        prefix: 0,
        reserved: 0,
        header: 0,
        notice: 0,
        first: 0,
        second: 0,
    }
}

// The words of a reading that are still to be taken.
#[derive(Drop)]
struct Words<'a> {
    next: Option<&'a [u8]>,
    rest: Text<'a>,
}

impl<'a> Words<'a> {
    fn new(text: &'a [u8]) -> Words<'a> {
        let mut rest = Text::new(text);
        Words {
            next: rest.part(b'+'),
            rest,
        }
    }

    fn pass(&mut self) {
        self.next = self.rest.part(b'+');
    }

    // The number of the next word, where it is of this field.
    fn of(&mut self, words: &[(&[u8], u8)]) -> Option<u8> {
        let next = self.next?;
        let (_, number) = words.iter().find(|(word, _)| *word == next)?;
        self.pass();
        Some(*number)
    }

    // Whether the next word is this one, as 0 or 1.
    fn mark(&mut self, word: &[u8]) -> u8 {
        self.of(&[(word, 1)]).unwrap_or(0)
    }

    // A notice has all three of its words or none.
    fn notice(&mut self) -> Option<u16> {
        match self.of(&GROUPS) {
            None => Some(0),
            Some(group) => {
                let sense = self.of(&SENSES)?;
                let kind = self.of(&KINDS)?;
                Some(u16::from(group) + u16::from(sense) + u16::from(kind))
            }
        }
    }

    // The octet of a language letter, which is not 0, or 0 where the next word is none.
    fn letter(&mut self, name: &[u8]) -> Option<u8> {
        let Some(octet) = self.next.and_then(|word| word.strip_prefix(name)) else {
            return Some(0);
        };
        self.pass();
        octet_of(octet).filter(|letter| *letter != 0)
    }
}

// The reading that the words say, each field in its place and at most once.
pub(crate) fn reading_of(text: &[u8]) -> Option<ReadingNumbers> {
    if text == b"plain".as_slice() {
        return Some(plain());
    }
    let mut words = Words::new(text);
    let mut reading = plain();
    reading.alphabet = words.of(&ALPHABETS).unwrap_or(0);
    reading.compressed = words.mark(b"compressed");
    reading.class = words.of(&CLASSES).unwrap_or(0);
    reading.language = words.of(&LANGUAGES).unwrap_or(15);
    reading.deletion = words.mark(b"deletion");
    reading.notice = words.notice()?;
    reading.prefix = words.mark(b"prefix");
    reading.reserved = words.mark(b"reserved");
    reading.first = words.letter(b"letter1:")?;
    reading.second = words.letter(b"letter2:")?;
    reading.header = words.mark(b"header");
    if words.next.is_some() {
        return None;
    }
    Some(reading)
}

// Puts a word of the reading behind those that stand from start on.
fn put_word(sheet: &mut Sheet, start: usize, word: &[u8]) {
    if sheet.end != start {
        sheet.put(b"+");
    }
    sheet.put(word);
}

// Puts the word of a field that has one.
fn put_field(sheet: &mut Sheet, start: usize, words: &[(&[u8], u8)], number: u8) {
    if let Some((word, _)) = words.iter().find(|(_, its)| *its == number) {
        put_word(sheet, start, word);
    }
}

fn put_letter(sheet: &mut Sheet, start: usize, name: &[u8], letter: u8) {
    if letter != 0 {
        put_word(sheet, start, name);
        sheet.put_octets(&[letter]);
    }
}

fn put_notice(sheet: &mut Sheet, start: usize, notice: u16) {
    if 16 <= notice {
        put_field(sheet, start, &GROUPS, (notice & 0x70) as u8);
        put_field(sheet, start, &SENSES, (notice & 8) as u8);
        put_field(sheet, start, &KINDS, (notice & 3) as u8);
    }
}

// Puts the words of a reading, or `plain`.
pub(crate) fn put(sheet: &mut Sheet, reading: ReadingNumbers) {
    let start = sheet.end;
    put_field(sheet, start, &ALPHABETS, reading.alphabet);
    put_field(sheet, start, &[(b"compressed", 1)], reading.compressed);
    put_field(sheet, start, &CLASSES, reading.class);
    put_field(sheet, start, &LANGUAGES, reading.language);
    put_field(sheet, start, &[(b"deletion", 1)], reading.deletion);
    put_notice(sheet, start, reading.notice);
    put_field(sheet, start, &[(b"prefix", 1)], reading.prefix);
    put_field(sheet, start, &[(b"reserved", 1)], reading.reserved);
    put_letter(sheet, start, b"letter1:", reading.first);
    put_letter(sheet, start, b"letter2:", reading.second);
    put_field(sheet, start, &[(b"header", 1)], reading.header);
    if sheet.end == start {
        sheet.put(b"plain");
    }
}
