// What can be wrong with a request, and how it is said.
use crate::options::Choice;
use crate::tell::{Answer, Layout, Value};

// A case holds the word or the option that is shown with it.
#[derive(Clone, Copy)]
pub(crate) enum Fault<'a> {
    Long,
    NoOption(&'a [u8]),
    NoValue(Choice),
    Twice(Choice),
    Many(&'a [u8]),
    NoVerb,
    Verb(&'a [u8]),
    NoService,
    Service(&'a [u8]),
    Missing,
    Strange(Choice),
    Octets(&'a [u8]),
    Units(&'a [u8]),
    Ascii,
    Coding(&'a [u8]),
    Number(&'a [u8]),
    Zero(&'a [u8]),
    Large(&'a [u8]),
    Count,
    Line(&'a [u8]),
    Pair(&'a [u8]),
    Block(&'a [u8]),
    Letters(&'a [u8]),
    Reference(&'a [u8]),
    Mark(&'a [u8]),
    Counts(&'a [u8]),
    NoCounts,
}

impl<'a> Fault<'a> {
    fn meaning(self) -> &'static [u8] {
        match self {
            Fault::Long => b"what is typed is longer than 8192 octets",
            Fault::NoOption(_) => {
                b"there is no such option; a text that begins with - stands behind --"
            }
            Fault::NoValue(_) => b"the option has no value",
            Fault::Twice(_) => b"the option is given twice",
            Fault::Many(_) => {
                b"there is a word too many; a text of several words stands in quotes"
            }
            Fault::NoVerb => b"no command is given",
            Fault::Verb(_) => b"there is no such command",
            Fault::NoService => b"the service is missing",
            Fault::Service(_) => b"there is no such service; it is sms, cbs, ussd or old",
            Fault::Missing => b"the text or the octets are missing",
            Fault::Strange(_) => b"the command does not take the option",
            Fault::Octets(_) => b"octets and septets are typed as two hexadecimal digits each",
            Fault::Units(_) => b"units are typed as four hexadecimal digits each",
            Fault::Ascii => {
                b"only plain ASCII can be typed; other characters are typed as units for now, as in --units 20AC"
            }
            Fault::Coding(_) => b"a coding octet is two hexadecimal digits",
            Fault::Number(_) => b"a number is typed in decimal digits",
            Fault::Zero(_) => b"a number is typed without a zero in front",
            Fault::Large(_) => b"the largest number is 4294967295",
            Fault::Count => b"a short message is read with its length count; give --count",
            Fault::Line(_) => b"the command does not stand in a line",
            Fault::Pair(_) => b"the largest sequence number or message identifier is 65535",
            Fault::Block(_) => b"a block is 88 octets, so 176 hexadecimal digits",
            Fault::Letters(_) => {
                b"the language letters are two plain ASCII characters, as in --letters en"
            }
            Fault::Reference(_) => b"the largest reference is 255",
            Fault::Mark(_) => b"a mark is 0 or 1",
            Fault::Counts(_) => {
                b"counts are numbers of at most 255 with commas between them, as in --counts 160,18"
            }
            Fault::NoCounts => b"parts are joined with their counts; give --counts",
        }
    }

    fn shown(self) -> Option<Value<'a>> {
        match self {
            Fault::Long
            | Fault::NoVerb
            | Fault::NoService
            | Fault::Missing
            | Fault::Ascii
            | Fault::Count
            | Fault::NoCounts => None,
            Fault::NoValue(choice) | Fault::Twice(choice) | Fault::Strange(choice) => {
                Some(Value::Word(choice.name()))
            }
            Fault::NoOption(word)
            | Fault::Many(word)
            | Fault::Verb(word)
            | Fault::Service(word)
            | Fault::Octets(word)
            | Fault::Units(word)
            | Fault::Coding(word)
            | Fault::Number(word)
            | Fault::Zero(word)
            | Fault::Large(word)
            | Fault::Line(word)
            | Fault::Pair(word)
            | Fault::Block(word)
            | Fault::Letters(word)
            | Fault::Reference(word)
            | Fault::Mark(word)
            | Fault::Counts(word) => Some(Value::Typed(word)),
        }
    }

    // Says what is wrong.
    pub(crate) fn tell(self, answer: &mut Answer<'_>) {
        if answer.layout == Layout::Json {
            answer.name(&[Value::Word(b"error")]);
        } else {
            answer.put(Value::Word(b"error: "));
        }
        answer.quote();
        answer.put(Value::Word(self.meaning()));
        if let Some(shown) = self.shown() {
            answer.put(Value::Word(b": "));
            answer.put(shown);
        }
        answer.quote();
        answer.end();
    }
}
