// What is asked: the words of a request, one after the other, up to the first fault.
ghost use Rattle.std.specs.Prelude.{◌<◌, length, IfSome};

use crate::digits::MOST;
use crate::fault::Fault;
use crate::options::{CHOICES, Choice, Options};
use crate::tell::Layout;
use crate::verb::{Service, Verb};
use printed::Sheet;

// No more words are taken from the command line.
const LONGEST: usize = 65535;

// What is typed, in fixed memory, since no heap is a rule of the project: the text or the octets, and the units of --units.
#[derive(Drop)]
pub(crate) struct Typed<'b> {
    pub text: Sheet<'b>,
    pub units: &'b mut [u16],
}

// A request that is understood.
#[derive(Clone, Copy)]
pub(crate) struct Asked<'a> {
    pub layout: Layout,
    // Whether the text is that of standard input.
    pub input: bool,
    pub task: Task<'a>,
}

#[derive(Clone, Copy)]
pub(crate) enum Task<'a> {
    // Help on a command, or on all of them.
    Help(Option<Verb>),
    Lines,
    Message(Job<'a>),
}

#[derive(Clone, Copy)]
pub(crate) struct Job<'a> {
    pub verb: Verb,
    pub service: Service,
    pub options: Options<'a>,
}

impl<'a> Job<'a> {
    // A coding that is not given is the service's octet of plain 7-bit text.
    pub(crate) fn coding(&self) -> u8 {
        self.options.coding.unwrap_or(self.service.plain_coding())
    }

    pub(crate) fn count(&self) -> usize {
        self.options.count.unwrap_or(0) as usize
    }

    // How many octets are lent.
    pub(crate) fn room(&self) -> usize {
        self.options.room.map_or(MOST, |room| room as usize)
    }
}

// A request that has a fault, the command that its usage is told of, and the layout.
#[derive(Clone, Copy)]
pub(crate) struct Complaint<'a> {
    pub fault: Fault<'a>,
    pub verb: Option<Verb>,
    pub layout: Layout,
}

// A request as far as it is read.
#[derive(Drop)]
struct Reader<'a> {
    // The line's number, or none of the command line; the layout of the answer.
    line: Option<usize>,
    layout: Layout,
    // The command, the one that help is asked on, and the service.
    verb: Option<Verb>,
    topic: Option<Verb>,
    service: Option<Service>,
    options: Options<'a>,
    // The option that waits for its value.
    waiting: Option<Choice>,
    // Whether `--` ended the options, help is asked, a word of the text has come, and that is standard input's.
    ended: bool,
    helps: bool,
    begun: bool,
    input: bool,
}

// Whether a word is an option: a hyphen, and something behind it.
fn is_option(word: &[u8]) -> bool {
    match *word {
        [b'-', next, ..] => next != b' ',
        _ => false,
    }
}

impl<'a> Reader<'a> {
    // Whether the text of a line comes next.
    fn rests(&self) -> bool {
        self.line.is_some()
            && self.verb.is_some_and(Verb::writes)
            && self.service.is_some()
            && !self.begun
            && self.waiting.is_none()
    }

    // The next word, and what is left behind it. The text of a line is all of its rest, unless it is an option.
    fn cut(&self, left: &'a [u8]) -> (&'a [u8], Option<&'a [u8]>)
        ensures { IfSome result.1 (λ rest. length rest.now < length left.now) }
    {
        let mark = if self.line.is_some() { b' ' } else { 0 };
        if self.rests() && (self.ended || !is_option(left)) {
            return (left, None);
        }
        match left.iter().position(|c| *c == mark) {
            Some(at) => (&left[..at], Some(&left[at + 1..])),
            None => (left, None),
        }
    }

    // One more word of the request; in a line an empty one is none, unless it is the text.
    fn take(&mut self, word: &'a [u8], typed: &mut Typed<'_>) -> Result<(), Fault<'a>> {
        if word.is_empty() && self.line.is_some() && !self.rests() {
            return Ok(());
        }
        if let Some(choice) = self.waiting {
            if word.starts_with(b"-") {
                return Err(Fault::NoValue(choice));
            }
            self.waiting = None;
            return self.options.set(choice, word, typed.units);
        }
        if !self.ended && is_option(word) {
            return self.option(word, typed);
        }
        let Some(verb) = self.verb else {
            return self.command(word);
        };
        match verb {
            Verb::Lines => Err(Fault::Many(word)),
            Verb::Help => self.topic(word),
            _ => {
                if self.service.is_none() {
                    self.service = Some(Service::named(word).ok_or(Fault::Service(word))?);
                    Ok(())
                } else {
                    self.text(word, verb, typed)
                }
            }
        }
    }

    // One more option.
    fn option(&mut self, word: &'a [u8], typed: &mut Typed<'_>) -> Result<(), Fault<'a>> {
        let (name, value) = match word.iter().position(|c| *c == b'=') {
            Some(at) => (&word[..at], Some(&word[at + 1..])),
            None => (word, None),
        };
        match (name, value) {
            (b"--help" | b"-h", None) => {
                self.helps = true;
                return Ok(());
            }
            (b"--", None) => {
                self.ended = true;
                return Ok(());
            }
            _ => {}
        }
        let choice = Choice::named(name)
            .filter(|choice| *choice != Choice::Json || value.is_none())
            .ok_or(Fault::NoOption(word))?;
        if self.options.gives(choice) {
            return Err(Fault::Twice(choice));
        }
        if choice == Choice::Json {
            if self.line.is_some() {
                return Err(Fault::Strange(choice));
            }
            self.options.json = true;
            self.layout = Layout::Json;
            return Ok(());
        }
        match value {
            Some(value) => self.options.set(choice, value, typed.units),
            None => {
                self.waiting = Some(choice);
                Ok(())
            }
        }
    }

    // The command.
    fn command(&mut self, word: &'a [u8]) -> Result<(), Fault<'a>> {
        if word.is_empty() {
            return Err(Fault::NoVerb);
        }
        let verb = Verb::named(word).ok_or(Fault::Verb(word))?;
        if self.line.is_some() && !verb.stands_in_line() {
            return Err(Fault::Line(word));
        }
        self.verb = Some(verb);
        self.service = verb.service();
        Ok(())
    }

    // The command that help is asked on.
    fn topic(&mut self, word: &'a [u8]) -> Result<(), Fault<'a>> {
        if self.topic.is_some() {
            return Err(Fault::Many(word));
        }
        self.topic = Some(Verb::named(word).ok_or(Fault::Verb(word))?);
        Ok(())
    }

    // One more word of the text or of the octets.
    fn text(&mut self, word: &'a [u8], verb: Verb, typed: &mut Typed<'_>) -> Result<(), Fault<'a>> {
        if self.input || (verb.writes() && self.begun) {
            return Err(Fault::Many(word));
        }
        if self.begun {
            typed.text.put(b" ");
        }
        typed.text.put(word);
        self.begun = true;
        self.input = self.line.is_none() && !self.ended && matches!(word, b"-");
        if MOST < typed.text.end {
            return Err(Fault::Long);
        }
        Ok(())
    }

    // A word behind a fault: it may still say how the fault is told.
    fn answer_so(&mut self, word: &[u8]) {
        if self.line.is_none() && !self.ended && matches!(word, b"--json") {
            self.layout = Layout::Json;
        }
    }

    // The whole request: whether its words and options suit the command.
    fn settled<'t>(&self, text: &'t Sheet<'_>) -> Result<Asked<'a>, Fault<'t>> {
        if let Some(choice) = self.waiting {
            return Err(Fault::NoValue(choice));
        }
        if self.helps {
            let topic = if self.verb == Some(Verb::Help) {
                self.topic
            } else {
                self.verb
            };
            return Ok(self.asked(Layout::People, Task::Help(topic)));
        }
        let verb = self.verb.ok_or(Fault::NoVerb)?;
        let strange = |choice: &Choice| {
            self.options.gives(*choice) && !verb.takes(*choice, &self.options)
        };
        if let Some(choice) = CHOICES.iter().copied().find(strange) {
            return Err(Fault::Strange(choice));
        }
        match verb {
            Verb::Help => return Ok(self.asked(self.layout, Task::Help(self.topic))),
            Verb::Lines => return Ok(self.asked(self.layout, Task::Lines)),
            _ => {}
        }
        let service = self.service.ok_or(Fault::NoService)?;
        if self.options.units.is_some() && self.begun {
            return Err(Fault::Many(text.written()));
        }
        if self.options.units.is_none() && !self.begun {
            return Err(Fault::Missing);
        }
        if verb.counts() && service == Service::ShortMessage && self.options.count.is_none() {
            return Err(Fault::Count);
        }
        if verb == Verb::JoinParts && self.options.counts.is_none() {
            return Err(Fault::NoCounts);
        }
        let job = Job {
            verb,
            service,
            options: self.options,
        };
        Ok(self.asked(self.layout, Task::Message(job)))
    }

    fn asked(&self, layout: Layout, task: Task<'a>) -> Asked<'a> {
        Asked {
            layout,
            input: self.input,
            task,
        }
    }

    fn complaint<'t>(&self, fault: Fault<'t>) -> Complaint<'t> {
        Complaint {
            fault,
            verb: self.verb,
            layout: self.layout,
        }
    }
}

// Reads a request: words with an octet 0 between them, or in a line with blanks, where a text is the rest of it as it is.
pub(crate) fn read<'a: 't, 't>(
    request: &'a [u8],
    line: Option<usize>,
    layout: Layout,
    typed: &'t mut Typed<'_>,
) -> Result<Asked<'a>, Complaint<'t>> {
    let mut reader = Reader {
        line,
        layout,
        verb: None,
        topic: None,
        service: None,
        options: Options::none(),
        waiting: None,
        ended: false,
        helps: false,
        begun: false,
        input: false,
    };
    let most = if line.is_some() { MOST } else { LONGEST };
    if most < request.len() {
        return Err(reader.complaint(Fault::Long));
    }
    let mut outcome = Ok(());
    let mut rest = request;
    'words: loop {
        let (word, behind) = reader.cut(rest);
        match outcome {
            Ok(()) => outcome = reader.take(word, typed),
            Err(_) => reader.answer_so(word),
        }
        match behind {
            Some(left) => rest = left,
            None => break,
        }
    }
    if let Err(fault) = outcome {
        return Err(reader.complaint(fault));
    }
    match reader.settled(&typed.text) {
        Ok(asked) => Ok(asked),
        Err(fault) => Err(reader.complaint(fault)),
    }
}
