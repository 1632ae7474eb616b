// The commands, and the services, by the words that name them.
use crate::options::{Choice, Options};

#[derive(Clone, Copy, PartialEq, Eq)]
pub(crate) enum Verb {
    Write,
    Read,
    Coding,
    Explain,
    Pack,
    Unpack,
    Room,
    Pages,
    Join,
    Header,
    Parts,
    Part,
    JoinParts,
    Lines,
    Help,
}

// In the order of the numbers that the C interface gives them, which are handed to it.
#[derive(Clone, Copy, PartialEq, Eq)]
pub(crate) enum Service {
    ShortMessage,
    Broadcast,
    Ussd,
    OldPage,
}

impl Verb {
    pub(crate) fn named(word: &[u8]) -> Option<Verb> {
        match word {
            b"write" => Some(Verb::Write),
            b"read" => Some(Verb::Read),
            b"coding" => Some(Verb::Coding),
            b"explain" => Some(Verb::Explain),
            b"pack" => Some(Verb::Pack),
            b"unpack" => Some(Verb::Unpack),
            b"room" => Some(Verb::Room),
            b"pages" => Some(Verb::Pages),
            b"join" => Some(Verb::Join),
            b"header" => Some(Verb::Header),
            b"parts" => Some(Verb::Parts),
            b"part" => Some(Verb::Part),
            b"join-parts" => Some(Verb::JoinParts),
            b"lines" => Some(Verb::Lines),
            b"help" => Some(Verb::Help),
            _ => None,
        }
    }

    // The service of a command that has no word for it: the text or the octets come next.
    pub(crate) fn service(self) -> Option<Service> {
        match self {
            Verb::Pages | Verb::Join | Verb::Header => Some(Service::Broadcast),
            Verb::Parts | Verb::Part | Verb::JoinParts => Some(Service::ShortMessage),
            _ => None,
        }
    }

    // Whether a text is written: one word, or all of the rest of a line.
    pub(crate) fn writes(self) -> bool {
        matches!(self, Verb::Write | Verb::Room | Verb::Pages | Verb::Parts)
    }

    // Whether a short message is read, with its length count.
    pub(crate) fn counts(self) -> bool {
        matches!(self, Verb::Read | Verb::Explain | Verb::Unpack | Verb::Part)
    }

    // Whether it may stand in a line.
    pub(crate) fn stands_in_line(self) -> bool {
        !matches!(self, Verb::Explain | Verb::Lines | Verb::Help)
    }

    // Whether the command takes an option. A page alone comes by value, and takes no room.
    pub(crate) fn takes(self, choice: Choice, given: &Options<'_>) -> bool {
        match choice {
            Choice::Coding => matches!(
                self,
                Verb::Write
                    | Verb::Read
                    | Verb::Explain
                    | Verb::Pages
                    | Verb::Parts
                    | Verb::Part
                    | Verb::JoinParts
            ),
            Choice::Count => self.counts(),
            Choice::Units => self.writes(),
            Choice::Room => match self {
                Verb::Write | Verb::Parts => true,
                Verb::Pages => given.page.is_none(),
                _ => false,
            },
            Choice::Sequence | Choice::Identifier | Choice::Page => self == Verb::Pages,
            Choice::Letters => matches!(self, Verb::Write | Verb::Pages),
            Choice::Reference | Choice::Part => self == Verb::Parts,
            Choice::Counts => self == Verb::JoinParts,
            Choice::Mark => self == Verb::Part,
            Choice::Json => !matches!(self, Verb::Explain | Verb::Help),
        }
    }
}

impl Service {
    pub(crate) fn named(word: &[u8]) -> Option<Service> {
        match word {
            b"sms" => Some(Service::ShortMessage),
            b"cbs" => Some(Service::Broadcast),
            b"ussd" => Some(Service::Ussd),
            b"old" => Some(Service::OldPage),
            _ => None,
        }
    }

    pub(crate) fn number(self) -> u32 {
        self as u32
    }

    // The octet of plain 7-bit text: the coding where none is given.
    pub(crate) fn plain_coding(self) -> u8 {
        match self {
            Service::ShortMessage | Service::OldPage => 0,
            Service::Broadcast | Service::Ussd => 15,
        }
    }
}
