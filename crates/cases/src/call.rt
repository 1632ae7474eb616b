// The calls by their names (docs/CASES.md, "Calls").
use crate::lent::{Lent, Verdict};
use crate::text::Text;
use crate::{broadcast, long_text, messages, metering};
use wikuay::meters;

#[derive(Clone, Copy)]
pub(crate) enum Call {
    ReadCoding,
    WriteCoding,
    HoldsText,
    Pack,
    Unpack,
    TextToSeptets,
    SeptetsToText,
    ReadMessage,
    WriteMessage,
    ReadHeader,
    CountPages,
    BuildPage,
    WritePages,
    JoinPages,
    NewMeter,
    RoomLeft,
    UnitAdded,
    UnitTakenBack,
    MeterCleared,
    ReadPart,
    CountParts,
    WritePart,
    WriteParts,
    JoinParts,
}

static CALLS: [(&[u8], Call); 24] = [
    (b"read-coding", Call::ReadCoding),
    (b"write-coding", Call::WriteCoding),
    (b"holds-text", Call::HoldsText),
    (b"pack", Call::Pack),
    (b"unpack", Call::Unpack),
    (b"text-to-septets", Call::TextToSeptets),
    (b"septets-to-text", Call::SeptetsToText),
    (b"read-message", Call::ReadMessage),
    (b"write-message", Call::WriteMessage),
    (b"read-header", Call::ReadHeader),
    (b"count-pages", Call::CountPages),
    (b"build-page", Call::BuildPage),
    (b"write-pages", Call::WritePages),
    (b"join-pages", Call::JoinPages),
    (b"new-meter", Call::NewMeter),
    (b"room-left", Call::RoomLeft),
    (b"unit-added", Call::UnitAdded),
    (b"unit-taken-back", Call::UnitTakenBack),
    (b"meter-cleared", Call::MeterCleared),
    (b"read-part", Call::ReadPart),
    (b"count-parts", Call::CountParts),
    (b"write-part", Call::WritePart),
    (b"write-parts", Call::WriteParts),
    (b"join-parts", Call::JoinParts),
];

impl Call {
    // The call of that name.
    pub(crate) fn named(name: &[u8]) -> Option<Call> {
        let (_, call) = CALLS.iter().find(|(its, _)| *its == name)?;
        Some(*call)
    }

    // Runs the case on the library; None where the line is no case.
    pub(crate) fn run(self, case: &mut Text, lent: &mut Lent) -> Option<Verdict> {
        match self {
            Call::ReadCoding => messages::read_coding(case, lent),
            Call::WriteCoding => messages::write_coding(case, lent),
            Call::HoldsText => messages::holds_text(case, lent),
            Call::Pack => messages::pack(case, lent),
            Call::Unpack => messages::unpack(case, lent),
            Call::TextToSeptets => messages::text_to_septets(case, lent),
            Call::SeptetsToText => messages::septets_to_text(case, lent),
            Call::ReadMessage => messages::read_message(case, lent),
            Call::WriteMessage => messages::write_message(case, lent),
            Call::ReadHeader => broadcast::read_header(case, lent),
            Call::CountPages => broadcast::count_pages(case, lent),
            Call::BuildPage => broadcast::build_page(case, lent),
            Call::WritePages => broadcast::write_pages(case, lent),
            Call::JoinPages => broadcast::join_pages(case, lent),
            Call::NewMeter => metering::new_meter(case, lent),
            Call::RoomLeft => metering::key(case, lent, meters::wikuay_room_left),
            Call::UnitAdded => metering::unit_key(case, lent, meters::wikuay_unit_added),
            Call::UnitTakenBack => metering::unit_key(case, lent, meters::wikuay_unit_taken_back),
            Call::MeterCleared => metering::key(case, lent, meters::wikuay_meter_cleared),
            Call::ReadPart => long_text::read_part(case, lent),
            Call::CountParts => long_text::count_parts(case, lent),
            Call::WritePart => long_text::write_part(case, lent),
            Call::WriteParts => long_text::write_parts(case, lent),
            Call::JoinParts => long_text::join_parts(case, lent),
        }
    }
}
