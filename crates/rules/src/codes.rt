// The names that the code has for document 01's refusals (specs/Numbers, in the same order): the house's own, and RFC 9114's codes.
ghost use Rattle.std.specs.Prelude.{◌≡◌};
ghost use Rattle.rules.specs.Numbers.{house_number, code_number};
ghost use Rattle.rules.specs.Named.{house_of, code_of};

// The house's own: the call is refused, and that is all.
#[derive(Clone, Copy, Debug, PartialEq, Eq, Drop)]
pub enum House {
    NotOpen,
    NotNext,
    NoRecord,
    SectionDue,
    NoSection,
    Unreadable,
    RoomShort,
    BadValue,
    OtherRow,
}

// The code of a protocol fault: a connection's up to MissingSettings, then a stream's.
#[derive(Clone, Copy, Debug, PartialEq, Eq, Drop)]
pub enum Code {
    StreamCreationError,
    ClosedCriticalStream,
    FrameUnexpected,
    FrameError,
    ExcessiveLoad,
    IdError,
    SettingsError,
    MissingSettings,
    RequestRejected,
    RequestCancelled,
    RequestIncomplete,
    MessageError,
}

impl House {
    pub fn number(self) -> u64
        ensures { result ≡ house_number (house_of self) }
    {
        match self {
            House::NotOpen => crate::NOT_OPEN,
            House::NotNext => crate::NOT_NEXT,
            House::NoRecord => crate::NO_RECORD,
            House::SectionDue => crate::SECTION_DUE,
            House::NoSection => crate::NO_SECTION,
            House::Unreadable => crate::UNREADABLE,
            House::RoomShort => crate::ROOM_SHORT,
            House::BadValue => crate::BAD_VALUE,
            House::OtherRow => crate::OTHER_ROW,
        }
    }
}

impl Code {
    pub fn number(self) -> u64
        ensures { result ≡ code_number (code_of self) }
    {
        match self {
            Code::StreamCreationError => crate::STREAM_CREATION_ERROR,
            Code::ClosedCriticalStream => crate::CLOSED_CRITICAL_STREAM,
            Code::FrameUnexpected => crate::FRAME_UNEXPECTED,
            Code::FrameError => crate::FRAME_ERROR,
            Code::ExcessiveLoad => crate::EXCESSIVE_LOAD,
            Code::IdError => crate::ID_ERROR,
            Code::SettingsError => crate::SETTINGS_ERROR,
            Code::MissingSettings => crate::MISSING_SETTINGS,
            Code::RequestRejected => crate::REQUEST_REJECTED,
            Code::RequestCancelled => crate::REQUEST_CANCELLED,
            Code::RequestIncomplete => crate::REQUEST_INCOMPLETE,
            Code::MessageError => crate::MESSAGE_ERROR,
        }
    }
}
