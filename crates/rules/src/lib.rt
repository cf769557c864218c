// The rules are in specs/. Here are the names that the code has for document 01's numbers (specs/Numbers, in the same order).
#![tactic(auto)]

pub mod codes;
pub mod reasons;

// Constants, for a host's report and a connection's code are numbers (include/eistulko.h), and any number can stand in lent memory (docs/DECISIONS, N14).
pub const ACCEPTED: u64 = 0;

pub const NOT_OPEN: u64 = 1;

pub const NOT_NEXT: u64 = 2;

pub const NO_RECORD: u64 = 3;

pub const SECTION_DUE: u64 = 4;

pub const NO_SECTION: u64 = 5;

pub const UNREADABLE: u64 = 6;

pub const ROOM_SHORT: u64 = 7;

pub const BAD_VALUE: u64 = 8;

pub const OTHER_ROW: u64 = 9;

pub const STREAM_CREATION_ERROR: u64 = 0x0103;

pub const CLOSED_CRITICAL_STREAM: u64 = 0x0104;

pub const FRAME_UNEXPECTED: u64 = 0x0105;

pub const FRAME_ERROR: u64 = 0x0106;

pub const EXCESSIVE_LOAD: u64 = 0x0107;

pub const ID_ERROR: u64 = 0x0108;

pub const SETTINGS_ERROR: u64 = 0x0109;

pub const MISSING_SETTINGS: u64 = 0x010a;

pub const REQUEST_REJECTED: u64 = 0x010b;

pub const REQUEST_CANCELLED: u64 = 0x010c;

pub const REQUEST_INCOMPLETE: u64 = 0x010d;

pub const MESSAGE_ERROR: u64 = 0x010e;

// What a call reports: an event of its report (docs/DECISIONS, N13). A fault and the parts of a kept payload are reported inside the engine alone.
pub const NOTHING: u64 = 0;

pub const CONTENT: u64 = 1;

pub const SECTION: u64 = 2;

pub const SECTION_END: u64 = 3;

pub const FAULT: u64 = 4;

pub const KEPT: u64 = 5;

pub const KEPT_PART: u64 = 6;

pub const QPACK: u64 = 7;

pub const SETTINGS: u64 = 8;

pub const GOAWAY: u64 = 9;

pub const MAX_PUSH_ID: u64 = 10;

pub const WHOLE: u64 = 11;

pub const FREED: u64 = 12;
