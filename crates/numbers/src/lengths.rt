// Lengths in bytes.

// A PDU's header: type, reserved byte, four length bytes.
pub const HEADER: usize = 6;
// The greatest PDU-length, for all types.
pub const LONGEST: usize = 16384;
// A gather buffer that has room for any PDU: HEADER and LONGEST.
pub const BUFFER: usize = 16390;
// An RJ, a RELEASE or an ABORT, whole.
pub const TEN: usize = 10;
// A title.
pub const TITLE: usize = 16;
// A record of a context sheet.
pub const RECORD: usize = 132;
// A record of a role sheet.
pub const ROLE: usize = 68;
