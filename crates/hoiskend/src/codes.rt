//! The codes of calls that are no errno.

/// The code of a line that the grammar doesn't have: apart from every errno.
pub const BAD: u32 = 256;

/// The code of a message without a counterpart: its type has none.
pub const KIND: u32 = 257;
/// The code of a message that can't be taken apart or converted: a length is wrong.
pub const LENGTH: u32 = 258;
/// The code of a message that can't be taken apart or converted: it is of another version.
pub const VERSION: u32 = 259;
/// The code of a message that can't be taken apart or converted: an address passes its end.
pub const OVERRUN: u32 = 260;
/// The code of a message without a counterpart: a number or an address is too wide.
pub const WIDE: u32 = 261;
/// The code of a message whose address isn't there.
pub const ABSENT: u32 = 262;
