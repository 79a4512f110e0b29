use arrayvec::ArrayVec;

/// The most bytes of a message that is made, its header and its addresses together.
pub const MOST_MADE: usize = 256;

/// A message that is made: its bytes.
pub type Message = ArrayVec<u8, MOST_MADE>;
