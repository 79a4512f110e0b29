//! Laws of texts: each function does nothing, and its contract is the law.
ghost use Rattle.message_text.specs.Laws.{TextsAreLines, TextsTellTheirBytes};

/// A text tells its bytes: whatever bytes have one text are the same.
pub fn texts_tell_their_bytes()
    ensures { TextsTellTheirBytes }
{}

/// A text is lines of printed ASCII, and ends in a newline.
pub fn texts_are_lines()
    ensures { TextsAreLines }
{}
