//! Laws of faults: each function does nothing, and its contract is the law.
ghost use Rattle.line_faults.specs.Laws.{FaultIsAtAWord, FaultlessIsCommand, FaultyWordIsWrong, WordsBeforeAreRight};

/// A line has no fault just where the grammar has it.
pub fn faultless_is_command()
    ensures { FaultlessIsCommand }
{}

/// A fault is at a word of the line, or one past its last; a word that stands there isn't as it is wanted, and the
/// words before it have no fault but that more is to come.
pub fn faulty_word_is_wrong()
    ensures place { FaultIsAtAWord }
    ensures wrong { FaultyWordIsWrong }
    ensures before { WordsBeforeAreRight }
{}
