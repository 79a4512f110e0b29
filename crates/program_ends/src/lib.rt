//! What the programs share: the words of their command lines, the outcomes of their runs, and what a caller is told of
//! either.
#![tactic(auto)]

mod ending;
mod outcome;
mod refusal;
mod words;

pub use ending::end;
pub use outcome::{Outcome, fault_text, status};
pub use refusal::{Refusal, refusal_status, refusal_text};
pub use words::{file_named, words_of};
