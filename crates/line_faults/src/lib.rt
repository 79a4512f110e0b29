//! What is wrong with a line that the grammar of scripts doesn't have: which word, and what is wanted in its place.
#![tactic(auto)]

mod faults;
mod help;
mod kinds;
pub mod laws;
mod options;
mod probes;
mod verbs;
mod wanted;
mod words;

pub use faults::{LineFault, fault_of};
pub use help::put_help_on;
pub use kinds::WordKind;
pub use options::RouteOption;
pub use verbs::{Verb, put_usages, verb_of};
pub use wanted::Wanted;
pub use words::word_at;
