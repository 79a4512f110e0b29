//! The lines of a reader, one after another, each as soon as it has come.
#![tactic(auto)]

mod fault;
mod reader;

pub use fault::Fault;
pub use reader::{LineReader, Next, READ_ROOM, newline_in};
