//! Forms of a script's lines that are easier on people: flags by their names, and a dump of all there is room for. The
//! plain line, which routesim takes, is made of them.
#![tactic(auto)]

pub mod laws;
mod names;
mod plain;
mod words;

pub use names::{FLAG_NAMES, flags_named};
pub use plain::put_plain;
