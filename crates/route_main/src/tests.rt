//! Whole runs and answers, and what the script's reading and writing does where a read or a write moves few bytes or
//! fails.

mod answers;
mod counting;
mod fakes;
mod runs;
