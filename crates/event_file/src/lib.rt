//! A script's lines and the answers to them: bytes in, commands; answers, bytes out.
#![tactic(auto)]

mod answer_text;
mod answers;
mod bad;
mod choices;
mod counted;
mod grammar;
mod hexadecimal;
pub mod laws;
mod line_buffer;
mod numbers;
mod output;
mod route_line;
mod route_words;
mod search;
mod texts;
mod verbs;
mod words;

pub use answer_text::give_text;
pub use answers::{TEXT_ROOM, write_answer, write_command_answer};
pub use bad::Bad;
pub use counted::Counted;
pub use grammar::{read_line, read_said};
pub use line_buffer::{LineBuffer, is_passed, kept_is_passed};
pub use numbers::read_inet;
pub use output::{Stopped, write_bytes};
pub use route_words::{MetricWords, RouteWords, Verb, compose};
