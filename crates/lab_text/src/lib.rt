//! Texts for people, which grow piece by piece: bytes, numbers, addresses, networks, and columns of them.
#![tactic(auto)]

mod text;

pub use text::Text;
