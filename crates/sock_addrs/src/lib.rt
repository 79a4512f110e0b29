//! Addresses as routing messages write them: names, IPv4 addresses, link-layer addresses and masks, and the errnos
//! that a routing socket answers.
#![tactic(auto)]

mod bad_addr;
mod errno;
pub mod families;
pub mod flags;
mod gate;
mod inet;
pub mod laws;
mod link;
mod name;
mod reading;
mod rounding;
mod writing;

pub use bad_addr::BadAddr;
pub use errno::Errno;
pub use gate::Gate;
pub use inet::Inet;
pub use link::Link;
pub use name::Name;
pub use reading::{family_of, read_gate, read_inet, read_mask};
pub use rounding::round;
pub use writing::{write_inet, write_link, write_mask};
