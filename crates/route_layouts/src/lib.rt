//! Messages of the routing socket in the layouts of systems of today, and back: 4.4BSD's own, which the other crates
//! read and write, and those of FreeBSD, OpenBSD, NetBSD and macOS. A layout is data, and one function turns a message
//! of any into one of any other.
#![tactic(auto)]

mod address;
mod addresses;
mod change;
mod conversion;
mod fault;
mod fields;
pub mod laws;
mod layout;
mod numbers;
mod order;
mod place;
mod tables;

pub use addresses::{Converted, MOST_CONVERTED};
pub use conversion::convert;
pub use fault::Fault;
pub use fields::{FIELDS, Fields};
pub use layout::{Header, Layout, System};
pub use order::Order;
pub use place::Place;
