//! Network interfaces and their IPv4 addresses, and the searches among them.
#![tactic(auto)]

mod address;
mod home;
mod interface;
mod interfaces;
mod kind;
pub mod laws;
pub mod limits;
mod link_address;
mod marked_inet;
mod reference;
mod searches;
mod told;

pub use interfaces::Interfaces;
pub use kind::Kind;
pub use link_address::LinkAddress;
pub use reference::{Facts, IfaRef};
pub use told::{AddressTold, InterfaceTold};
