//! Messages of the routing socket as people read them, in the way of `route -n monitor`: the fields of the header by
//! their names, and each address on a line of its own. A text tells all bytes of its message.
#![tactic(auto)]

mod addresses;
mod headers;
mod hexadecimal;
pub mod laws;
mod link;
mod names;
mod pages;
mod parts;
mod room;
mod rows;
mod texts;

pub use parts::{MessageHeader, address_of, fault_of, header_of};
pub use texts::{text_of, text_of_counted};
