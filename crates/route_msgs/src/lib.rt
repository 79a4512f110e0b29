//! Messages of the routing socket, after route(4) and <net/route.h> of 4.4BSD: a header, and behind it the addresses
//! that the header names, each in whole words of four bytes. All numbers are written highest byte first.
#![tactic(auto)]

mod addr_info;
pub mod bits;
mod fields;
pub mod flags;
mod header;
pub mod inits;
pub mod kinds;
pub mod laws;
mod message;
mod metrics;
mod parsed;
mod patches;
pub mod places;
mod putting;
mod reading;
mod sockaddr;
mod writing;

pub use addr_info::AddrInfo;
pub use header::{Header, IfaHeader, ifa_flags};
pub use message::{MOST_MADE, Message};
pub use metrics::Metrics;
pub use parsed::{MsgErr, Parsed, Slot};
pub use patches::{ERRNO_OFFSET, FLAGS_OFFSET, PID_OFFSET, set_errno, set_flags, set_pid};
pub use putting::{ADDRESSES_OFFSET, gate_bit, mask_bit, put, put_gate, put_inet, put_mask};
pub use reading::{read_header, read_message};
pub use sockaddr::Sockaddr;
pub use writing::{
    put_route_header, put_route_msg, route_msg_size, write_ifa_msg, write_route_msg,
};
