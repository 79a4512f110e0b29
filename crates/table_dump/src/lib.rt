//! Dumps of a routing table: its routes as the messages that sysctl(3) gives for NET_RT_DUMP and NET_RT_FLAGS.
#![tactic(auto)]

mod dump;
pub mod laws;
mod shown;

pub use dump::{dump_into, total};
