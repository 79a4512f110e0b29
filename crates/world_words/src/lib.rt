//! What commands are answered, and what is in a world, in words for people.
#![tactic(auto)]

mod agreeing;
mod answers;
mod columns;
mod errnos;
mod faults;
mod flags;
mod interfaces;
pub mod laws;
mod letters;
mod reasons;
mod sockets;
mod table;

pub use agreeing::put_agreeing;
pub use answers::put_answer;
pub use flags::put_flag_names;
pub use interfaces::put_interfaces;
pub use sockets::put_sockets;
pub use table::put_table;
