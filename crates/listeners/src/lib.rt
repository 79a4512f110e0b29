//! Open routing sockets and the messages that wait for them.
#![tactic(auto)]

mod cutting;
pub mod laws;
pub mod limits;
mod listeners;
mod queue;
mod room;
mod socket;
mod told;

pub use cutting::first_message;
pub use listeners::Listeners;
pub use queue::Queue;
pub use room::Room;
pub use told::SocketTold;
