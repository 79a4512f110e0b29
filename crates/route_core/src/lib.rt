//! The world of a script: its table of routes, its interfaces and its listeners, and one step for each command.
#![tactic(auto)]

mod addresses;
mod answer;
mod command;
mod dumps;
pub mod laws;
mod losing;
mod messages;
mod outcomes;
mod packets;
mod received;
mod redirects;
mod refusal;
mod replies;
mod request;
mod telling;
mod told;
mod tried;
mod world;
mod writes;
mod written;

pub use answer::{Answer, Choice};
pub use command::{Command, Said};
pub use if_addrs::{AddressTold, Facts, InterfaceTold, Kind, LinkAddress};
pub use listeners::{Queue, Room, SocketTold, first_message};
pub use received::Received;
pub use route_entries::Route;
pub use route_ops::NewGateway;
pub use told::RouteTold;
pub use world::World;
pub use written::{Lent, MOST_WRITTEN, Written};
