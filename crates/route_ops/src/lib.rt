//! Requests on the routing table, and look-ups in it: what rtsock.c and route.c of 4.4BSD do with routes.
#![tactic(auto)]

mod adding;
mod addressing;
mod changing;
mod counting;
mod deleting;
pub mod laws;
mod leading;
mod looking;
mod losses;
mod notice;
mod placing;
mod reading;
mod redirecting;
mod spare;
mod told;

pub use adding::{Added, NewRoute, add_planned, check_add, plan_add, request_add};
pub use addressing::{route_of_address, withdraw_route};
pub use changing::{Change, change_planned, plan_change, request_change, request_lock};
pub use counting::{count_use, use_best};
pub use deleting::{request_delete, request_get};
pub use looking::{Looked, look_up, resolve, settle_gateway};
pub use losses::losing;
pub use notice::{MOST_NOTICES, Notice, Notices};
pub use reading::route_at;
pub use redirecting::{NewGateway, redirect};
pub use spare::{Spare, finish, prepare, prepare_rooms};
pub use told::Told;
