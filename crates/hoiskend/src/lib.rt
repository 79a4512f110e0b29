//! The routing core for a program in C: a static library of functions over a handle, and of some that have a message
//! alone: they show it in words, take it apart, and give it in the layout of another system. `include/hoiskend.h` has
//! their types.
#![tactic(auto)]

mod asked;
mod calls;
mod codes;
mod convert;
mod count;
mod counted;
mod given;
mod handle;
mod held;
pub mod laws;
mod parts;
mod request;
mod requests;
mod route;
mod session;
mod show;
mod there;

pub use codes::{ABSENT, BAD, KIND, LENGTH, OVERRUN, VERSION, WIDE};
pub use count::Count;
pub use counted::{Opening, Size};
pub use handle::Handle;
pub use parts::{Address, BYTES_FORM, Header, INET_FORM, LINK_FORM, MASK_FORM};
pub use request::{NO_MASK, Request};
pub use route::{LINK_BYTES, Route};
pub use there::{Entry, Interface, InterfaceAddress, LINK_ADDRESS_BYTES, NAME_BYTES, Socket};
