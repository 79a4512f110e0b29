//! What a command on the table came to, beside the table.

use crate::notice::Notices;
use sock_addrs::Errno;

/// What is told of a command on the table.
#[derive(Drop)]
pub struct Told {
    /// Why it was refused, where it was.
    pub errno: Option<Errno>,
    /// The messages that it made, in their order.
    pub messages: Notices,
}
