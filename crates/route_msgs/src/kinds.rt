//! The version and the types of a message, as <net/route.h> names them.

/// The version of every message.
pub const RTM_VERSION: u8 = 3;

/// A route was added, or is to be.
pub const RTM_ADD: u8 = 1;
/// A route was removed, or is to be.
pub const RTM_DELETE: u8 = 2;
/// A route was changed, or is to be.
pub const RTM_CHANGE: u8 = 3;
/// A route as it stands, or the wish to see it.
pub const RTM_GET: u8 = 4;
/// The route is suspected to lead nowhere.
pub const RTM_LOSING: u8 = 5;
/// A redirect came; the errno says whether it was followed.
pub const RTM_REDIRECT: u8 = 6;
/// A look-up found no route, or one whose clone could not be made.
pub const RTM_MISS: u8 = 7;
/// Metrics were locked, or are to be.
pub const RTM_LOCK: u8 = 8;
/// A cloned route wants its link-layer address.
pub const RTM_RESOLVE: u8 = 11;
/// An interface has a new address.
pub const RTM_NEWADDR: u8 = 12;
/// An interface lost an address.
pub const RTM_DELADDR: u8 = 13;
