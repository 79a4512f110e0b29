//! The families of addresses, as <sys/socket.h> names them.

/// IPv4 addresses (`struct sockaddr_in`).
pub const AF_INET: u8 = 2;
/// Link-layer addresses (`struct sockaddr_dl`).
pub const AF_LINK: u8 = 18;
