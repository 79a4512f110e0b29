//! How much there may be.

/// How many interfaces may be attached.
pub const MOST_INTERFACES: usize = 64;

/// How many addresses may ever be added.
pub const MOST_ADDRESSES: u16 = 65_535;
