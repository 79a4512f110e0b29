/// Where an address is kept.
#[derive(Clone, Copy)]
pub(crate) struct Home {
    /// The place of its interface.
    pub(crate) interface: u8,
    /// Its place among the addresses of that interface.
    pub(crate) address: u16,
}
