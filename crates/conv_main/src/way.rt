//! What is read, and what is written.
use route_layouts::Layout;

/// How messages stand in a text.
#[derive(Clone, Copy, Debug, PartialEq, Eq)]
pub(crate) enum Form {
    /// In lines, as a script of `routesim` and its transcript have them, among others.
    Lines,
    /// As their bytes, one behind the other, as reads of a routing socket gave them.
    Raw,
}

/// What is read and what is written: messages in this form and of this layout each.
#[derive(Clone, Copy, Debug, PartialEq, Eq)]
pub(crate) struct Way {
    /// The form of what is read.
    pub(crate) read: Form,
    /// The layout of its messages.
    pub(crate) from: Layout,
    /// The form of what is written.
    pub(crate) written: Form,
    /// The layout of its messages.
    pub(crate) to: Layout,
}

/// Where a piece of a text stands.
#[derive(Clone, Copy, Debug, PartialEq, Eq)]
pub(crate) struct Place {
    /// How many messages are before it.
    pub(crate) messages: u64,
    /// How many bytes are before it.
    pub(crate) offset: u64,
}
