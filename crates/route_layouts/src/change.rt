ghost use Rattle.std.specs.Prelude.{◌≡◌};
ghost use Rattle.route_layouts.specs.Conversion.{change_of};

use crate::Layout;

/// How addresses change from one layout to another.
#[derive(Clone, Copy, Debug, PartialEq, Eq)]
pub(crate) struct Change {
    /// The bytes of a word in the one layout.
    pub(crate) from_word: usize,
    /// The bytes of a word in the other.
    pub(crate) to_word: usize,
    /// Whether the bytes of a number change their order.
    pub(crate) swaps: bool,
    /// The most bytes of a link-layer address in the other.
    pub(crate) most_link: usize,
    /// The least bytes in the other of a mask that has five and more.
    pub(crate) least_mask: u8,
}

impl Change {
    /// The change from the one layout to the other.
    pub(crate) fn between(from: &Layout, to: &Layout) -> Change
        ensures { result ≡ change_of from.now to.now }
    {
        Change {
            from_word: from.word,
            to_word: to.word,
            swaps: from.order != to.order,
            most_link: to.most_link,
            least_mask: to.least_mask,
        }
    }
}
