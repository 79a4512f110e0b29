//! The flags of a room's links, each a bit of one number.
ghost use Rattle.std.specs.Prelude.{◌≡◌, ℕ, ◌<◌, ◌≤◌, true, false};
ghost use Rattle.radix_nodes.specs.Flags.{has, turned};

/// The flags of a bit node have the lowest bits. Whether the room is one in use.
pub(crate) const IS_BIT_NODE: u16 = 0;

/// Whether the node beneath it of the keys with a 0 is a leaf.
pub(crate) const ZERO_IS_LEAF: u16 = 1;

/// Whether that of the keys with a 1 is.
pub(crate) const ONE_IS_LEAF: u16 = 2;

/// Whether there is a bit node above it.
pub(crate) const HAS_BIT_ABOVE: u16 = 3;

/// Whether masks are listed at it.
pub(crate) const HAS_MASKS: u16 = 4;

/// Those of a leaf are next. Whether it names a bit node above.
pub(crate) const HAS_ABOVE: u16 = 5;

/// Whether its chain has a next member.
pub(crate) const HAS_NEXT: u16 = 6;

/// Whether its chain has a previous one.
pub(crate) const HAS_PREVIOUS: u16 = 7;

/// Those of a mask node are the highest. Whether the room is one that is listed.
pub(crate) const IS_MASK_NODE: u16 = 8;

/// Whether its list has a next mask.
pub(crate) const HAS_NEXT_MASK: u16 = 9;

/// What the lowest flag of a leaf is worth in the number.
const LEAF: u16 = 32;

/// What the lowest flag of a mask node is worth.
const MASK_NODE: u16 = 256;

/// Flags, in two bytes.
#[derive(Clone, Copy)]
pub(crate) struct Flags {
    bits: u16,
}

#[tactic(auto, unfolding(crate::specs::Flags::has))]
impl Flags {
    /// None of them.
    pub(crate) fn none() -> Flags
        ensures { (k : ℕ) → has result k ≡ false }
    {
        Flags { bits: 0 }
    }

    /// Whether a flag is set.
    pub(crate) fn has(self, flag: u16) -> bool
        requires { flag < 16 }
        ensures { result ≡ has self flag }
    {
        self.bits >> flag & 1 == 1
    }

    /// Turns the lowest of them.
    pub(crate) fn turn(&mut self)
        ensures { self.new ≡ turned self.old }
    {
        self.bits ^= 1;
    }

    /// The same but for those of the leaf.
    pub(crate) fn with_leaf(self, above: bool, next: bool, previous: bool) -> Flags
        ensures above { has result HAS_ABOVE ≡ above }
        ensures next { has result HAS_NEXT ≡ next }
        ensures previous { has result HAS_PREVIOUS ≡ previous }
        ensures bit_node { (k : ℕ) → k < HAS_ABOVE → has result k ≡ has self k }
        ensures mask_node { (k : ℕ) → IS_MASK_NODE ≤ k → has result k ≡ has self k }
    {
        let leaf = u16::from(above) + 2 * u16::from(next) + 4 * u16::from(previous);
        Flags {
            bits: self.bits / MASK_NODE * MASK_NODE + (leaf * LEAF + self.bits % LEAF),
        }
    }

    /// The same but for those of a bit node in use.
    pub(crate) fn with_bit_node(
        self,
        zero_is_leaf: bool,
        one_is_leaf: bool,
        above: bool,
        masks: bool,
    ) -> Flags
        ensures used { has result IS_BIT_NODE ≡ true }
        ensures zero { has result ZERO_IS_LEAF ≡ zero_is_leaf }
        ensures one { has result ONE_IS_LEAF ≡ one_is_leaf }
        ensures above { has result HAS_BIT_ABOVE ≡ above }
        ensures masks { has result HAS_MASKS ≡ masks }
        ensures others { (k : ℕ) → HAS_ABOVE ≤ k → has result k ≡ has self k }
    {
        let beneath = 2 * u16::from(zero_is_leaf) + 4 * u16::from(one_is_leaf);
        let names = 8 * u16::from(above) + 16 * u16::from(masks);
        Flags {
            bits: self.bits / LEAF * LEAF + (1 + beneath + names),
        }
    }

    /// The same but that there is no bit node in use.
    pub(crate) fn without_bit_node(self) -> Flags
        ensures used { has result IS_BIT_NODE ≡ false }
        ensures others { (k : ℕ) → HAS_ABOVE ≤ k → has result k ≡ has self k }
    {
        Flags {
            bits: self.bits / LEAF * LEAF,
        }
    }

    /// The same but for those of a mask node that is listed.
    pub(crate) fn with_mask_node(self, next: bool) -> Flags
        ensures listed { has result IS_MASK_NODE ≡ true }
        ensures next { has result HAS_NEXT_MASK ≡ next }
        ensures others { (k : ℕ) → k < IS_MASK_NODE → has result k ≡ has self k }
    {
        Flags {
            bits: (1 + 2 * u16::from(next)) * MASK_NODE + self.bits % MASK_NODE,
        }
    }

    /// The same but that no mask node is listed.
    pub(crate) fn without_mask_node(self) -> Flags
        ensures listed { has result IS_MASK_NODE ≡ false }
        ensures others { (k : ℕ) → k < IS_MASK_NODE → has result k ≡ has self k }
    {
        Flags {
            bits: self.bits % MASK_NODE,
        }
    }
}
