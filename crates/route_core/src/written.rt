ghost use Rattle.std.specs.Prelude.{◌≡◌, ◌≤◌, length};
ghost use Rattle.std.specs.Option.{SomeIff};

use arrayvec::ArrayVec;
use std::marker::Model;

/// The most bytes of a write: as many as a line has room for.
pub const MOST_WRITTEN: usize = 8246;

/// The bytes of a write: at most `MOST_WRITTEN`. A contract sees the bytes.
#[derive(Debug, Drop)]
pub struct Written {
    bytes: ArrayVec<u8, MOST_WRITTEN>,
}

impl Model for Written {
    ghost use Rattle.std.specs.Prelude.{ℕ, List, ◌≤◌, length};
    ghost use Rattle.route_core.specs.declared.written.TheConstants.{MOST_WRITTEN};

    ghost Value = { List ℕ };

    ghost view = { λ w. w.bytes.items };

    ghost invariant = { λ w. length w.bytes.items ≤ MOST_WRITTEN };
}

impl Written {
    /// A write of these bytes, or `None` where they are more than `MOST_WRITTEN`.
    pub fn new(bytes: &[u8]) -> Option<Written>
        ensures { SomeIff result (length bytes.now ≤ MOST_WRITTEN) bytes.now }
    {
        let bytes = ArrayVec::try_from(bytes).ok()?;
        Some(Written { bytes })
    }

    /// Its bytes, at most `MOST_WRITTEN` of them.
    pub fn as_slice(&self) -> &[u8]
        ensures bytes { result.now ≡ self.now }
        ensures most { length self.now ≤ MOST_WRITTEN }
    {
        self.bytes.as_slice()
    }

    /// The bytes, lent.
    pub(crate) fn lent(&self) -> Lent<'_>
        ensures { result ≡ self.now }
    {
        Lent {
            bytes: self.as_slice(),
        }
    }
}

/// The bytes of a write, as `Written`, that lie elsewhere. A contract sees the bytes.
#[derive(Debug, Drop)]
pub struct Lent<'a> {
    bytes: &'a [u8],
}

impl<'a> Model for Lent<'a> {
    ghost use Rattle.std.specs.Prelude.{ℕ, List, ◌≤◌, length};
    ghost use Rattle.route_core.specs.declared.written.TheConstants.{MOST_WRITTEN};

    ghost Value = { List ℕ };

    ghost view = { λ w. w.bytes.now };

    ghost invariant = { λ w. length w.bytes.now ≤ MOST_WRITTEN };
}

impl<'a> Lent<'a> {
    /// A write of these bytes, or `None` where they are more than `MOST_WRITTEN`.
    pub fn new(bytes: &'a [u8]) -> Option<Lent<'a>>
        ensures { SomeIff result (length bytes.now ≤ MOST_WRITTEN) bytes.now }
    {
        if bytes.len() > MOST_WRITTEN {
            return None;
        }
        Some(Lent { bytes })
    }

    /// Its bytes, at most `MOST_WRITTEN` of them.
    pub fn as_slice(&self) -> &[u8]
        ensures bytes { result.now ≡ self.now }
        ensures most { length self.now ≤ MOST_WRITTEN }
    {
        self.bytes
    }

    /// The bytes themselves.
    pub(crate) fn written(&self) -> Written
        ensures { result ≡ self.now }
    {
        Written {
            bytes: ArrayVec::try_from(self.bytes).unwrap(),
        }
    }
}
