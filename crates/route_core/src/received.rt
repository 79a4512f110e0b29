ghost use Rattle.std.specs.Prelude.{◌≡◌};
ghost use Rattle.listeners.specs.Queue.{cut, AreMessages};
ghost use Rattle.route_core.specs.Held.{held_bytes};

use std::marker::Model;

/// Messages that a socket read, which are lent, or those of a dump, as bytes: whole messages, one after another, each
/// of which begins with its length, two bytes, the high one first. A contract sees the list of messages.
#[derive(Debug, Drop)]
pub struct Received<'a> {
    bytes: Held<'a>,
}

/// Bytes that lie elsewhere, or here.
#[derive(Debug, Drop)]
enum Held<'a> {
    Lent(&'a [u8]),
    Owned(Vec<u8>),
}

impl<'a> Held<'a> {
    fn as_slice(&self) -> &[u8]
        ensures { result.now ≡ held_bytes self.now }
    {
        match self {
            Held::Lent(bytes) => bytes,
            Held::Owned(bytes) => bytes.as_slice(),
        }
    }
}

impl<'a> Model for Received<'a> {
    ghost use Rattle.std.specs.Prelude.{ℕ, List};
    ghost use Rattle.listeners.specs.Queue.{cut, AreMessages};
    ghost use Rattle.route_core.specs.Held.{held_bytes};

    ghost Value = { List (List ℕ) };

    ghost view = { λ r. cut (held_bytes r.bytes) };

    ghost invariant = { λ r. AreMessages (held_bytes r.bytes) };
}

impl<'a> Received<'a> {
    /// The messages that `bytes` are cut into.
    pub fn new(bytes: Vec<u8>) -> Received<'a>
        requires { AreMessages bytes.items }
        ensures { result ≡ cut bytes.items }
    {
        Received {
            bytes: Held::Owned(bytes),
        }
    }

    /// The messages that these bytes are cut into, which stay where they are.
    pub fn lent(bytes: &'a [u8]) -> Received<'a>
        requires { AreMessages bytes.now }
        ensures { result ≡ cut bytes.now }
    {
        Received {
            bytes: Held::Lent(bytes),
        }
    }

    /// Their bytes.
    pub fn as_bytes(&self) -> &[u8]
        ensures whole { AreMessages result.now }
        ensures messages { cut result.now ≡ self.now }
    {
        self.bytes.as_slice()
    }
}
