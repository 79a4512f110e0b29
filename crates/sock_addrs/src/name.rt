ghost use Rattle.std.specs.Prelude.{◌≡◌, ℕ, ◌≤◌, bytes_eq, length};
ghost use Rattle.std.specs.Option.{SomeIff};

use std::marker::Model;

/// The name of an interface or the id of a socket: 1 to 8 bytes. A contract sees the bytes.
#[derive(Clone, Copy, Debug, PartialEq, Eq)]
pub struct Name {
    len: u8,
    bytes: [u8; 8],
}

impl Model for Name {
    ghost use Rattle.std.specs.Prelude.{ℕ, List, ◌≤◌, take, length};

    ghost Value = { List ℕ };

    ghost use Rattle.sock_addrs.specs.Padded.{IsPadded, padded_to};
    ghost use Rattle.sock_addrs.specs.Name.{name_again};

    ghost view = { λ n. take n.len n.bytes };

    ghost invariant = { λ n. (1 ≤ n.len) × IsPadded 8 n.len n.bytes };

    ghost inverse = { λ text. record { len = length text; bytes = padded_to 8 text } };

    ghost inverse_ok = { λ n h. name_again n h };
}

impl Name {
    /// The name with these bytes, or `None` where they are none or more than 8.
    pub fn new(text: &[u8]) -> Option<Name>
        ensures { SomeIff result ((1 ≤ length text.now) × (length text.now ≤ 8)) text.now }
    {
        let len = text.len();
        if len == 0 || len > 8 {
            return None;
        }
        let mut bytes = [0; 8];
        bytes[..len].copy_from_slice(text);
        Some(Name {
            len: len as u8,
            bytes,
        })
    }

    /// Its bytes, 1 to 8 of them.
    pub fn as_bytes(&self) -> &[u8]
        ensures bytes { result.now ≡ self.now }
        ensures some { 1 ≤ length self.now }
        ensures most { length self.now ≤ 8 }
    {
        &self.bytes[..self.len as usize]
    }

    /// Whether the two are one name.
    #[tactic(auto, using(crate::proofs::Names::names_compared))]
    pub fn is(&self, other: &Name) -> bool
        ensures { result ≡ bytes_eq self.now other.now }
    {
        // zeros stand behind the bytes of both
        self.len == other.len && are_same(&self.bytes, &other.bytes)
    }
}

/// Whether eight bytes are the same, which is asked of all of them at once.
#[tactic(auto, using(crate::proofs::Names::numbers_compared))]
fn are_same(a: &[u8; 8], b: &[u8; 8]) -> bool
    ensures { result ≡ bytes_eq a.now b.now }
{
    u64::from_be_bytes(*a) == u64::from_be_bytes(*b)
}
