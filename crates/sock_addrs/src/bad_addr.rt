ghost use Rattle.std.specs.Prelude.{◌≡◌};
ghost use Rattle.sock_addrs.specs.BadAddr.{bad_addr_text};

use thiserror::Error;

/// Why bytes are read as no address: the first that holds, in this order.
#[derive(Clone, Copy, Debug, PartialEq, Eq, Error)]
#[error("{}", self.text())]
pub enum BadAddr {
    /// There is no byte, or there are fewer than the length byte says.
    Short,
    /// The family is none that is read here.
    Family,
    /// The length byte is none that an address of this kind has.
    Length,
    /// The bits of a mask are not ones followed by zeros.
    NotContiguous,
}

impl BadAddr {
    /// What it prints, in words.
    pub fn text(self) -> &'static str
        ensures { result.now ≡ bad_addr_text self }
    {
        match self {
            BadAddr::Short => "the address ends before its length byte says",
            BadAddr::Family => "an address of another family",
            BadAddr::Length => "an address of a wrong length",
            BadAddr::NotContiguous => "a mask whose ones don't all come first",
        }
    }
}
