ghost use Rattle.std.specs.Prelude.{◌≡◌};
ghost use Rattle.sock_addrs.specs.Rounding.{rounded};

/// The bytes that an address takes in a message whose length byte is `n`: the least multiple of 4 that is at least `n`,
/// and at least 4 (`ROUNDUP` of 4.4BSD's net/rtsock.c).
pub fn round(n: u8) -> usize
    ensures { result ≡ rounded n }
{
    usize::from(n).max(1).next_multiple_of(4)
}
