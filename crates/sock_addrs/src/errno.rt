ghost use Rattle.std.specs.Prelude.{◌≡◌};
ghost use Rattle.sock_addrs.specs.Errno.{errno_number};

use std::alloc::{AllocError, AllocFailed};

/// The reasons for which a command or a routing message is refused, spelled and numbered as in <sys/errno.h> of 4.4BSD.
#[derive(Clone, Copy, Debug, PartialEq, Eq)]
pub enum Errno {
    /// No such route.
    ESRCH = 3,
    /// No such interface.
    ENXIO = 6,
    /// No such socket.
    EBADF = 9,
    /// The buffer is too small.
    ENOMEM = 12,
    /// It is there already.
    EEXIST = 17,
    /// A malformed request.
    EINVAL = 22,
    /// Too many sockets.
    EMFILE = 24,
    /// Too many interfaces or addresses.
    ENOSPC = 28,
    /// A message that is too long.
    EMSGSIZE = 40,
    /// A message of another version.
    EPROTONOSUPPORT = 43,
    /// A message of another type.
    EOPNOTSUPP = 45,
    /// The address is in use.
    EADDRINUSE = 48,
    /// No such address on the interface.
    EADDRNOTAVAIL = 49,
    /// The gateway can't be reached.
    ENETUNREACH = 51,
    /// No memory.
    ENOBUFS = 55,
    /// No route with that mask.
    ETOOMANYREFS = 59,
    /// No route to the host.
    EHOSTUNREACH = 65,
}

impl Errno {
    /// Its number, as a message's errno field and the transcript show it.
    pub fn number(self) -> u32
        ensures { result ≡ errno_number self }
    {
        self as u32
    }
}

/// Want of memory is ENOBUFS.
impl From<AllocError> for Errno {
    ghost use Rattle.std.specs.Prelude.{◌≡◌};
    ghost use Rattle.sock_addrs.specs.declared.errno.Errno.TheVariants.{ENOBUFS};

    ghost from_gives = { λ _ e. e ≡ ENOBUFS };

    fn from(_refused: AllocError) -> Errno {
        Errno::ENOBUFS
    }
}

/// Want of memory is ENOBUFS; what there was no room for is dropped.
impl<T: Drop> From<AllocFailed<T>> for Errno {
    ghost use Rattle.std.specs.Prelude.{◌≡◌};
    ghost use Rattle.sock_addrs.specs.declared.errno.Errno.TheVariants.{ENOBUFS};

    ghost from_gives = { λ _ e. e ≡ ENOBUFS };

    fn from(_refused: AllocFailed<T>) -> Errno {
        Errno::ENOBUFS
    }
}
