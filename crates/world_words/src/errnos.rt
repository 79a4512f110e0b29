//! The names of errnos.
ghost use Rattle.std.specs.Prelude.{◌≡◌};
ghost use Rattle.message_text.specs.Names.{errno_name as name_of_errno};
ghost use Rattle.sock_addrs.specs.Errno.{errno_number};

use sock_addrs::Errno;

/// The name of an errno, as <sys/errno.h> has it.
pub(crate) fn errno_name(errno: Errno) -> &'static str
    ensures { result.now ≡ name_of_errno (errno_number errno) }
{
    match errno {
        Errno::ESRCH => "ESRCH",
        Errno::ENXIO => "ENXIO",
        Errno::EBADF => "EBADF",
        Errno::ENOMEM => "ENOMEM",
        Errno::EEXIST => "EEXIST",
        Errno::EINVAL => "EINVAL",
        Errno::EMFILE => "EMFILE",
        Errno::ENOSPC => "ENOSPC",
        Errno::EMSGSIZE => "EMSGSIZE",
        Errno::EPROTONOSUPPORT => "EPROTONOSUPPORT",
        Errno::EOPNOTSUPP => "EOPNOTSUPP",
        Errno::EADDRINUSE => "EADDRINUSE",
        Errno::EADDRNOTAVAIL => "EADDRNOTAVAIL",
        Errno::ENETUNREACH => "ENETUNREACH",
        Errno::ENOBUFS => "ENOBUFS",
        Errno::ETOOMANYREFS => "ETOOMANYREFS",
        Errno::EHOSTUNREACH => "EHOSTUNREACH",
    }
}
