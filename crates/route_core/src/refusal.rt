ghost use Rattle.std.specs.Prelude.{◌≡◌, Some, None};

use route_msgs::MsgErr;
use sock_addrs::Errno;

/// Why a write is refused, and who hears of it.
#[derive(Clone, Copy, Debug, PartialEq, Eq)]
pub(crate) struct Refusal {
    /// The reason.
    pub(crate) errno: Errno,
    /// The family of the reply: sockets of this protocol hear it, and those that hear all. `None`: nobody does.
    pub(crate) family: Option<u8>,
}

impl Refusal {
    /// A refusal of which nobody hears.
    pub(crate) fn silent(errno: Errno) -> Refusal
        ensures { result ≡ record { errno = errno; family = None } }
    {
        Refusal {
            errno,
            family: None,
        }
    }

    /// A refusal with a reply of this family.
    pub(crate) fn heard(errno: Errno, family: u8) -> Refusal
        ensures { result ≡ record { errno = errno; family = Some family } }
    {
        Refusal {
            errno,
            family: Some(family),
        }
    }
}

/// The refusal of a message that is wrong as a whole. Of one of another length than it says nobody hears; of another
/// version, and of an address that overruns, those sockets hear that hear all.
impl From<MsgErr> for Refusal {
    ghost use Rattle.std.specs.Prelude.{◌≡◌};
    ghost use Rattle.route_core.specs.Writes.{refusal_of};

    ghost from_gives = { λ fault r. r ≡ refusal_of fault };

    fn from(fault: MsgErr) -> Refusal {
        match fault {
            MsgErr::Length => Refusal::silent(Errno::EINVAL),
            MsgErr::Version => Refusal::heard(Errno::EPROTONOSUPPORT, 0),
            MsgErr::Overrun => Refusal::heard(Errno::EINVAL, 0),
        }
    }
}
