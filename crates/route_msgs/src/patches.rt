//! Changes of one field of a message that is already written.
ghost use Rattle.std.specs.Prelude.{◌≡◌, ◌+◌, ◌≤◌, length};
ghost use Rattle.route_msgs.specs.Patches.{with_errno, with_flags, with_pid};

use crate::fields::patch_u32;

/// Where a message about a route has its flags.
pub const FLAGS_OFFSET: usize = 8;
/// Where it has its pid.
pub const PID_OFFSET: usize = 16;
/// Where it has its errno.
pub const ERRNO_OFFSET: usize = 24;

/// Writes the flags of a message about a route; all other bytes stay.
pub fn set_flags(message: &mut [u8], flags: u32)
    requires { FLAGS_OFFSET + 4 ≤ length message.old }
    ensures { message.new ≡ with_flags flags message.old }
{
    patch_u32(message, FLAGS_OFFSET, flags);
}

/// Writes the pid of a message about a route; all other bytes stay.
pub fn set_pid(message: &mut [u8], pid: u32)
    requires { PID_OFFSET + 4 ≤ length message.old }
    ensures { message.new ≡ with_pid pid message.old }
{
    patch_u32(message, PID_OFFSET, pid);
}

/// Writes the errno of a message about a route; all other bytes stay.
pub fn set_errno(message: &mut [u8], errno: u32)
    requires { ERRNO_OFFSET + 4 ≤ length message.old }
    ensures { message.new ≡ with_errno errno message.old }
{
    patch_u32(message, ERRNO_OFFSET, errno);
}
