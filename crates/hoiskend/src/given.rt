//! Bytes that a call gives in a room of the caller's.
ghost use Rattle.std.specs.Prelude.{◌≡◌, length};
ghost use Rattle.event_file.specs.Given.{given};
ghost use Rattle.hoiskend.specs.Shown.{code_by_room};

use sock_addrs::Errno;

/// Puts the bytes to the front of `out`, where there is room for all of them, and how many they are into `size`.
/// ENOMEM: there is less room, and `out` stays.
pub(crate) fn give(bytes: &[u8], out: &mut [u8], size: &mut usize) -> u32
    ensures code { result ≡ code_by_room bytes.now (length out.old) }
    ensures bytes { out.new ≡ given bytes.now out.old }
    ensures size { size.new ≡ length bytes.now }
{
    *size = bytes.len();
    if bytes.len() > out.len() {
        return Errno::ENOMEM.number();
    }
    out[..bytes.len()].copy_from_slice(bytes);
    0
}
