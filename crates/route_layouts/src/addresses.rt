//! The addresses behind a header in another layout.
ghost use Rattle.std.specs.Prelude.{◌≡◌, ◌<◌, ◌≤◌, [], true, false, length, IfErr, IfOk, OnOk};
ghost use Rattle.route_layouts.specs.Addresses.{IsChange};
ghost use Rattle.route_layouts.specs.Walk.{addrs_before, bytes_before, fit_before, has_room_before, is_there_at};

use crate::Fault;
use crate::address::{fits, put_address, rounded};
use crate::change::Change;
use arrayvec::ArrayVec;
use route_msgs::places::RTAX_MAX;

/// The most bytes of a converted message: a header, and eight addresses of 256 bytes.
pub const MOST_CONVERTED: usize = 2304;

/// A converted message, or its addresses: their bytes.
pub type Converted = ArrayVec<u8, MOST_CONVERTED>;

/// The addresses of a message in another layout, but for their bytes.
#[derive(Clone, Copy, Debug)]
pub(crate) struct Addresses {
    /// Which they are: the bits of those that are there.
    pub(crate) bits: u64,
    /// Whether none of them is too long.
    pub(crate) fit: bool,
}

/// Whether the address of this bit is named, and would begin before the message's end.
fn is_there(message: &[u8], named: u64, bit: usize, at: usize) -> bool
    requires { bit < 8 }
    ensures { result ≡ is_there_at message.now named bit at }
{
    named >> bit & 1 == 1 && at < message.len()
}

/// The addresses behind a header of `start` bytes as the other layout has them. Their bytes are put into `bytes`, which
/// is empty.
pub(crate) fn convert_addresses(
    change: &Change,
    message: &[u8],
    named: u64,
    start: usize,
    bytes: &mut Converted,
) -> Result<Addresses, Fault>
    requires change { IsChange change.now }
    requires empty { bytes.old.items ≡ [] }
    requires start { start ≤ 256 }
    requires most { length message.now < 65536 }
    ensures there { IfOk result (λ new. (has_room_before change.now message.now named start RTAX_MAX ≡ true)
        × (new.bits ≡ addrs_before change.now message.now named start RTAX_MAX)
        × (new.fit ≡ fit_before change.now message.now named start RTAX_MAX)) }
    ensures bytes { OnOk result (bytes.new.items ≡ bytes_before change.now message.now named start RTAX_MAX) }
    ensures size { OnOk result (length bytes.new.items ≤ 2104) }
    ensures overrun { IfErr result (λ fault. (fault ≡ Fault.Overrun)
        × (has_room_before change.now message.now named start RTAX_MAX ≡ false)) }
{
    let mut bits = 0;
    let mut fit = true;
    let mut at = start;
    for bit in 0..RTAX_MAX {
        if is_there(message, named, bit, at) {
            let length = usize::from(message[at]);
            if at + length > message.len() {
                return Err(Fault::Overrun);
            }
            let address = &message[at..at + length.max(1)];
            put_address(change, bit, address, bytes);
            fit &= fits(change, bit, address);
            at += rounded(change.from_word, message[at]);
            bits += 1 << bit;
        }
    }
    Ok(Addresses { bits, fit })
}
