//! A message in the layout of another system: a function that the library exports beside those over a handle, since it
//! has no world.
ghost use Rattle.std.specs.Prelude.{◌≡◌, Err, IfErr, Ok, OnOk, length};
ghost use Rattle.route_layouts.specs.Conversion.{counterpart as counterpart_of};
ghost use Rattle.route_layouts.specs.Systems.{layout_of};
ghost use Rattle.hoiskend.specs.Converted.{code_of, code_of_fault, conversion, given_by, size_by, system_numbered};

use crate::codes::{KIND, LENGTH, OVERRUN, VERSION, WIDE};
use crate::given::give;
use route_layouts::{Converted, Fault, System, convert};
use sock_addrs::Errno;

/// The system of this number.
fn system_of(number: u32) -> Option<System>
    ensures { result ≡ system_numbered number }
{
    match number {
        0 => Some(System::Bsd44),
        1 => Some(System::FreeBsd),
        2 => Some(System::OpenBsd),
        3 => Some(System::NetBsd),
        4 => Some(System::Darwin),
        _ => None,
    }
}

/// The code of a fault.
fn fault_code(fault: Fault) -> u32
    ensures { result ≡ code_of_fault fault }
{
    match fault {
        Fault::Kind => KIND,
        Fault::Length => LENGTH,
        Fault::Version => VERSION,
        Fault::Overrun => OVERRUN,
        Fault::Wide => WIDE,
    }
}

/// Puts the message of one system in the layout of another into `made`, or answers why it has none there.
fn counterpart(from: System, to: System, message: &[u8], made: &mut Converted) -> Result<(), Fault>
    ensures there { OnOk result (counterpart_of (layout_of from) (layout_of to) message.now ≡ Ok made.new.items) }
    ensures fault { IfErr result (λ why. counterpart_of (layout_of from) (layout_of to) message.now ≡ Err why) }
{
    let one = from.layout();
    let other = to.layout();
    convert(&one, &other, message, made)
}

/// Puts a message of one system in the layout of another to the front of `out`, where there is room for all of it, and
/// how many bytes it has into `size`. EINVAL: a number is no system's; a fault's code: it has no counterpart; `out` and
/// `size` stay. ENOMEM: there is less room, and `out` stays.
#[unsafe(no_mangle)]
pub extern "C" fn hk_convert(
    from: u32,
    to: u32,
    message: &[u8],
    out: &mut [u8],
    size: &mut usize,
) -> u32
    ensures code { result ≡ code_of (conversion from to message.now) (length out.old) }
    ensures message { out.new ≡ given_by (conversion from to message.now) out.old }
    ensures size { size.new ≡ size_by (conversion from to message.now) size.old }
{
    let (Some(from), Some(to)) = (system_of(from), system_of(to)) else {
        return Errno::EINVAL.number();
    };
    let mut made = Converted::new();
    match counterpart(from, to, message, &mut made) {
        Ok(()) => give(&made, out, size),
        Err(fault) => fault_code(fault),
    }
}
