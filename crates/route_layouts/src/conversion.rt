ghost use Rattle.std.specs.Prelude.{◌≡◌, ◌≤◌, ◌++◌, [], true, false, length, replicate, slice_index, IfErr, OnOk};
ghost use Rattle.std.specs.Bool.{IsTrue};
ghost use Rattle.route_layouts.specs.Places.{are_within, with_numbers};
ghost use Rattle.route_layouts.specs.Layouts.{IsHeader, IsLayout, header_of};
ghost use Rattle.route_layouts.specs.Conversion.{IsConverted, IsRefused, ReadsHeader, errno_in, head_of, is_narrow, says_its_size};

use crate::address::byte_at;
use crate::addresses::convert_addresses;
use crate::change::Change;
use crate::numbers::{fit, put_numbers, read_numbers};
use crate::{Converted, FIELDS, Fault, Fields, Header, Layout, Order, Place};

/// A message of one layout in another, which is put into `made`; what that held is lost, also where it is refused.
///
/// Refused in this order: `Kind` for a type that is none of 1 to 13, `Length` for fewer bytes than the header has or
/// where the message or its header says another length than it has, `Version` for another version than the layout's,
/// `Overrun` where the length byte of an address counts bytes past the end, and `Wide` where a place of the other
/// layout has too few bytes for its number, or a link-layer address is too long there and can't be cut. What has no
/// place there is left out.
pub fn convert(
    from: &Layout,
    to: &Layout,
    message: &[u8],
    made: &mut Converted,
) -> Result<(), Fault>
    requires from { IsLayout from.now }
    requires to { IsLayout to.now }
    ensures converted { OnOk result (IsConverted from.now to.now message.now made.new.items) }
    ensures refused { IfErr result (λ fault. IsRefused from.now to.now message.now fault) }
{
    let numbers = read_header(from, message)?;
    let kind = byte_at(message, 3);
    let size = from.header(kind).size;
    let change = Change::between(from, to);
    let mut bytes = Converted::new();
    let addresses = convert_addresses(&change, message, numbers.addrs, size, &mut bytes)?;
    if !addresses.fit {
        return Err(Fault::Wide);
    }
    let header = to.header(kind);
    let numbers = Fields {
        length: (header.size + bytes.len()) as u64,
        version: to.version,
        header_length: header.size as u64,
        errno: errno_as(from, to, numbers.errno),
        flags: numbers.flags & from.flags & to.flags,
        addrs: addresses.bits,
        ..numbers
    };
    made.clear();
    write_message(to.order, &header, &numbers, &bytes, made)
}

/// The errno by the other's number.
fn errno_as(from: &Layout, to: &Layout, errno: u64) -> u64
    ensures { result ≡ errno_in from.now to.now errno }
{
    if errno == from.not_supported {
        to.not_supported
    } else {
        errno
    }
}

/// The numbers of the message's header.
fn read_header(from: &Layout, message: &[u8]) -> Result<Fields<u64>, Fault>
    requires { IsLayout from.now }
    ensures { ReadsHeader from.now message.now result }
{
    let kind = byte_at(message, 3);
    if !(1..=13).contains(&kind) {
        return Err(Fault::Kind);
    }
    let header = from.header(kind);
    if message.len() > 65535 || message.len() < header.size {
        return Err(Fault::Length);
    }
    let mut numbers = [0; FIELDS];
    read_numbers(from.order, &header.places.in_order(), message, &mut numbers);
    let numbers = Fields::of(&numbers);
    if numbers.length != message.len() as u64 || !says_size(&header, numbers.header_length) {
        return Err(Fault::Length);
    }
    if numbers.version != from.version {
        return Err(Fault::Version);
    }
    Ok(numbers)
}

/// Whether the header says the size that it has, where it says one.
fn says_size(header: &Header, size: u64) -> bool
    ensures { result ≡ says_its_size header.now size }
{
    header.places.header_length.width == 0 || size == header.size as u64
}

/// Puts the header with these numbers, and the addresses behind it, into `message`, which is empty.
fn write_message(
    order: Order,
    header: &Header,
    numbers: &Fields<u64>,
    addresses: &[u8],
    message: &mut Converted,
) -> Result<(), Fault>
    requires empty { message.old.items ≡ [] }
    requires header { IsHeader header.now.size header.now.places }
    requires size { header.now.size ≤ 200 }
    requires room { length addresses.now ≤ 2104 }
    ensures message { OnOk result ((is_narrow header.now numbers.now ≡ true)
        × (message.new.items ≡ head_of order header.now numbers.now ++ addresses.now)) }
    ensures wide { IfErr result (λ fault. (fault ≡ Fault.Wide) × (is_narrow header.now numbers.now ≡ false)) }
{
    let places = header.places.in_order();
    let numbers = numbers.in_order();
    if !fit(&places, &numbers) {
        return Err(Fault::Wide);
    }
    write_head(order, header.size, &places, &numbers, message);
    message.try_extend_from_slice(addresses).unwrap();
    Ok(())
}

/// Puts a header of so many bytes with these numbers, and zeros elsewhere, into `message`, which is empty.
fn write_head(order: Order, size: usize, places: &[Place], numbers: &[u64], message: &mut Converted)
    requires empty { message.old.items ≡ [] }
    requires count { length numbers.now ≡ length places.now }
    requires within { IsTrue (are_within size places.now) }
    requires size { size ≤ 200 }
    ensures head { message.new.items ≡ with_numbers order places.now numbers.now (replicate size 0) }
    ensures size { length message.new.items ≡ size }
{
    let mut head = [0; 200];
    put_numbers(order, places, numbers, &mut head[..size]);
    message.try_extend_from_slice(&head[..size]).unwrap();
}
