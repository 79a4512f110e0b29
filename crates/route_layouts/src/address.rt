//! One address in another layout.
ghost use Rattle.std.specs.Prelude.{◌≡◌, ◌+◌, ◌<◌, ◌≤◌, ◌==◌, ◌&&◌, ◌++◌, length, max, not, slice_index};
ghost use Rattle.std.specs.List.{list_all};
ghost use Rattle.route_layouts.specs.Addresses.{IsChange, address_as, fits as fits_in, is_link as is_of_link, is_long as is_too_long, is_loose as can_be_cut, is_mask as is_of_mask, length_as as length_in, link_size as size_told, rounded_to, sized as with_length, turned};

use crate::change::Change;
use crate::{Converted, MOST_CONVERTED};
use arrayvec::ArrayVec;
use route_msgs::places::{RTAX_GENMASK, RTAX_NETMASK};
use sock_addrs::families::AF_LINK;

/// The most bytes of an address.
const MOST_BYTES: usize = 255;

/// An address without padding: its bytes.
type Address = ArrayVec<u8, MOST_BYTES>;

/// The bytes that an address takes whose length byte is this, where a word has so many bytes.
pub(crate) fn rounded(word: usize, length: u8) -> usize
    requires least { 1 ≤ word }
    requires most { word ≤ 8 }
    ensures value { result ≡ rounded_to word length }
    ensures holds { max length 1 ≤ result }
    ensures tight { result < max length 1 + word }
    ensures most { result ≤ 263 }
{
    (usize::from(length.max(1)) + word - 1) / word * word
}

/// The byte at this place, or 0 past the end.
pub(crate) fn byte_at(bytes: &[u8], at: usize) -> u8
    ensures { result ≡ slice_index bytes.now at }
{
    bytes.get(at).copied().unwrap_or(0)
}

/// Whether the address of this bit is a mask.
fn is_mask(bit: usize) -> bool
    ensures { result ≡ is_of_mask bit }
{
    bit == RTAX_NETMASK || bit == RTAX_GENMASK
}

/// How many bytes of a link-layer address tell something: eight and its name, its address and its selector, at least
/// 20.
fn link_size(address: &[u8]) -> usize
    ensures { result ≡ size_told address.now }
{
    let name = usize::from(byte_at(address, 5));
    let number = usize::from(byte_at(address, 6));
    let selector = usize::from(byte_at(address, 7));
    (8 + name + number + selector).max(20)
}

/// Whether it is a link-layer address.
fn is_link(address: &[u8]) -> bool
    ensures { result ≡ is_of_link address.now }
{
    byte_at(address, 1) == AF_LINK
}

/// Whether it is a link-layer address of more than so many bytes.
fn is_long(most: usize, address: &[u8]) -> bool
    ensures { result ≡ is_too_long most address.now }
{
    is_link(address) && address.len() > most
}

/// Whether bytes are zeros.
fn are_zeros(bytes: &[u8]) -> bool
    ensures { result ≡ list_all (λ byte. byte == 0) bytes.now }
{
    bytes.iter().all(|byte| *byte == 0)
}

/// Whether a link-layer address tells no more than so many bytes, and zeros are behind.
fn is_loose(most: usize, address: &[u8]) -> bool
    requires { most < length address.now }
    ensures { result ≡ can_be_cut most address.now }
{
    let size = link_size(address);
    size <= most && are_zeros(&address[size..])
}

/// Whether the address of this bit isn't too long for the other layout, or can be cut.
pub(crate) fn fits(change: &Change, bit: usize, address: &[u8]) -> bool
    ensures { result ≡ fits_in change.now bit address.now }
{
    is_mask(bit) || !is_long(change.most_link, address) || is_loose(change.most_link, address)
}

/// The length byte that the address of this bit has in the other layout.
#[tactic(auto, unfolding(crate::specs::Addresses::length_as))]
fn length_as(change: &Change, bit: usize, address: &[u8]) -> u8
    requires change { IsChange change.now }
    requires whole { length address.now ≡ max (slice_index address.now 0) 1 }
    ensures value { result ≡ length_in change.now bit address.now }
    ensures near { result ≤ max (length address.now) 8 }
{
    let length = address[0];
    if is_mask(bit) {
        return if length >= 5 {
            length.max(change.least_mask)
        } else {
            length
        };
    }
    if is_long(change.most_link, address) && is_loose(change.most_link, address) {
        return link_size(address) as u8;
    }
    length
}

/// The address with another length byte: cut, or with zeros behind.
fn sized(size: u8, address: &[u8]) -> Address
    requires least { 1 ≤ length address.now }
    requires most { length address.now ≤ MOST_BYTES }
    requires near { size ≤ max (length address.now) 8 }
    ensures address { result.items ≡ with_length size address.now }
    ensures size { length result.items ≡ max size 1 }
{
    let rest = &address[1..];
    let kept = usize::from(size).saturating_sub(1).min(rest.len());
    let zeros = usize::from(size).saturating_sub(address.len());
    let mut bytes = Address::new();
    bytes.push(size);
    bytes.try_extend_from_slice(&rest[..kept]).unwrap();
    bytes.try_extend_from_slice(&[0; 8][..zeros]).unwrap();
    bytes
}

/// Appends the address, in a link-layer address the number of the interface in the other order where `swaps` says so.
fn put_turned(swaps: bool, address: &[u8], bytes: &mut Converted)
    requires { length bytes.old.items + length address.now ≤ MOST_CONVERTED }
    ensures turned { bytes.new.items ≡ bytes.old.items ++ turned swaps address.now }
    ensures size { length bytes.new.items ≡ length bytes.old.items + length address.now }
{
    if swaps && is_link(address) && address.len() >= 4 {
        let front = [address[0], address[1], address[3], address[2]];
        bytes.try_extend_from_slice(&front).unwrap();
        bytes.try_extend_from_slice(&address[4..]).unwrap();
    } else {
        bytes.try_extend_from_slice(address).unwrap();
    }
}

/// Whether the number in the link-layer address of this bit changes its order.
fn turns(change: &Change, bit: usize) -> bool
    ensures { result ≡ (change.now.swaps && not (is_of_mask bit)) }
{
    change.swaps && !is_mask(bit)
}

/// Appends the address of this bit as the other layout has it, with zeros behind to whole words.
pub(crate) fn put_address(change: &Change, bit: usize, address: &[u8], bytes: &mut Converted)
    requires change { IsChange change.now }
    requires whole { length address.now ≡ max (slice_index address.now 0) 1 }
    requires room { length bytes.old.items + 263 ≤ MOST_CONVERTED }
    ensures bytes { bytes.new.items ≡ bytes.old.items ++ address_as change.now bit address.now }
    ensures size { length bytes.new.items ≤ length bytes.old.items + 263 }
{
    let size = length_as(change, bit, address);
    let address = sized(size, address);
    let zeros = rounded(change.to_word, size) - address.len();
    put_turned(turns(change, bit), &address, bytes);
    bytes.try_extend_from_slice(&[0; 8][..zeros]).unwrap();
}
