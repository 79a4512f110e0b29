//! Who hears a message, which is read once.

use listeners::{Listeners, Room};
use memory::Memory;
use sock_addrs::Name;
use std::test::Fail;

/// The shortest message, and one that is a byte longer.
const SHORT: [u8; 20] = [
    0, 20, 3, 1, 0, 1, 0, 0, 1, 2, 3, 4, 5, 6, 7, 8, 9, 10, 11, 12,
];

const LONGER: [u8; 21] = [
    0, 21, 3, 1, 0, 1, 0, 0, 1, 2, 3, 4, 5, 6, 7, 8, 9, 10, 11, 12, 13,
];

fn id(text: &[u8]) -> Result<Name, &'static str> {
    Name::new(text).ok_or("not 1 to 8 bytes")
}

#[test]
fn a_message_is_heard_by_its_family_and_read_once(rt: HostRuntime) -> Result<(), Fail> {
    let mut listeners = Listeners::new(rt.alloc());
    let mut room = Room::new(rt.alloc(), &mut Memory::new())?;
    for (socket, protocol) in [(b"inet", 2), (b"link", 18), (b"any0", 0)] {
        listeners.listen(id(socket)?, 100, protocol, &mut Memory::new())?;
    }
    listeners.deliver(&SHORT, 2, Some(id(b"inet")?));
    listeners.deliver(&LONGER, 18, None);
    let both = [SHORT.as_slice(), LONGER.as_slice()].concat(rt.alloc())?;
    for (socket, bytes) in [
        (b"inet", SHORT.as_slice()),
        (b"link", &LONGER),
        (b"any0", &both),
        (b"any0", &[]),
    ] {
        assert_eq!(rt; listeners.take(id(socket)?, &mut room)?, bytes);
    }
    Ok(())
}
