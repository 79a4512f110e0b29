//! An address's announcement in each layout, made by a second writing of the layouts.
use route_layouts::{Converted, System, convert};
use std::process::Abort;
use std::test::Fail;

/// In 4.4BSD's layout.
const ANNOUNCED: &str =
    "0050030c000000b400000100000100000000000005000000ff00000014120001060306006c6530080020010203000000\
        100200000a0000010000000000000000100200000affffff0000000000000000";

/// And in those of today.
const TODAY: [(System, &str); 4] = [
    (
        System::FreeBsd,
        "5400050cb400000000010000010000000000000005000000ff00000014120100060306006c6530080020010203000000\
        00000000100200000a0000010000000000000000100200000affffff0000000000000000",
    ),
    (
        System::OpenBsd,
        "5800050c1800010000000000b4000000000100000000000005000000ff00000014120100060306006c65300800200102\
        0300000000000000100200000a0000010000000000000000100200000affffff0000000000000000",
    ),
    (
        System::NetBsd,
        "5800040cb40000000001000000000000010000000000000005000000ff00000014120100060306006c65300800200102\
        0300000000000000100200000a0000010000000000000000100200000affffff0000000000000000",
    ),
    (
        System::Darwin,
        "5000050cb400000000010000010000000000000008000000ff00000014120100060306006c6530080020010203000000\
        100200000a0000010000000000000000100200000affffff0000000000000000",
    ),
];

/// The message that these digits spell.
fn message_of<R: AllocGlobal + Abort>(rt: &R, digits: &str) -> Result<Vec<u8>, Fail> {
    let message = hex::decode(rt.alloc(), digits);
    assert!(rt; message.is_ok(), "{digits}");
    let mut bytes = Vec::new(rt.alloc());
    if let Ok(message) = message {
        bytes.extend_from_slice(&message)?;
    }
    Ok(bytes)
}

#[test]
fn announced(rt: HostRuntime) -> Result<(), Fail> {
    let old = System::Bsd44.layout();
    let announced = message_of(&rt, ANNOUNCED)?;
    for (system, digits) in TODAY {
        let new = system.layout();
        let wanted = message_of(&rt, digits)?;
        let mut there = Converted::new();
        assert!(rt;
            convert(&old, &new, &announced, &mut there).is_ok(),
            "{digits}"
        );
        assert_eq!(rt; there.as_slice(), wanted.as_slice(), "{digits}");
        let mut back = Converted::new();
        assert!(rt; convert(&new, &old, &there, &mut back).is_ok(), "{digits}");
    }
    Ok(())
}
