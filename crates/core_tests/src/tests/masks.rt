//! Masks, and which addresses agree by them.

use mask_table::{Prefix, Rank, agrees, masked};
use sock_addrs::Inet;

#[test]
fn masks_addresses(rt: HostRuntime) {
    let address = Inet([10, 9, 201, 255]);
    let masked_by = [
        (0, [0, 0, 0, 0]),
        (1, [0, 0, 0, 0]),
        (8, [10, 0, 0, 0]),
        (17, [10, 9, 128, 0]),
        (31, [10, 9, 201, 254]),
        (32, [10, 9, 201, 255]),
        (33, [10, 9, 201, 255]),
    ];
    for (rank, want) in masked_by {
        assert_eq!(rt; masked(address, Rank::new(rank)), Inet(want), "at {rank}");
    }
}

#[test]
fn agrees_by_the_first_bits(rt: HostRuntime) {
    let key = Inet([10, 9, 0, 0]);
    let cases = [
        (0, [192, 0, 2, 1], true),
        (16, [10, 9, 9, 9], true),
        (16, [10, 8, 9, 9], false),
        (32, [10, 9, 0, 1], false),
        (33, [10, 9, 0, 1], false),
        (33, [10, 9, 0, 0], true),
    ];
    for (rank, address, want) in cases {
        assert_eq!(rt;
            agrees(key, Rank::new(rank), Inet(address)),
            want,
            "at {rank} and {address:?}"
        );
    }
}

#[test]
fn ranks_are_mask_lengths_or_33(rt: HostRuntime) {
    assert_eq!(rt; Prefix::new(33), None);
    let Some(prefix) = Prefix::new(32) else {
        assert!(rt; false, "32 bits are a mask");
        return;
    };
    assert_eq!(rt; prefix.bits(), 32);
    assert_eq!(rt; Rank::of(prefix).number(), 32);
    assert_eq!(rt; Rank::host().number(), 33);
    assert!(rt; Rank::of(prefix) < Rank::host());
}
