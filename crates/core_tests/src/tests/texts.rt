//! Address texts, names and errnos.

use sock_addrs::{
    BadAddr, Errno, Inet, Link, Name, family_of, read_inet, round, write_inet, write_link,
    write_mask,
};

// an IPv4 address, 10.9.9.9, and the address of an interface `le0`
const INET: [u8; 16] = [16, 2, 0, 0, 10, 9, 9, 9, 0, 0, 0, 0, 0, 0, 0, 0];

const LINK: [u8; 20] = [
    0x14, 0x12, 0, 1, 6, 3, 6, 0, 0x6c, 0x65, 0x30, 0x08, 0, 0x20, 1, 2, 3, 0, 0, 0,
];

#[test]
fn rounds(rt: HostRuntime) {
    for (n, want) in [(0, 4), (1, 4), (4, 4), (5, 8), (16, 16), (255, 256)] {
        assert_eq!(rt; round(n), want, "at {n}");
    }
}

#[test]
fn writes_an_ipv4_address_and_reads_it_again(rt: HostRuntime) {
    let mut out = [7; 18];
    assert_eq!(rt; write_inet(Inet([10, 9, 9, 9]), &mut out), 16);
    assert_eq!(rt; &out[..16], INET.as_slice());
    assert_eq!(rt; &out[16..], [7, 7].as_slice());
    assert_eq!(rt; family_of(&out), 2);
    assert_eq!(rt; read_inet(&out), Ok(Inet::new(0x0a09_0909)));
    assert_eq!(rt; Inet([10, 9, 9, 9]).number(), 0x0a09_0909);
}

#[test]
fn writes_a_link_layer_address_as_it_stands(rt: HostRuntime) {
    let Some(link) = Link::new(&LINK) else {
        assert!(rt; false, "it is no link-layer address");
        return;
    };
    let mut out = [7; 22];
    assert_eq!(rt; write_link(link, &mut out), 20);
    assert_eq!(rt; &out[..20], LINK.as_slice());
    assert_eq!(rt; &out[20..], [7, 7].as_slice());
    assert_eq!(rt; family_of(&out), 18);
    assert_eq!(rt; link.as_bytes(), LINK.as_slice());
}

#[test]
fn writes_masks(rt: HostRuntime) {
    let masks = [
        (0, [0, 0, 0, 0, 7, 7, 7, 7], 4),
        (8, [5, 0, 0, 0, 255, 0, 0, 0], 8),
        (9, [6, 0, 0, 0, 255, 128, 0, 0], 8),
        (32, [8, 0, 0, 0, 255, 255, 255, 255], 8),
        (33, [8, 0, 0, 0, 255, 255, 255, 255], 8),
        (255, [8, 0, 0, 0, 255, 255, 255, 255], 8),
    ];
    for (prefix, want, used) in masks {
        let mut out = [7; 8];
        assert_eq!(rt; write_mask(prefix, &mut out), used, "at {prefix}");
        assert_eq!(rt; out, want, "at {prefix}");
    }
}

#[test]
fn refuses_the_first_fault(rt: HostRuntime) {
    let faults: [(&[u8], BadAddr); 7] = [
        (&[], BadAddr::Short),
        (&[16, 18, 0, 0], BadAddr::Short),
        (&[1], BadAddr::Family),
        (&[1, 2], BadAddr::Family),
        (&[4, 18, 0, 0], BadAddr::Family),
        (&[7, 2, 0, 0, 10, 9, 9], BadAddr::Length),
        (
            &[17, 2, 0, 0, 10, 9, 9, 9, 0, 0, 0, 0, 0, 0, 0, 0, 0],
            BadAddr::Length,
        ),
    ];
    for (text, want) in faults {
        assert_eq!(rt; read_inet(text), Err(want), "at {text:?}");
    }
}

#[test]
fn prints_faults(rt: HostRuntime) {
    let faults = [
        BadAddr::Short,
        BadAddr::Family,
        BadAddr::Length,
        BadAddr::NotContiguous,
    ];
    for fault in faults {
        let Ok(printed) = format!(in rt.alloc(); "{fault}") else {
            assert!(rt; false, "no memory");
            return;
        };
        assert_eq!(rt; printed.as_str(), fault.text());
    }
    assert_eq!(rt; BadAddr::Family.text(), "an address of another family");
}

#[test]
fn names_have_one_to_eight_bytes(rt: HostRuntime) {
    assert_eq!(rt; Name::new(b""), None);
    assert_eq!(rt; Name::new(b"ethernet0"), None);
    let Some(name) = Name::new(b"le0") else {
        assert!(rt; false, "it is no name");
        return;
    };
    assert_eq!(rt; name.as_bytes(), b"le0".as_slice());
}

#[test]
fn errnos_have_the_numbers_of_bsd(rt: HostRuntime) {
    assert_eq!(rt; Errno::ESRCH.number(), 3);
    assert_eq!(rt; Errno::EHOSTUNREACH.number(), 65);
}
