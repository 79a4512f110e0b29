//! Messages in words, worked by hand from the tables of docs/FORMATS.md.
use message_text::{MessageHeader, address_of, fault_of, header_of, text_of};
use route_msgs::MsgErr;
use route_msgs::bits::{RTA_BRD, RTA_NETMASK};
use std::process::Abort;
use std::test::Fail;

/// A message: hexadecimal digits, so many zeros, more digits; and its text.
type Case = (&'static str, usize, &'static str, &'static str);

const CASES: [Case; 13] = [
    (
        "0050030c000000b400000100000100000000000005000000ff000000\
        14120001060306006c6530080020010203000000100200000a000001",
        8,
        "100200000affffff0000000000000000",
        "RTM_NEWADDR: length 80, version 3, index 1, metric 0\n flags 00000100<CLONING>\n\
        \x20addrs 000000b4<NETMASK,IFP,IFA,BRD>\n NETMASK 255.0.0.0 (/8)\n\
        \x20IFP link le0:080020010203 index 1 type 6 length 20\n IFA 10.0.0.1\n BRD 10.255.255.255\n",
    ),
    (
        "0014030d0000000000000101000200050000000a",
        0,
        "",
        "RTM_DELADDR: length 20, version 3, index 2, metric 10\n flags 00000101<ROUTE,CLONING>\n\
        \x20padding 5\n addrs 00000000<>\n",
    ),
    (
        "00740304000000000000014100000007000000640000000100000000",
        48,
        "100200000a0000000000000000000000100200000a000001000000000000000005000000ff000000",
        "RTM_GET: length 116, version 3, pid 100, seq 1, index 0\n flags 00000141<UP,DONE,CLONING>\n\
        \x20addrs 00000007<DST,GATEWAY,NETMASK>\n DST 10.0.0.0\n GATEWAY 10.0.0.1\n NETMASK 255.0.0.0 (/8)\n",
    ),
    (
        "0064030300000000000000000000000500000064000000010000003b000000000000000100000000000005dc",
        32,
        "100200000a000000000000000000000006000000ff800000",
        "RTM_CHANGE: length 100, version 3, pid 100, seq 1, index 0\n flags 00000000<>\n\
        \x20errno 59 (ETOOMANYREFS)\n inits 00000001<MTU>\n mtu 1500\n addrs 00000005<DST,NETMASK>\n\
        \x20DST 10.0.0.0\n NETMASK 255.128.0.0 (/9)\n",
    ),
    (
        "004c0363ffff000500002000000001000000000000000000000000c8000000010000010000000003\
        00000000000000010000000000000000000000000000000000000000000000020000000a",
        0,
        "",
        "99: length 76, version 3, pid 0, seq 0, index 65535\n flags 00002000<>\n errno 200 (unknown)\n use 1\n\
        \x20padding 5\n inits 00000100<>\n locks 00000003<MTU,HOPCOUNT>\n hopcount 1\n rttvar 2\n pksent 10\n\
        \x20addrs 00000100<>\n",
    ),
    (
        "005c03010000000000000000000000010000000000000000",
        52,
        "100200500a0000010000000000000000",
        "RTM_ADD: length 92, version 3, pid 0, seq 0, index 0\n flags 00000000<>\n addrs 00000001<DST>\n\
        \x20DST bytes 100200500a0000010000000000000000\n",
    ),
    (
        "005003020000000000000004000000050000000000000000",
        52,
        "00000000",
        "RTM_DELETE: length 80, version 3, pid 0, seq 0, index 0\n flags 00000004<HOST>\n\
        \x20addrs 00000005<DST,NETMASK>\n DST bytes 00000000\n",
    ),
    (
        "005003090000000000000000000000040000000000000000",
        52,
        "00000000",
        "RTM_OLDADD: length 80, version 3, pid 0, seq 0, index 0\n flags 00000000<>\n addrs 00000004<NETMASK>\n\
        \x20NETMASK 0.0.0.0 (/0)\n",
    ),
    (
        "004e030e0000000000000000000000000000000000000000",
        52,
        "abcd",
        "RTM_IFINFO: length 78, version 3, pid 0, seq 0, index 0\n flags 00000000<>\n addrs 00000000<>\n behind abcd\n",
    ),
    ("", 0, "", "no message: \n the length is wrong\n"),
    (
        "0015030c",
        16,
        "",
        "no message: 0015030c00000000000000000000000000000000\n the length is wrong\n",
    ),
    (
        "0014040c",
        16,
        "",
        "no message: 0014040c00000000000000000000000000000000\n the version is not 3\n",
    ),
    (
        "0015030c00000001",
        12,
        "02",
        "no message: 0015030c0000000100000000000000000000000002\n an address passes the end\n",
    ),
];

/// Puts the bytes of so many hexadecimal digits behind the others.
fn put(rt: &impl Abort, digits: &str, bytes: &mut Vec<u8>) -> Result<(), Fail> {
    let mut room = [0; 256];
    let room = &mut room[..(digits.len() / 2).min(256)];
    assert_eq!(rt;
        hex::decode_to_slice(digits.as_bytes(), room),
        Ok(()),
        "{digits}"
    );
    bytes.extend_from_slice(room)?;
    Ok(())
}

#[test]
fn shows_each_message(rt: HostRuntime) -> Result<(), Fail> {
    for (head, zeros, tail, text) in &CASES {
        let mut message = Vec::new(rt.alloc());
        put(&rt, head, &mut message)?;
        for _zero in 0..*zeros {
            message.push(0)?;
        }
        put(&rt, tail, &mut message)?;
        let shown = text_of(rt.alloc(), &message)?;
        assert_eq!(rt; shown.as_slice(), text.as_bytes(), "{text}");
    }
    Ok(())
}

/// The reply to a GET of a network, taken apart, whole and without its last byte.
#[test]
fn takes_a_message_apart(rt: HostRuntime) -> Result<(), Fail> {
    let (head, zeros, tail, _) = &CASES[2];
    let mut message = Vec::new(rt.alloc());
    put(&rt, head, &mut message)?;
    for _zero in 0..*zeros {
        message.push(0)?;
    }
    put(&rt, tail, &mut message)?;
    assert!(rt; fault_of(&message).is_none());
    let told = match header_of(&message) {
        Some(MessageHeader::OfRoute(header)) => (header.kind, header.pid, header.seq),
        _ => (0, 0, 0),
    };
    assert_eq!(rt; told, (4, 100, 1));
    let mask = match address_of(RTA_NETMASK, &message) {
        Some((at, bytes)) => (at, bytes.len()),
        None => (0, 0),
    };
    assert_eq!(rt; mask, (108, 5));
    assert!(rt; address_of(RTA_BRD, &message).is_none());
    let cut = &message[..message.len() - 1];
    assert!(rt; matches!(fault_of(cut), Some(MsgErr::Length)));
    assert!(rt; header_of(cut).is_none());
    Ok(())
}
