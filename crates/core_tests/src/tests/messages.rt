//! Messages, taken apart and written.

use route_msgs::bits::{RTA_DST, RTA_GATEWAY, RTA_NETMASK};
use route_msgs::flags::{RTF_CLONING, RTF_DONE, RTF_UP};
use route_msgs::kinds::{RTM_GET, RTM_NEWADDR};
use route_msgs::{
    AddrInfo, Header, IfaHeader, Parsed, Slot, Sockaddr, read_message, set_pid, write_ifa_msg,
    write_route_msg,
};
use sock_addrs::{Gate, Inet, Link};

// a question for the route to 10.9.9.9, and the reply
const QUESTION: [u8; 92] = [
    0x00, 0x5c, 3, 4, 0, 0, 0, 0, 0, 0, 0, 0, 0, 0, 0, 1, 0, 0, 0, 0, 0, 0, 0, 1, 0, 0, 0, 0, 0, 0,
    0, 0, 0, 0, 0, 0, 0, 0, 0, 0, 0, 0, 0, 0, 0, 0, 0, 0, 0, 0, 0, 0, 0, 0, 0, 0, 0, 0, 0, 0, 0, 0,
    0, 0, 0, 0, 0, 0, 0, 0, 0, 0, 0, 0, 0, 0, 0x10, 2, 0, 0, 0x0a, 9, 9, 9, 0, 0, 0, 0, 0, 0, 0, 0,
];

const REPLY: [u8; 116] = [
    0x00, 0x74, 3, 4, 0, 0, 0, 0, 0, 0, 1, 0x41, 0, 0, 0, 7, 0, 0, 0, 0x64, 0, 0, 0, 1, 0, 0, 0, 0,
    0, 0, 0, 0, 0, 0, 0, 0, 0, 0, 0, 0, 0, 0, 0, 0, 0, 0, 0, 0, 0, 0, 0, 0, 0, 0, 0, 0, 0, 0, 0, 0,
    0, 0, 0, 0, 0, 0, 0, 0, 0, 0, 0, 0, 0, 0, 0, 0, 0x10, 2, 0, 0, 0x0a, 0, 0, 0, 0, 0, 0, 0, 0, 0,
    0, 0, 0x10, 2, 0, 0, 0x0a, 0, 0, 1, 0, 0, 0, 0, 0, 0, 0, 0, 5, 0, 0, 0, 0xff, 0, 0, 0,
];

// the address 10.0.0.1/8 of the first interface, le0, is announced
const ANNOUNCED: [u8; 80] = [
    0x00, 0x50, 3, 0x0c, 0, 0, 0, 0xb4, 0, 0, 1, 0, 0, 1, 0, 0, 0, 0, 0, 0, 5, 0, 0, 0, 0xff, 0, 0,
    0, 0x14, 0x12, 0, 1, 6, 3, 6, 0, 0x6c, 0x65, 0x30, 8, 0, 0x20, 1, 2, 3, 0, 0, 0, 0x10, 2, 0, 0,
    0x0a, 0, 0, 1, 0, 0, 0, 0, 0, 0, 0, 0, 0x10, 2, 0, 0, 0x0a, 0xff, 0xff, 0xff, 0, 0, 0, 0, 0, 0,
    0, 0,
];

const LINK: [u8; 20] = [
    0x14, 0x12, 0, 1, 6, 3, 6, 0, 0x6c, 0x65, 0x30, 8, 0, 0x20, 1, 2, 3, 0, 0, 0,
];

#[test]
fn takes_a_question_apart(rt: HostRuntime) {
    let slot = Slot { start: 76, len: 16 };
    let want = Parsed {
        header: Header {
            kind: RTM_GET,
            addrs: RTA_DST,
            seq: 1,
            ..Header::default()
        },
        slots: [Some(slot), None, None, None, None, None, None, None],
    };
    assert_eq!(rt; read_message(&QUESTION).ok(), Some(want));
    assert_eq!(rt; slot.bytes(&QUESTION), &QUESTION[76..]);
}

#[test]
fn writes_a_reply(rt: HostRuntime) {
    let header = Header {
        kind: RTM_GET,
        flags: u32::from(RTF_UP | RTF_CLONING | RTF_DONE),
        addrs: RTA_DST,
        pid: 100,
        seq: 1,
        ..Header::default()
    };
    let addresses = AddrInfo {
        dst: Some(Sockaddr::inet(Inet([10, 0, 0, 0]))),
        gateway: Some(Sockaddr::gate(Gate::Inet(Inet([10, 0, 0, 1])))),
        netmask: Some(Sockaddr::mask(8)),
        ..AddrInfo::default()
    };
    let message = write_route_msg(&header, &addresses);
    assert_eq!(rt; message.as_slice(), REPLY.as_slice());
    let addrs = RTA_DST | RTA_GATEWAY | RTA_NETMASK;
    let want = Header { addrs, ..header };
    assert_eq!(rt;
        read_message(&message).ok().map(|parsed| parsed.header),
        Some(want)
    );
}

#[test]
fn announces_an_address(rt: HostRuntime) {
    let header = IfaHeader {
        kind: RTM_NEWADDR,
        flags: u32::from(RTF_CLONING),
        index: 1,
        ..IfaHeader::default()
    };
    let addresses = AddrInfo {
        netmask: Some(Sockaddr::mask(8)),
        ifp: Link::new(&LINK).map(|link| Sockaddr::link(link)),
        ifa: Some(Sockaddr::inet(Inet([10, 0, 0, 1]))),
        brd: Some(Sockaddr::inet(Inet([10, 255, 255, 255]))),
        ..AddrInfo::default()
    };
    assert_eq!(rt;
        write_ifa_msg(&header, &addresses).as_slice(),
        ANNOUNCED.as_slice()
    );
}

#[test]
fn pads_a_link_layer_address(rt: HostRuntime) {
    let Some(link) = Link::new(&[9, 0x12, 0, 1, 6, 0, 1, 0, 0x77]) else {
        assert!(rt; false, "it is no link-layer address");
        return;
    };
    let text = Sockaddr::link(link);
    assert_eq!(rt;
        text.as_bytes(),
        [9, 0x12, 0, 1, 6, 0, 1, 0, 0x77, 0, 0, 0].as_slice()
    );
}

#[test]
fn patches_a_pid(rt: HostRuntime) {
    let mut message = QUESTION;
    set_pid(&mut message, 0x0102_0304);
    assert_eq!(rt; &message[16..20], [1, 2, 3, 4].as_slice());
    assert_eq!(rt;
        (&message[..16], &message[20..]),
        (&QUESTION[..16], &QUESTION[20..])
    );
}

#[test]
fn refuses_what_is_no_message(rt: HostRuntime) {
    let mut version = QUESTION;
    version[2] = 4;
    let mut overrun = QUESTION;
    overrun[76] = 17;
    let cases = [
        (&QUESTION[..75], "the length is wrong"),
        (&QUESTION[..91], "the length is wrong"),
        (&version, "the version is not 3"),
        (&overrun, "an address passes the end"),
    ];
    for (message, want) in cases {
        let said = match read_message(message) {
            Ok(_) => String::new(rt.alloc()),
            Err(fault) => format!(in rt.alloc(); "{fault}").unwrap_or(String::new(rt.alloc())),
        };
        assert_eq!(rt; said.as_str(), want);
    }
}
