//! The calls of a world that begin a count of their own, which no program makes: none is refused where there is memory.

use mask_table::Prefix;
use memory::Memory;
use route_core::{Answer, Command, Kind, LinkAddress, NewGateway, Room, World};
use route_msgs::flags::{RTF_GATEWAY, RTF_UP};
use route_msgs::kinds::RTM_ADD;
use route_msgs::{AddrInfo, Header, Sockaddr, write_route_msg};
use sock_addrs::{Gate, Inet, Name};
use std::test::Fail;

fn is_done(answer: &Answer<'_>) -> bool {
    matches!(answer, Answer::Done)
}

fn is_whole_dump(answer: &Answer<'_>) -> bool {
    matches!(answer, Answer::Messages(_, None))
}

#[test]
fn no_call_wants_more_memory_than_there_is(rt: HostRuntime) -> Result<(), Fail> {
    let name = Name::new(b"le0").ok_or("a name")?;
    let id = Name::new(b"rd").ok_or("a name")?;
    let link = LinkAddress::new(&[]).ok_or("a link-layer address")?;
    let prefix = Prefix::new(8).ok_or("a mask's length")?;
    let gateway = Inet([10, 0, 0, 2]);
    let mut world = World::new(rt.alloc())?;
    let attached = world.attach(name, Kind::Broadcast, 6, link);
    assert!(rt; is_done(&attached));
    let addressed = world.add_address(name, Inet([10, 0, 0, 1]), prefix, true, None);
    assert!(rt; is_done(&addressed));
    let opened = world.listen(id, 100, 0);
    assert!(rt; is_done(&opened));
    let header = Header {
        kind: RTM_ADD,
        flags: u32::from(RTF_UP | RTF_GATEWAY),
        ..Header::default()
    };
    let addresses = AddrInfo {
        dst: Some(Sockaddr::inet(Inet([20, 0, 0, 0]))),
        gateway: Some(Sockaddr::gate(Gate::Inet(gateway))),
        netmask: Some(Sockaddr::mask(8)),
        ..AddrInfo::default()
    };
    let written = world.write(id, &write_route_msg(&header, &addresses));
    assert!(rt; is_done(&written));
    let sent = world.packet(Inet([10, 0, 0, 9]));
    assert!(rt; matches!(sent, Answer::Routed(_)));
    let redirected = world.redirect(&NewGateway {
        destination: Inet([20, 9, 9, 9]),
        gateway: Inet([10, 0, 0, 3]),
        author: gateway,
    });
    assert!(rt; is_done(&redirected));
    let mut room = Room::new(rt.alloc(), &mut Memory::new())?;
    let dump: Command = Command::Dump {
        filter: None,
        room: 8192,
    };
    let dumped = world.dump(None, 8192);
    assert!(rt; is_whole_dump(&dumped));
    let stepped = is_whole_dump(&world.step(&dump, &mut room));
    assert!(rt; stepped);
    let obeyed = is_whole_dump(&world.obey(&dump.said(), &mut room));
    assert!(rt; obeyed);
    Ok(())
}
