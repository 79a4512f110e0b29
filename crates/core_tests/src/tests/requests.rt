//! `check_add`, which no program calls.
ghost use Rattle.std.specs.Prelude.{◌≡◌};
ghost use Rattle.route_ops.specs.Standing.{AreOf};

use if_addrs::{Interfaces, Kind, LinkAddress};
use mask_table::Prefix;
use memory::Memory;
use radix_tree::Table;
use route_entries::{Blocks, PackedRoute};
use route_msgs::Metrics;
use route_ops::{NewRoute, check_add, finish, prepare, request_add};
use sock_addrs::{Errno, Gate, Inet, Name};
use std::test::Fail;

/// A route to this network of 8 bits, by way of a gateway in 10.0.0.0/8.
fn route_to(network: Inet) -> NewRoute {
    NewRoute {
        destination: network,
        netmask: Prefix::new(8),
        gateway: Gate::Inet(Inet([10, 0, 0, 2])),
        genmask: None,
        flags: 0,
        inits: 0,
        metrics: Metrics::default(),
    }
}

/// What refuses to add the route.
fn checked(
    table: &mut Table<PackedRoute>,
    interfaces: &Interfaces,
    asked: &NewRoute,
) -> Result<(), Errno>
    requires { AreOf interfaces.now table.old.entries }
    ensures { table.new.entries ≡ table.old.entries }
{
    let mut visits = table.begin();
    check_add(table, &mut visits, interfaces, asked)
}

#[test]
fn a_route_is_checked_before_it_is_added(rt: HostRuntime) -> Result<(), Fail> {
    let mut memory = Memory::new();
    let mut table = Table::new(rt.alloc())?;
    let mut interfaces = Interfaces::new(rt.alloc());
    let route = route_to(Inet([20, 0, 0, 0]));
    let before = checked(&mut table, &interfaces, &route);
    assert_eq!(rt; before, Err(Errno::ENETUNREACH));
    let name = Name::new(b"le0").ok_or("a name")?;
    let link = LinkAddress::new(&[]).ok_or("a link-layer address")?;
    let prefix = Prefix::new(8).ok_or("a mask's length")?;
    interfaces.attach(name, Kind::Broadcast, 6, &link, &mut memory)?;
    interfaces.check_addr(name, Inet([10, 0, 0, 1]), None)?;
    interfaces.add_addr(name, Inet([10, 0, 0, 1]), prefix, false, None, &mut memory)?;
    let reached = checked(&mut table, &interfaces, &route);
    assert_eq!(rt; reached, Ok(()));
    let mut blocks = Blocks::new(rt.alloc());
    let mut spare = prepare(&mut table, &mut blocks, &mut memory)?;
    let added = request_add(&mut table, &interfaces, &mut spare, &route).is_ok();
    finish(&mut table, &mut blocks, spare);
    assert!(rt; added);
    let again = checked(&mut table, &interfaces, &route);
    assert_eq!(rt; again, Err(Errno::EEXIST));
    Ok(())
}
