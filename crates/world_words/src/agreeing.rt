//! The routes that agree with an address.
ghost use Rattle.std.specs.Prelude.{◌≡◌, ◌≤◌, ◌++◌, OnOk, flat_map, is_err};
ghost use Rattle.std.specs.List.{list_any};
ghost use Rattle.event_file.specs.Printed.{inet_word};
ghost use Rattle.memory.specs.Refusing.{Rises};
ghost use Rattle.world_words.specs.Agreeing.{agreeing_heading, agreeing_line, agreeing_words, in_order, is_for as is_for_address, of_rank, of_ranks};

use crate::answers::{put_interface_name, put_toward};
use crate::flags::put_flag_names;
use lab_text::Text;
use mask_table::{Rank, agrees};
use memory::Memory;
use route_core::{RouteTold, World};
use sock_addrs::Inet;
use std::alloc::AllocError;

/// Appends the routes that agree with an address, the longest mask first, each with what it says; the first is taken.
/// Or that none agrees. `world` has the interfaces that they lead out of. `Err`: there is no memory, which is counted.
pub fn put_agreeing(
    text: &mut Text,
    address: Inet,
    routes: &[RouteTold],
    world: &World,
    memory: &mut Memory,
) -> Result<(), AllocError>
    ensures put { OnOk result (text.new ≡ text.old ++ agreeing_words address routes.now world.now) }
    ensures counted { Rises (is_err result) memory.old memory.new }
{
    put_heading(text, address, routes, memory)?;
    put_in_order(text, address, routes, world, memory)
}

/// Appends what the lines behind it are, or that there is none.
fn put_heading(
    text: &mut Text,
    address: Inet,
    routes: &[RouteTold],
    memory: &mut Memory,
) -> Result<(), AllocError>
    ensures put { OnOk result (text.new ≡ text.old ++ agreeing_heading address routes.now) }
    ensures counted { Rises (is_err result) memory.old memory.new }
{
    let some = is_for_one(address, routes);
    if some {
        return put_around(
            text,
            b"routes that agree with ",
            address,
            b", the longest mask first, which is taken:\n",
            memory,
        );
    }
    put_around(text, b"no route agrees with ", address, b"\n", memory)
}

/// Appends an address, between words.
fn put_around(
    text: &mut Text,
    before: &[u8],
    address: Inet,
    behind: &[u8],
    memory: &mut Memory,
) -> Result<(), AllocError>
    ensures put { OnOk result (text.new ≡ text.old ++ (before.now ++ inet_word address ++ behind.now)) }
    ensures counted { Rises (is_err result) memory.old memory.new }
{
    text.put(before, memory)?;
    text.put_inet(address, memory)?;
    text.put(behind, memory)
}

/// Whether an address agrees with one of these routes.
fn is_for_one(address: Inet, routes: &[RouteTold]) -> bool
    ensures { result ≡ list_any (is_for_address address) routes.now }
{
    routes.iter().any(|route| is_for(address, route))
}

/// Whether an address agrees with a route.
fn is_for(address: Inet, route: &RouteTold) -> bool
    ensures { result ≡ is_for_address address route.now }
{
    agrees(route.choice.key, route.choice.rank, address)
}

/// Appends the lines of the routes that agree, by falling ranks.
#[tactic(auto, unfolding(crate::specs::Agreeing::in_order))]
fn put_in_order(
    text: &mut Text,
    address: Inet,
    routes: &[RouteTold],
    world: &World,
    memory: &mut Memory,
) -> Result<(), AllocError>
    ensures put { OnOk result (text.new
        ≡ text.old ++ flat_map (agreeing_line world.now) (in_order address routes.now)) }
    ensures counted { Rises (is_err result) memory.old memory.new }
{
    put_of_ranks(text, 34, address, routes, world, memory)
}

/// Appends the lines of the routes of so many ranks that agree, from 33 down.
fn put_of_ranks(
    text: &mut Text,
    many: u8,
    address: Inet,
    routes: &[RouteTold],
    world: &World,
    memory: &mut Memory,
) -> Result<(), AllocError>
    requires { many ≤ 34 }
    ensures put { OnOk result (text.new
        ≡ text.old ++ flat_map (agreeing_line world.now) (of_ranks address routes.now many)) }
    ensures counted { Rises (is_err result) memory.old memory.new }
{
    'ranks: for i in 0..many {
        put_of_rank(text, Rank::new(33 - i), address, routes, world, memory)?;
    }
    Ok(())
}

/// Appends the lines of the routes of one rank that agree.
fn put_of_rank(
    text: &mut Text,
    rank: Rank,
    address: Inet,
    routes: &[RouteTold],
    world: &World,
    memory: &mut Memory,
) -> Result<(), AllocError>
    ensures put { OnOk result (text.new
        ≡ text.old ++ flat_map (agreeing_line world.now) (of_rank address routes.now rank)) }
    ensures counted { Rises (is_err result) memory.old memory.new }
{
    'routes: for route in routes {
        if route.choice.rank == rank && is_for(address, route) {
            put_line(text, route, world, memory)?;
        }
    }
    Ok(())
}

/// Appends the line of a route, with what it says.
fn put_line(
    text: &mut Text,
    route: &RouteTold,
    world: &World,
    memory: &mut Memory,
) -> Result<(), AllocError>
    ensures put { OnOk result (text.new ≡ text.old ++ agreeing_line world.now route.now) }
    ensures counted { Rises (is_err result) memory.old memory.new }
{
    let choice = &route.choice;
    text.put(b"  ", memory)?;
    text.put_destination(choice.key, choice.rank, memory)?;
    text.put(b" leads", memory)?;
    put_toward(text, choice, memory)?;
    text.put(b" out of ", memory)?;
    put_interface_name(text, choice.index, world, memory)?;
    text.put(b" (flags ", memory)?;
    put_flag_names(text, choice.flags, memory)?;
    text.put(b")\n", memory)
}
