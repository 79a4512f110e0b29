//! Routes as a table.
ghost use Rattle.std.specs.Prelude.{◌≡◌, ◌++◌, OnOk, flat_map, is_err};
ghost use Rattle.memory.specs.Refusing.{Rises};
ghost use Rattle.world_words.specs.Table.{heading, route_line, table_words};

use crate::answers::put_interface_name;
use crate::columns::{
    put_destination_column, put_gate_column, put_letters_column, put_number_column,
};
use lab_text::Text;
use memory::Memory;
use route_core::{RouteTold, World};
use std::alloc::AllocError;

/// Appends routes as a table, in the way of `netstat -rn`: a heading, and for each route a line of its destination, its
/// gateway, its flags as letters, how many packets took it, and the interface that it leads out of. `Err`: there is no
/// memory, which is counted.
pub fn put_table(
    text: &mut Text,
    routes: &[RouteTold],
    world: &World,
    memory: &mut Memory,
) -> Result<(), AllocError>
    ensures put { OnOk result (text.new ≡ text.old ++ table_words routes.now world.now) }
    ensures counted { Rises (is_err result) memory.old memory.new }
{
    put_heading(text, memory)?;
    put_routes(text, routes, world, memory)
}

/// Appends the heading.
fn put_heading(text: &mut Text, memory: &mut Memory) -> Result<(), AllocError>
    ensures put { OnOk result (text.new ≡ text.old ++ heading) }
    ensures counted { Rises (is_err result) memory.old memory.new }
{
    text.put(
        b"Destination        Gateway           Flags    Use      Interface\n",
        memory,
    )
}

/// Appends a line for each route.
fn put_routes(
    text: &mut Text,
    routes: &[RouteTold],
    world: &World,
    memory: &mut Memory,
) -> Result<(), AllocError>
    ensures put { OnOk result (text.new ≡ text.old ++ flat_map (route_line world.now) routes.now) }
    ensures counted { Rises (is_err result) memory.old memory.new }
{
    'routes: for route in routes {
        put_line(text, route, world, memory)?;
    }
    Ok(())
}

/// Appends the line of a route.
fn put_line(
    text: &mut Text,
    route: &RouteTold,
    world: &World,
    memory: &mut Memory,
) -> Result<(), AllocError>
    ensures put { OnOk result (text.new ≡ text.old ++ route_line world.now route.now) }
    ensures counted { Rises (is_err result) memory.old memory.new }
{
    let choice = &route.choice;
    put_destination_column(text, choice.key, choice.rank, 18, memory)?;
    put_gate_column(text, &choice.gateway, 17, memory)?;
    put_letters_column(text, choice.flags, 8, memory)?;
    put_number_column(text, u64::from(route.use_count), 8, memory)?;
    put_interface_name(text, choice.index, world, memory)?;
    text.put(b"\n", memory)
}
