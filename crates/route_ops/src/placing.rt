//! Routes that are put into the table, in a spare room or in the place of what they were, or taken out of it.
ghost use Rattle.std.specs.Prelude.{◌≡◌, ◌+◌, ◌≤◌, length, true, Ok, Err, None, IfSome, IfNone, IsSome, OnOk, OnErr, MatchResult};
ghost use Rattle.mask_table.specs.Agreeing.{masked};
ghost use Rattle.radix_tree.specs.Table.{entry_at, with_entry, without};
ghost use Rattle.radix_tree.specs.TableLaws.{StandsIn};
ghost use Rattle.radix_tree.specs.Lending.{with_value};
ghost use Rattle.route_entries.specs.Packing.{is_small};
ghost use Rattle.route_ops.specs.Looks.{unless_there};
ghost use Rattle.route_ops.specs.Spares.{FitsSpare, KeepsFree, KeepsRooms};
ghost use Rattle.route_ops.specs.Standing.{KeepsAreOf, KeepsAreOfWith, KeepsRoutes};

use crate::spare::{Place, Spare};
use mask_table::Rank;
use radix_tree::{Entry, Table};
use route_entries::{PackedRoute, Route};
use sock_addrs::{Errno, Inet};

/// Puts a route into the table, in a spare room. EEXIST: a route with its key and rank is there.
pub(crate) fn place(
    table: &mut Table<PackedRoute>,
    spare: &mut Spare,
    route: &Entry<Route>,
) -> Result<(), Errno>
    requires fits { FitsSpare table.old spare.old }
    requires rooms { 1 ≤ length spare.old }
    requires masked { masked route.now.rank route.now.key ≡ route.now.key }
    ensures there { MatchResult result
        (λ _. unless_there route.now table.old.entries ≡ Ok route.now)
        (λ e. unless_there route.now table.old.entries ≡ Err e) }
    ensures added { OnOk result (table.new.entries ≡ with_entry route.now table.old.entries) }
    ensures kept { OnErr result (table.new.entries ≡ table.old.entries) }
    ensures rooms { OnErr result (KeepsRooms table.old table.new) }
    ensures spare { OnErr result (spare.new ≡ spare.old) }
    ensures stands { OnOk result (StandsIn table.new.entries route.now) }
    ensures keeps { KeepsRoutes table.old.entries table.new.entries }
    ensures of { KeepsAreOfWith route.now.value.ifa table.old.entries table.new.entries }
    ensures next { table.new.next ≡ table.old.next }
    ensures fits { FitsSpare table.new spare.new }
    ensures used { length spare.old ≤ length spare.new + 1 }
{
    let Place { room, block } = spare.take();
    let (packed, back) = PackedRoute::of(&route.value, block);
    match table.add(room, route.key, route.rank, packed) {
        Ok(()) => {
            spare.keep(back);
            Ok(())
        }
        Err((room, packed)) => {
            let block = packed.into_block(back);
            spare.put_back(Place { room, block });
            Err(Errno::EEXIST)
        }
    }
}

/// Puts a route whose pair isn't in the table into it, in a spare room. It can't be refused.
pub(crate) fn place_absent(table: &mut Table<PackedRoute>, spare: &mut Spare, route: &Entry<Route>)
    requires fits { FitsSpare table.old spare.old }
    requires rooms { 1 ≤ length spare.old }
    requires masked { masked route.now.rank route.now.key ≡ route.now.key }
    requires absent { entry_at route.now.key route.now.rank table.old.entries ≡ None }
    ensures added { table.new.entries ≡ with_entry route.now table.old.entries }
    ensures keeps { KeepsRoutes table.old.entries table.new.entries }
    ensures of { KeepsAreOfWith route.now.value.ifa table.old.entries table.new.entries }
    ensures next { table.new.next ≡ table.old.next }
    ensures fits { FitsSpare table.new spare.new }
    ensures used { length spare.old ≤ length spare.new + 1 }
{
    let Place { room, block } = spare.take();
    let (packed, back) = PackedRoute::of(&route.value, block);
    table.add_absent(room, route.key, route.rank, packed);
    spare.keep(back);
}

/// Writes a route of the table anew, which keeps its key and its rank. It takes no memory: where the route is kept
/// small, it is small still.
pub(crate) fn rewrite(table: &mut Table<PackedRoute>, old: &Entry<Route>, value: &Route)
    requires stands { StandsIn table.old.entries old.now }
    requires small { is_small old.now.value ≡ true → is_small value.now ≡ true }
    ensures { table.new ≡ with_value old.now.key old.now.rank table.old value.now }
{
    // The table has a route with this key and rank, so there is such a place.
    if let Some(place) = table.get_mut(old.key, old.rank) {
        place.write(value);
    }
}

/// Puts a route in the place of the one with this key and rank.
pub(crate) fn replace(table: &mut Table<PackedRoute>, key: Inet, rank: Rank, packed: PackedRoute)
    requires { IsSome (entry_at key rank table.old.entries) }
    ensures { table.new ≡ with_value key rank table.old packed }
{
    // The table has a route with this key and rank, so there is such a place.
    if let Some(place) = table.get_mut(key, rank) {
        *place = packed;
    }
}

/// Takes the route with this key and rank out of the table, where it is there, and gives its room up.
pub(crate) fn take_out(table: &mut Table<PackedRoute>, key: Inet, rank: Rank)
    ensures without { table.new.entries ≡ without key rank table.old.entries }
    ensures free { KeepsFree table.old table.new }
    ensures of { KeepsAreOf table.old.entries table.new.entries }
{
    // What it answers is the value of a route that the caller has read already.
    let _ = table.remove(key, rank);
}

/// Takes the route with this key and rank out of the table, gives its room up, and answers it. `None` where there is
/// none.
pub(crate) fn take_pair(
    table: &mut Table<PackedRoute>,
    key: Inet,
    rank: Rank,
) -> Option<Entry<Route>>
    ensures taken { result ≡ entry_at key rank table.old.entries }
    ensures without { IfSome result (λ r. table.new.entries ≡ without r.key r.rank table.old.entries) }
    ensures kept { IfNone result (table.new.entries ≡ table.old.entries) }
    ensures rooms { IfNone result (KeepsRooms table.old table.new) }
    ensures free { KeepsFree table.old table.new }
    ensures of { KeepsAreOf table.old.entries table.new.entries }
{
    let Some(value) = table.remove(key, rank) else {
        return None;
    };
    Some(Entry {
        key,
        rank,
        value: value.route(),
    })
}
