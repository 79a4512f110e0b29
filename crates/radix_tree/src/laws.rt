//! Laws of the table: each function does nothing, and its contract is the law.

ghost use Rattle.std.specs.Prelude.{◌≡◌, ◌≤◌, ℕ, length};
ghost use Rattle.radix_tree.specs.Table.{IsTable, uses};
ghost use Rattle.radix_tree.specs.TableLaws.{PrecedesInWords, PrecedesOneWay, PrecedesTransitively, PrecedesOrSame};
ghost use Rattle.radix_tree.specs.TableLaws.{MembersStand, MembersAreRoutes, EntryAtIsMember, FirstOfIsMember};
ghost use Rattle.radix_tree.specs.TableLaws.{BestIsMember, FirstIsGreatest, BestIsGreatest, BestIsUnique, NoneAgrees};
ghost use Rattle.radix_tree.specs.TableLaws.{WithIsTable, WithoutIsTable, WithStands, WithKeepsOthers};
ghost use Rattle.radix_tree.specs.TableLaws.{WithoutLeavesNone, WithoutKeepsOthers, MembersOfWith, MembersOfWithout};
ghost use Rattle.radix_tree.specs.TableLaws.{WithCounts, WithoutCounts, WithThenWithout, WithoutThenWith};
ghost use Rattle.radix_tree.specs.TableLaws.{WithTwiceIsLast, BestStays, BestIsGreater, BestStaysWithout};

use crate::routes::Table;

/// What a table holds is in table order, no pair twice, and each key is an address with no bit past its rank.
pub fn is_table<V>(table: &Table<V>)
    ensures { IsTable table.now.entries }
{
    // A fact for the proof: what holds of a table is known once a field of it is looked at.
    let _ = &table.root;
}

/// A table uses one room for each of its routes: as many numbers of rooms are in use as it has entries, and no number
/// stands among them twice.
pub fn one_room_a_route<V>(table: &Table<V>)
    ensures as_many { length table.now.numbers ≡ length table.now.entries }
    ensures once { (n : ℕ) → uses n table.now.numbers ≤ 1 }
{
    // A fact for the proof: what holds of a table is known once a field of it is looked at.
    let _ = &table.root;
}

/// Table order: keys rise, and for one key rank 33 comes first and then falling ranks. It puts each two pairs in order,
/// one way, and what precedes an entry precedes all that this one precedes.
pub fn table_order<V>()
    ensures words { PrecedesInWords V }
    ensures one_way { PrecedesOneWay V }
    ensures transitive { PrecedesTransitively V }
    ensures each_two { PrecedesOrSame V }
{}

/// Each member of a table is a route, and is found by its pair: to stand in a table is to be one of its members.
pub fn members<V>()
    ensures stand { MembersStand V }
    ensures routes { MembersAreRoutes V }
{}

/// What is found at a pair, first of a key, or as the best route of an address is a member, and as it was asked for.
pub fn found_is_member<V>()
    ensures entry_at { EntryAtIsMember V }
    ensures first_of { FirstOfIsMember V }
    ensures best_of { BestIsMember V }
{}

/// Of a key the first member is the one of greatest rank.
pub fn first_is_greatest<V>()
    ensures { FirstIsGreatest V }
{}

/// The best route of an address stands in the table, the address agrees with it, and with none of greater rank; no
/// other route is so, and where there is none the address agrees with no route.
pub fn best_is_greatest<V>()
    ensures greatest { BestIsGreatest V }
    ensures unique { BestIsUnique V }
    ensures none { NoneAgrees V }
{}

/// A table with or without a route is a table.
pub fn stays_a_table<V>()
    ensures with { WithIsTable V }
    ensures without { WithoutIsTable V }
{}

/// An entry that was put in stands in the table, nothing stands at a pair that was taken out, and at each other pair
/// stands what stood there.
pub fn pairs_after<V>()
    ensures with { WithStands V }
    ensures others_with { WithKeepsOthers V }
    ensures without { WithoutLeavesNone V }
    ensures others_without { WithoutKeepsOthers V }
{}

/// A table with an entry has that and members of before, a table without a pair has members of before alone.
pub fn members_after<V>()
    ensures with { MembersOfWith V }
    ensures without { MembersOfWithout V }
{}

/// An entry whose pair wasn't there is one member more, and a pair that is taken out one less.
pub fn counts_after<V>()
    ensures with { WithCounts V }
    ensures without { WithoutCounts V }
{}

/// Putting a route in and taking it out undo each other, and of two entries with one pair the last stays.
pub fn with_and_without<V>()
    ensures with_then_without { WithThenWithout V }
    ensures without_then_with { WithoutThenWith V }
    ensures twice { WithTwiceIsLast V }
{}

/// A route that an address doesn't agree with leaves the address's best route when it is put in, and so does one that
/// is taken out and wasn't it.
pub fn best_stays<V>()
    ensures with { BestStays V }
    ensures without { BestStaysWithout V }
{}

/// A route that an address agrees with is its best one once it is put in, unless there was one of greater rank.
pub fn best_is_greater<V>()
    ensures { BestIsGreater V }
{}
