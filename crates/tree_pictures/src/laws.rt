//! Laws of trees and searches: each function does nothing, and its contract is the law.

ghost use Rattle.tree_pictures.specs.Laws.{LeavesAreTheList, TablesHaveTrees, TreesAreUnique, TablesKeepThisTree, TablesListTheirMasks, SearchFindsTheBest, WaysEndAtTheFound};

use radix_tree::laws::{best_is_greatest, found_is_member, members, table_order};

/// The routes of the tree of a list, from left to right, are the list.
pub fn leaves_are_the_list()
    ensures { LeavesAreTheList }
{}

/// The tree of a table's routes is a tree: bits rise on every way down, and all keys beneath a bit node are the same
/// before its bit, which is 0 on the one side and 1 on the other. It is the only one with these routes from left to
/// right, so the one that the table keeps in rooms has its shape.
pub fn tree_is_the_table_s<V>()
    ensures tree { TablesHaveTrees V }
    ensures unique { TreesAreUnique }
    ensures kept { TablesKeepThisTree V }
{
    // A fact for the proof: the order of a table's entries.
    table_order::<V>();
}

/// Each bit node of the tree of a table's routes lists all the masks of the routes beneath it that end at or before its
/// bit and past that of the bit node above, and no others.
pub fn masks_are_listed<V>()
    ensures { TablesListTheirMasks V }
{
    // A fact for the proof: the order of a table's entries.
    table_order::<V>();
}

/// The search for an address ends at the best route of the table, or without one where there is none.
pub fn search_finds_the_best<V>()
    ensures { SearchFindsTheBest V }
{
    // Facts for the proof: the order of a table's entries, and which are among them.
    table_order::<V>();
    members::<V>();
    found_is_member::<V>();
    best_is_greatest::<V>();
}

/// A route that is found agrees with the address, and the text of the way to it ends with the step at that route.
pub fn ways_end_at_the_found()
    ensures { WaysEndAtTheFound }
{}
