//! What is looked up in a table.
ghost use Rattle.std.specs.Prelude.{◌≡◌, ◌+◌, ◌≤◌, Some, IfSome, option_map};
ghost use Rattle.radix_tree.specs.Table.{entry_at, first_of, best_of};
ghost use Rattle.radix_tree.specs.Found.{valued, keyed, routed};

use crate::descent::leaf_for;
use crate::finding::find_room;
use crate::laws::is_table;
use crate::routes::Table;
use crate::routing;
use crate::walk::Walk;
use mask_table::Rank;
use radix_nodes::Visits;
use sock_addrs::Inet;

impl<V> Table<V> {
    /// A walk over all routes in table order.
    ///
    /// The counter is of the table's present turn, as it is in each call that takes one.
    pub fn walk(&self, visits: &mut Visits) -> Walk<'_, V>
        requires { visits.old.turn ≡ self.now.turn }
        ensures rest { result.rest ≡ self.now.entries }
        ensures turn { result.turn ≡ self.now.turn }
        ensures counter { visits.new.turn ≡ visits.old.turn }
    {
        Walk::over(&self.nodes, self.root, visits)
    }

    /// The value of the route with this key and rank, or `None` where the table has no such route.
    pub fn get(&self, key: Inet, rank: Rank, visits: &mut Visits) -> Option<&V>
        requires { visits.old.turn ≡ self.now.turn }
        ensures entry { option_map (valued key rank) result ≡ entry_at key rank self.now.entries }
        ensures counter { visits.new.turn ≡ visits.old.turn }
    {
        if !self.counts.has(rank) {
            return None;
        }
        let Some(root) = self.root else {
            return None;
        };
        let Some(room) = find_room(&self.nodes, &self.index, root, key, rank, visits) else {
            return None;
        };
        Some(self.nodes.value(room, visits))
    }

    /// The rank and the value of the first route with this key, or `None` where the table has no such route.
    pub fn first_of(&self, key: Inet, visits: &mut Visits) -> Option<(Rank, &V)>
        requires { visits.old.turn ≡ self.now.turn }
        ensures entry { option_map (keyed key) result ≡ first_of key self.now.entries }
        ensures counter { visits.new.turn ≡ visits.old.turn }
    {
        let Some(root) = self.root else {
            return None;
        };
        let first = leaf_for(&self.nodes, root, key, visits);
        let leaf = self.nodes.links(first, visits).leaf();
        if leaf.key != key {
            return None;
        }
        Some((leaf.rank, self.nodes.value(first, visits)))
    }

    /// The best route of an address, which is the one of greatest rank among those that agree with it, or `None` where
    /// none agrees.
    pub fn best(&self, address: Inet, visits: &mut Visits) -> Option<(Inet, Rank, &V)>
        requires { visits.old.turn ≡ self.now.turn }
        ensures best { option_map routed result ≡ best_of address self.now.entries }
        ensures stands { IfSome result (λ r. entry_at r.0 r.1 self.now.entries ≡ Some (routed r)) }
        ensures counter { visits.new.turn ≡ visits.old.turn }
        ensures bound { visits.new.count ≤ visits.old.count + 2400 }
    {
        // A fact for the proof: the routes are in table order and none stands twice, on which `stands` rests.
        is_table(self);
        let Some(root) = self.root else {
            return None;
        };
        let index = &self.index;
        routing::best(&self.nodes, index, &self.counts, root, address, visits)
    }
}
