//! How rooms are read.
ghost use Rattle.std.specs.Prelude.{◌≡◌, ◌+◌, Some};
ghost use Rattle.std.specs.FinMap.{get};
ghost use Rattle.radix_nodes.specs.Rooms.{Seen, Has};
ghost use Rattle.radix_nodes.specs.Naming.{number_of};

use crate::id::Id;
use crate::links::Links;
use crate::nodes::Nodes;
use crate::room::Full;
use crate::visits::Visits;

impl<V> Nodes<V> {
    /// The links of a room, which has to be in the map. It counts as one visit.
    pub fn links(&self, id: Id, visits: &mut Visits) -> &Links
        requires there { Has self.now.lodged id }
        requires turn { visits.old.turn ≡ self.now.turn }
        ensures links { (room : Seen V) → get self.now.lodged (number_of id) ≡ Some room → result.now ≡ room.links }
        ensures visit { visits.new ≡ record visits.old { count = visits.old.count + 1 } }
    {
        &self.visit(id, visits).links
    }

    /// The value in a room, which has to be in the map. It counts as one visit.
    pub fn value(&self, id: Id, visits: &mut Visits) -> &V
        requires there { Has self.now.lodged id }
        requires turn { visits.old.turn ≡ self.now.turn }
        ensures value { (room : Seen V) → get self.now.lodged (number_of id) ≡ Some room → result.now ≡ room.value }
        ensures visit { visits.new ≡ record visits.old { count = visits.old.count + 1 } }
    {
        &self.visit(id, visits).value
    }

    /// What stands in a room. It counts as one visit.
    fn visit(&self, id: Id, visits: &mut Visits) -> &Full<V>
        requires there { Has self.now.lodged id }
        ensures links { (room : Seen V) → get self.now.lodged (number_of id) ≡ Some room
            → result.now.links ≡ room.links }
        ensures value { (room : Seen V) → get self.now.lodged (number_of id) ≡ Some room
            → result.now.value ≡ room.value }
        ensures visit { visits.new ≡ record visits.old { count = visits.old.count + 1 } }
    {
        visits.tick();
        self.blocks.get(id)
    }
}
