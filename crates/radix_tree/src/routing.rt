//! The best route of an address.
ghost use Rattle.std.specs.Prelude.{◌≡◌, Some, option_map};
ghost use Rattle.radix_tree.specs.Bounds.{best_reads};
ghost use Rattle.radix_tree.specs.Table.{best_of};
ghost use Rattle.radix_tree.specs.Found.{routed};
ghost use Rattle.radix_tree.specs.Index.{Indexes};
ghost use Rattle.radix_tree.specs.Kept.{AreCounted};
ghost use Rattle.radix_tree.specs.Reads.{Reads};
ghost use Rattle.radix_tree.specs.Whole.{IsWhole, shown};

use crate::finding::find_best;
use crate::index::Index;
use crate::roles;
use mask_table::{Counts, Rank};
use radix_nodes::{Node, Nodes, Visits};
use sock_addrs::Inet;

/// The best route of an address in the tree beneath a root, or `None` where none agrees.
pub(crate) fn best<'a, V>(
    nodes: &'a Nodes<V>,
    index: &Index,
    counts: &Counts,
    root: Node,
    address: Inet,
    visits: &mut Visits,
) -> Option<(Inet, Rank, &'a V)>
    requires whole { IsWhole nodes.now.lodged root }
    requires indexed { Indexes index.now nodes.now.lodged }
    requires counted { AreCounted counts.now (shown nodes.now.lodged (Some root)) }
    requires turn { visits.old.turn ≡ nodes.now.turn }
    ensures best { option_map routed result ≡ best_of address (shown nodes.now.lodged (Some root)) }
    ensures visits { Reads visits.old visits.new best_reads }
{
    let Some(room) = find_best(nodes, index, counts, root, address, visits) else {
        return None;
    };
    let leaf = roles::leaf(nodes, room, visits);
    Some((leaf.key, leaf.rank, nodes.value(room, visits)))
}
