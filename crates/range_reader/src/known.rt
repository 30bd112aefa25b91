// The links of inner nodes that earlier reads of a version came past.
ghost use Rattle.std.specs.Prelude.{◌≡◌, ◌+◌, ◌<◌, ◌≤◌, length, All};
ghost use Rattle.tree_geom.specs.Geometry.{left_half, right_half};
ghost use Rattle.range_log.specs.Log.{newest_of};
ghost use Rattle.snapshot.specs.Versions.{Version, HasNodeFor, NodesLieIn};
ghost use Rattle.range_reader.specs.Reading.{log_of, newest_in, IsKnown};

use node_store::{NoMemory, NodeHouse, Range};
use snapshot::View;
use std::alloc::Global;
use std::sync::ledger::Ledger;
use tree_geom::Steps;

/// The links of the newest node of a range, which a read of a version came past: the versions of the newest nodes of its halves.
/// A range of no bytes stands for none.
#[derive(Clone, Copy)]
pub struct KnownNode {
    pub range: Range,
    pub left: u64,
    pub right: u64,
}

impl KnownNode {
    /// No node. It stands for any version.
    pub fn none() -> KnownNode
        ensures { (s : Version) → IsKnown s result }
    {
        KnownNode {
            range: Range { offset: 0, size: 0 },
            left: 0,
            right: 0,
        }
    }
}

// As `links` tells them, of the newest node of the range. It isn't asked for where it is known, and else it is known from then on, if
// there is that place among them.
pub(crate) fn known_links<L: Ledger>(
    snapshot: &View,
    nodes: &NodeHouse,
    known: &mut [KnownNode],
    place: u64,
    j: u64,
    range: Range,
    steps: &mut Steps<L>,
) -> (u64, u64)
    requires here { NodesLieIn nodes.now snapshot.now }
    requires known { All (IsKnown snapshot.now) known.old }
    requires newest { j ≡ newest_in snapshot.now range }
    requires has { HasNodeFor snapshot.now j range }
    requires inner { snapshot.now.page_size < range.size }
    ensures left { result.0 ≡ newest_of snapshot.now.page_size (log_of snapshot.now) j (left_half range) }
    ensures right { result.1 ≡ newest_of snapshot.now.page_size (log_of snapshot.now) j (right_half range) }
    ensures step { steps.new ≤ steps.old + 1 }
    ensures known { All (IsKnown snapshot.now) known.new }
    ensures room { length known.new ≡ length known.old }
{
    if place >= known.len() as u64 {
        return snapshot.links(nodes, j, range, steps);
    }
    let place = place as usize;
    let node = known[place];
    if node.range == range {
        return (node.left, node.right);
    }
    let (left, right) = snapshot.links(nodes, j, range, steps);
    known[place] = KnownNode { range, left, right };
    (left, right)
}
