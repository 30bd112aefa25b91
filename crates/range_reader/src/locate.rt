// Which stored page holds a byte of a version.
ghost use Rattle.std.specs.Prelude.{◌≡◌, ◌↔◌, List, ◌+◌, ◌*◌, ◌<◌, ◌≤◌, length, All, IsNone, IfSome};
ghost use Rattle.tree_geom.specs.Geometry.{page_range};
ghost use Rattle.range_log.specs.Visits.{backs_of};
ghost use Rattle.page_store.specs.House.{House};
ghost use Rattle.page_store.specs.Page.{IsAmong};
ghost use Rattle.snapshot.specs.Versions.{size_now, HasNodeFor, NodesLieIn, PagesLieIn};
ghost use Rattle.range_reader.specs.Reading.{falls, newest_in, bound, IsLeafOf};
ghost use Rattle.range_reader.specs.Holders.{HasByte, IsReached, IsHolder};

use crate::descent::newest_of_page;
use crate::gap::{Gap, first_with};
use node_store::{LeafParts, NodeHouse};
use page_store::StoredPage;
use snapshot::{Snapshot, View};
use std::sync::ledger::Ledger;
use tree_geom::{Steps, height};

/// The stored page that holds byte `at` of the version. None exactly where `at` isn't below the version's size.
///
/// From the newest leaf of the byte's page along the backs, the first leaf that has the byte tells it. It is a page that was stored
/// for that leaf's update, or that page of the blob as the update stored it anew. Its replicas are where a read of the byte goes.
///
/// It takes no lock and no memory, asks no door and waits for nobody. Its node steps are bounded like those of a read of this one byte;
/// there are none where it answers None.
pub fn holder<'s, L: Ledger>(
    snapshot: &'s Snapshot,
    nodes: &NodeHouse,
    at: u64,
    steps: &mut Steps<L>,
) -> Option<&'s StoredPage>
    requires here { NodesLieIn nodes.now snapshot.now }
    ensures none { IsNone result ↔ (size_now snapshot.now ≤ at) }
    ensures holder { IfSome result (λ stored. IsHolder snapshot.now at stored.now) }
    ensures among { (houses : List House) → PagesLieIn houses snapshot.now → IfSome result (λ stored. All (IsAmong houses) stored.now.spots) }
    ensures no_steps { size_now snapshot.now ≤ at → steps.new ≡ steps.old }
    ensures steps { steps.new ≤ steps.old + bound snapshot.now at 1 }
{
    range_log::laws::leaves_fill();
    range_log::laws::folds_are();
    range_log::laws::page_bytes_stay();
    snapshot.stands();
    let size = snapshot.size();
    if size <= at {
        return None;
    }
    let page_size = snapshot.page_size();
    let bytes = page_size.bytes();
    let page = at / bytes;
    let byte = (at % bytes) as usize;
    let view = snapshot.view();
    let levels = height(page_size, size);
    let newest = newest_of_page(&view, nodes, levels, page, steps);
    let (first, parts) = first_with_byte(&view, nodes, newest, page, byte, steps);
    let piece = parts.piece_with(byte);
    Some(snapshot.page(first, piece.page))
}

// The first leaf that has this byte of the page, from its newest leaf along the backs, and that leaf's version. `newest` is the
// version of the newest leaf.
fn first_with_byte<L: Ledger>(
    snapshot: &View,
    nodes: &NodeHouse,
    newest: u64,
    page: u64,
    byte: usize,
    steps: &mut Steps<L>,
) -> (u64, LeafParts)
    requires here { NodesLieIn nodes.now snapshot.now }
    requires newest { newest ≡ newest_in snapshot.now (page_range snapshot.now.page_size page) }
    requires stands { HasNodeFor snapshot.now newest (page_range snapshot.now.page_size page) }
    requires within { byte < snapshot.now.page_size }
    requires valid { page * snapshot.now.page_size + byte < size_now snapshot.now }
    ensures stands { HasNodeFor snapshot.now result.0 (page_range snapshot.now.page_size page) }
    ensures leaf { IsLeafOf snapshot.now result.0 page result.1 }
    ensures reached { IsReached snapshot.now page byte result.0 }
    ensures has { HasByte snapshot.now result.0 page byte }
    ensures steps { let s = snapshot.now in steps.new ≤ steps.old + 1 + backs_of s.page_size (falls s) (length s.rows) page }
{
    range_log::laws::page_bytes_stay();
    range_log::laws::newest_is_greatest();
    range_log::laws::backs_step();
    snapshot.stands();
    let gap = Gap {
        low: byte,
        high: byte + 1,
    };
    first_with(snapshot, nodes, newest, page, gap, steps)
}
