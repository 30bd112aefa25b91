//! What holds whatever allowed steps were taken.
ghost use Rattle.blob_core.specs.Promises.{StepsHold};
ghost use Rattle.blob_core.specs.Standing.{ReachedStays};

use range_log::{laws as rows, walks};

/// Of each world to which allowed steps lead from the empty one, in whatever order:
///
/// - the store is that of the changing steps as events, and these are a legal history;
/// - every node that is there is the row's node for its key, however old the hints that its writer had;
/// - every page that an update stored anew has the page's valid bytes at the update's version;
/// - every key of a finished update's row is there;
/// - the nodes that are there lead from a published root to the newest version of each aligned range;
/// - every node that links and backs lead to from the root of a published version is there;
/// - a read gives the content asked for, through no more nodes than the visit bound.
///
/// The calls below do nothing; they cite the laws of rows and walks.
pub fn steps_hold()
    ensures hold { StepsHold }
    ensures stays { ReachedStays }
{
    rows::links_name_nodes();
    rows::no_holes();
    rows::page_bytes_stay();
    rows::leaves_fill();
    rows::newest_is_greatest();
    rows::row_keys_exact();
    rows::backs_step();
    rows::older_versions_stay();
    walks::links_find();
    walks::links_step();
    walks::weaver_finds();
    walks::visited_are_few();
}
