// The keeper of a watch meets its readers.
ghost use Rattle.std.specs.Prelude.{◌≡◌, All};
ghost use Rattle.workload_run.specs.Readers.{StandsAt, HasMet};

use crate::reading::Watcher;
use page_store::Door;
use ports::gate::Gate;
use read_board::Keeper;
use std::sync::Wait;

/// What each reader has seen of the board is a beginning of what the keeper made. For proofs: it changes nothing.
pub(crate) fn meet_all<W: Wait + Drop, D: Door, G: Gate>(
    keeper: &mut Keeper<W>,
    watchers: &[Watcher<'_, D, G>],
)
    requires board { All (StandsAt keeper.old.board) watchers.now }
    ensures met { All (HasMet keeper.old.all) watchers.now }
    ensures same { keeper.new ≡ keeper.old }
{
    'meets: for watcher in watchers.iter() {
        keeper.meet(&watcher.reader);
    }
}
