// The last session of a watch, which refreshes the blob once more and reads what it then has.
ghost use Rattle.std.specs.Prelude.{◌≡◌, ◌+◌, ◌<◌, sum_by, IfOk, IfErr};
ghost use Rattle.faults.specs.Counts.{RoseBy};
ghost use Rattle.blob_model.specs.History.{store_of};
ghost use Rattle.version_manager.specs.Log.{events};
ghost use Rattle.request_form.specs.PublishedReads.{IsPublishedIn};
ghost use Rattle.workload_run.specs.Updates.{told_faults};
ghost use Rattle.workload_run.specs.Idling.{Idles};
ghost use Rattle.read_board.specs.Refreshing.{Refreshed};
ghost use Rattle.workload_run.specs.Keeping.{MayRefresh};
ghost use Rattle.workload_run.specs.Lasts.{WholeRead, IsLast, LastHindered, updates_seen};

use crate::keeping::refresh_blob;
use crate::writing::BLOB;
use blob_model::Bytes;
use blob_model::laws::old_versions_stay;
use client_session::Session;
use page_store::Door;
use ports::gate::Gate;
use read_board::Keeper;
use read_board::laws::refreshes_stay;
use request_form::Fault;
use std::marker::Brand;
use std::sync::Wait;
use std::sync::ledger::{Blank, Ledger};
use tree_geom::Steps;
use workload_law::laws::sessions_own;

/// The last version of the watched blob, with all its bytes.
pub(crate) struct Last {
    pub(crate) version: u64,
    pub(crate) bytes: Bytes,
}

// By hand, so that it is one call wherever one is let go: a derived drop stands, with all its calls, at each such place.
impl Drop for Last {
    fn drop(self) {
        let Last {
            version: _,
            bytes: _,
        } = self;
    }
}

// Opens a published version of the blob by a turn, and reads the whole of it. Nobody counts its node steps.
fn read_version<R: Wait, D: Door, G: Gate, L: Ledger>(
    rt: &R,
    session: &mut Session<'_, D, G>,
    version: u64,
    blank: Blank,
) -> Result<Bytes, Fault>
    requires name { blank.name ≡ L.name }
    requires parts { blank.parts ≡ L.parts }
    requires some { 0 < blank.parts }
    requires published { IsPublishedIn (store_of session.old.store.fixed.limits (events session.old.log)) 1 version }
    ensures reads { WholeRead session.new.store.fixed.page_size (updates_seen session.new) version result }
    ensures one_turn { session.new.turns ≡ session.old.turns + 1 }
    ensures idles { Idles session.old session.new }
    ensures rose { RoseBy (told_faults result) (sum_by D.faults session.old.doors) (sum_by D.faults session.new.doors) }
{
    sessions_own();
    old_versions_stay();
    let mut steps = Steps::<L>::open(blank);
    match session.open(rt, BLOB, version) {
        Ok(snapshot) => {
            let size = snapshot.size();
            session.read_at(&snapshot, 0, size, &mut steps)
        }
        Err(fault) => Err(fault),
    }
}

/// Refreshes the watched blob once more, and reads the whole of the version that the refresh answered, by a turn of its own.
pub(crate) fn read_last<R: Wait, W: Wait + Drop, D: Door, G: Gate>(
    rt: &R,
    keeper: &mut Keeper<W>,
    session: &mut Session<'_, D, G>,
) -> Result<Last, Fault>
    requires may { MayRefresh keeper.old session.old }
    ensures last { IfOk result (λ last. IsLast keeper.new session.old session.new last.version last.bytes) }
    ensures refreshed { IfOk result (λ last. Refreshed keeper.old keeper.new 1 last.version) }
    ensures hindered { IfErr result (LastHindered session.old session.new) }
    ensures idles { Idles session.old session.new }
    ensures rose { RoseBy (told_faults result) (sum_by D.faults session.old.doors) (sum_by D.faults session.new.doors) }
    ensures board { keeper.new.board ≡ keeper.old.board }
{
    refreshes_stay();
    let version = match refresh_blob(rt, keeper, session) {
        Ok(version) => version,
        Err(fault) => return Err(fault),
    };
    match read_version::<R, D, G, Brand>(rt, session, version, Blank::new(1)) {
        Ok(bytes) => Ok(Last { version, bytes }),
        Err(fault) => Err(fault),
    }
}
