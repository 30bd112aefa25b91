// A refresh: the recent version of a blob is opened, put on the board and published.
ghost use Rattle.std.specs.Prelude.{◌≡◌, ◌↔◌, ◌∷◌, [], IfOk, IfErr, Err};
ghost use Rattle.client_session.specs.Opening.{IsOfStore};
ghost use Rattle.client_session.specs.Sessions.{Continues};
ghost use Rattle.client_session.specs.TurnCounts.{TakesTurns};
ghost use Rattle.read_board.specs.Refreshes.{IsFullFor, version_of};
ghost use Rattle.read_board.specs.Refreshing.{Holds, AllHold, HasLooked, IsRecent, IsNotThere, Refreshed, LeftPending};
ghost use Rattle.read_board.specs.Causes.{RefreshCause, FullLeaves};
ghost use Rattle.read_board.specs.declared.keeper.RefreshFault.TheVariants.{BoardFull};

use crate::keeper::{Keeper, RefreshFault};
use crate::refresh::Refresh;
use blob_model::Outcome;
use client_session::Session;
use page_store::Door;
use ports::gate::Gate;
use request_form::Fault;
use std::sync::Wait;

// Opens the greatest published version of the blob. Two turns: one tells the version, and it stays published.
fn open_recent<'a, D: Door, G: Gate, W: Wait>(
    rt: &W,
    session: &mut Session<'a, D, G>,
    blob: u64,
) -> Result<Refresh, Fault>
    ensures looked { HasLooked session.old session.new }
    ensures goes_on { Continues session.old session.new }
    ensures turns { TakesTurns result 2 session.old.turns session.new.turns }
    ensures blob { IfOk result (λ r. r.blob ≡ blob) }
    ensures of_store { IfOk result (λ r. IsOfStore session.old.store r.snapshot) }
    ensures holds { IfOk result (Holds session.old.store.fixed session.new.log) }
    ensures recent { IfOk result (λ r. IsRecent session.old session.new blob (version_of r)) }
    ensures cause { IfErr result (IsNotThere session.new blob) }
{
    blob_model::laws::old_versions_stay();
    let version = match session.recent(rt, blob) {
        Outcome::Recent { version, .. } => version,
        Outcome::Refused(refusal) => return Err(Fault::of(refusal)),
        _ => return Err(Fault::NoMemory),
    };
    match session.open(rt, blob, version) {
        Ok(snapshot) => Ok(Refresh { blob, snapshot }),
        Err(fault) => Err(fault),
    }
}

impl<R: Wait + Drop> Keeper<R> {
    /// Opens the greatest published version of a blob by this session, puts it on the board, publishes all that is pending, and answers
    /// the version. Two turns; it waits until no reader looks at what was on the board before.
    ///
    /// `BoardFull` comes first, exactly where 64 other blobs are on the board or pending, and then all stays as it was. `NoBlob` comes where the blob isn't there.
    /// Where no memory is found the refresh may be pending, and then stands at the next publication. The session must be of the board's
    /// store, and each refresh that this keeper made must hold its blob's updates in what the session has seen; so it is again
    /// afterwards, and where the session goes on meanwhile (`laws::refreshes_stay`). The session sees others' events alone, and its
    /// doors and held tickets stay.
    pub fn refresh<'a, D: Door, G: Gate, W: Wait>(
        &mut self,
        rt: &W,
        session: &mut Session<'a, D, G>,
        blob: u64,
    ) -> Result<u64, RefreshFault>
        requires store { self.old.board.store ≡ session.old.store ∷ [] }
        requires hold { AllHold session.old.store.fixed session.old.log self.old.all }
        ensures full { (result ≡ Err BoardFull) ↔ IsFullFor blob self.old.all }
        ensures done { IfOk result (λ version. Refreshed self.old self.new blob version) }
        ensures recent { IfOk result (λ version. IsRecent session.old session.new blob version) }
        ensures cause { IfErr result (RefreshCause session.new blob) }
        ensures full_leaves { IfErr result (FullLeaves self.old self.new session.old session.new) }
        ensures left { IfErr result (λ _. LeftPending self.old self.new blob) }
        ensures hold { AllHold session.new.store.fixed session.new.log self.new.all }
        ensures looked { HasLooked session.old session.new }
        ensures goes_on { Continues session.old session.new }
        ensures turns { TakesTurns result 2 session.old.turns session.new.turns }
        ensures board { self.new.board ≡ self.old.board }
    {
        if self.room_for(blob).is_none() {
            return Err(RefreshFault::BoardFull);
        }
        blob_model::laws::old_versions_stay();
        range_log::laws::older_versions_stay();
        range_log::laws::extents_hold();
        let refresh = match open_recent(rt, session, blob) {
            Ok(refresh) => refresh,
            Err(fault) => return Err(RefreshFault::Fault(fault)),
        };
        let version = refresh.snapshot.version();
        if self.add(refresh).is_err() {
            return Err(RefreshFault::Fault(Fault::NoMemory));
        }
        if self.publish().is_err() {
            return Err(RefreshFault::Fault(Fault::NoMemory));
        }
        Ok(version)
    }
}
