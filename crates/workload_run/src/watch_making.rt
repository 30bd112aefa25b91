// The first session of a watch, by which its blob is made, and the sessions that end without having entered anything.
ghost use Rattle.std.specs.Prelude.{◌≡◌, ◌≤◌, ◌<◌, ◌+◌, ◌-◌, ◌^◌, [], sum_by, ℕ, min};
ghost use Rattle.blob_model.specs.Limits.{greatest};
ghost use Rattle.client_session.specs.Sessions.{IsOwnerOf};
ghost use Rattle.turn_lock.specs.History.{Begins};
ghost use Rattle.store_sessions.specs.Lent.{LentDoors};
ghost use Rattle.workload_run.specs.Updates.{told_faults};
ghost use Rattle.workload_run.specs.WatchStages.{OpensAs, IsIdle};
ghost use Rattle.workload_run.specs.Doors.{MakesAsBefore, SessionsEnd};

use crate::making::make_blob;
use client_session::{Owner, Session, Shared};
use page_store::DoorMaker;
use ports::gate::Gate;
use request_form::Fault;
use std::alloc::Global;
use std::sync::Wait;
use store_sessions::{end_session, open_session};
use workload_law::laws::loads_close;

/// Makes the watched blob in a new store by a session of its own, the store's first, whose pass is back before any other is made. So
/// every later session has seen it.
pub(crate) fn open_store<R: Wait, M: DoorMaker, G: Gate>(
    rt: &R,
    alloc: Global,
    shared: &Shared,
    owner: &mut Owner,
    maker: &mut M,
    gate: &G,
) -> Result<(), Fault>
    requires owner { IsOwnerOf shared.now owner.old }
    requires limits { shared.now.fixed.limits ≡ greatest }
    requires no_pass { owner.old.made ≡ 0 }
    requires none_out { owner.old.out ≡ 0 }
    requires new { owner.old.seen ≡ [] }
    requires none_kept { owner.old.kept ≡ [] }
    requires true_doors { M.is_true maker.old }
    ensures opens { OpensAs result owner.new }
    ensures owner { IsOwnerOf shared.now owner.new }
    ensures doors { M.faults maker.new < 2 ^ 64 - 1 → M.faults maker.old + told_faults result ≤ M.faults maker.new }
    ensures lent { LentDoors M.hands_out M.takes_back shared.now.providers maker.old maker.new result }
    ensures maker { MakesAsBefore M.is_true M.makes maker.old maker.new }
{
    loads_close();
    version_manager::laws::entries_are_events();
    let Ok(mut session) = open_session(alloc, shared, owner, maker, gate) else {
        return Err(Fault::NoMemory);
    };
    let made = make_blob(rt, &mut session);
    end_session(shared, owner, maker, session);
    made
}

/// Ends a session that entered nothing, once the writer's pass came back.
pub(crate) fn end_idle<M: DoorMaker, G: Gate>(
    shared: &Shared,
    owner: &mut Owner,
    maker: &mut M,
    session: Session<'_, M::Door, G>,
)
    requires owner { IsOwnerOf shared.now owner.old }
    requires idle { IsIdle shared.now session }
    ensures sessions { SessionsEnd M.is_true M.makes M.hands_out M.takes_back shared.now 1 owner.old owner.new maker.old maker.new }
    ensures made { owner.new.made ≡ owner.old.made }
    ensures begins { Begins session.entry.log owner.new.seen }
    ensures owner { IsOwnerOf shared.now owner.new }
    ensures doors { min (M.faults maker.old + sum_by M.Door.faults session.entry.doors) (2 ^ 64 - 1) ≤ M.faults maker.new }
{
    loads_close();
    version_manager::laws::entries_are_events();
    end_session(shared, owner, maker, session);
}
