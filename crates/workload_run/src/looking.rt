// The last session of a load, which reads what the load left.
ghost use Rattle.std.specs.Prelude.{◌≡◌, ◌≤◌, ◌<◌, ◌+◌, ◌-◌, ◌^◌, ◌↔◌, [], sum_by, ℕ, length, true};
ghost use denote.Param.Send.{IsSync};
ghost use Rattle.faults.specs.Counts.{RoseBy};
ghost use Rattle.blob_model.specs.Limits.{greatest};
ghost use Rattle.request_form.specs.Answers.{max_read};
ghost use Rattle.client_session.specs.Results.{read_reply};
ghost use Rattle.client_session.specs.Sessions.{IsOwnerOf, session_of};
ghost use Rattle.store_sessions.specs.Lent.{LentDoors};
ghost use Rattle.workload_law.specs.Load.{IsSized};
ghost use Rattle.workload_run.specs.Updates.{told_faults};
ghost use Rattle.workload_run.specs.Stages.{LooksAs};
ghost use Rattle.workload_run.specs.Look.{recent_told, is_read_reply, LookEnds, SummaryEnds, summed_up};

use crate::working::{GRID, LOG};
use blob_model::{Bytes, Outcome};
use client_session::{Owner, Session, Shared};
use page_fan::BesideDoor;
use page_store::DoorMaker;
use ports::gate::Gate;
use request_form::{Fault, Reply, Request, Service};
use std::alloc::Global;
use std::sync::Wait;
use std::thread::Threads;
use store_sessions::{end_session, open_session};
use workload_law::laws::{calls_leave, loads_close, reads_are_short};
use workload_law::{LoadPlan, Summary, byte_sum, in_order};

// The last version of a blob, with all its bytes.
#[derive(Drop)]
struct Last {
    version: u64,
    size: u64,
    bytes: Bytes,
}

// The version and the size that a look at a blob's most recent version gave.
fn recent_of(blob: u64, outcome: Outcome) -> Result<(u64, u64), Fault>
    ensures { result ≡ recent_told blob outcome }
{
    match outcome {
        Outcome::Recent { version, size } => Ok((version, size)),
        _ => Err(Fault::NoBlob { blob }),
    }
}

// The bytes that a read gave.
fn content_of(reply: Reply) -> Result<Bytes, Fault>
    requires { is_read_reply reply ≡ true }
    ensures { reply ≡ read_reply result }
{
    match reply {
        Reply::Content { bytes } => Ok(bytes),
        Reply::Refused(fault) => Err(fault),
        _ => unreachable!(),
    }
}

// Reads the most recent version of a blob from its beginning to its end.
fn look<R: Threads + Wait + Sync, D: BesideDoor, G: Gate>(
    rt: &R,
    session: &mut Session<'_, D, G>,
    blob: u64,
) -> Result<Last, Fault>
    requires sync { IsSync R.row }
    requires none_held { (session_of session.old).tickets ≡ [] }
    ensures ends { LookEnds blob result (session_of session.old) (session_of session.new) }
    ensures faults { RoseBy (told_faults result) (sum_by D.faults session.old.doors) (sum_by D.faults session.new.doors) }
    ensures store { session.new.store ≡ session.old.store }
{
    calls_leave();
    reads_are_short();
    match recent_of(blob, session.recent(rt, blob)) {
        Ok((version, size)) => {
            let read = Request::Read {
                blob,
                version,
                offset: 0,
                length: size,
            };
            match content_of(session.answer(rt, read)) {
                Ok(bytes) => Ok(Last {
                    version,
                    size,
                    bytes,
                }),
                Err(unread) => Err(unread),
            }
        }
        Err(missing) => Err(missing),
    }
}

// What the last versions of the log and of the grid come to.
fn sum_up(plan: &LoadPlan, log: &Last, grid: &Last) -> Summary
    requires { length grid.now.bytes ≤ max_read }
    ensures { result ≡ summed_up plan.now log.now grid.now }
{
    Summary {
        log_size: log.size,
        log_versions: log.version,
        in_order: in_order(log.bytes.as_slice(), plan.workers, plan.ops),
        grid_size: grid.size,
        grid_versions: grid.version,
        grid_sum: byte_sum(grid.bytes.as_slice()),
    }
}

// Reads the log and the grid, and sums them up.
fn read_summary<R: Threads + Wait + Sync, D: BesideDoor, G: Gate>(
    rt: &R,
    session: &mut Session<'_, D, G>,
    plan: &LoadPlan,
) -> Result<Summary, Fault>
    requires sync { IsSync R.row }
    requires none_held { (session_of session.old).tickets ≡ [] }
    ensures ends { SummaryEnds plan.now result (session_of session.old) (session_of session.new) }
    ensures faults { RoseBy (told_faults result) (sum_by D.faults session.old.doors) (sum_by D.faults session.new.doors) }
    ensures store { session.new.store ≡ session.old.store }
{
    calls_leave();
    let log = match look(rt, session, LOG) {
        Ok(log) => log,
        Err(no_log) => return Err(no_log),
    };
    let grid = match look(rt, session, GRID) {
        Ok(grid) => grid,
        Err(no_grid) => return Err(no_grid),
    };
    Ok(sum_up(plan, &log, &grid))
}

/// Reads the last versions of the log and of the grid by one more session of the store, after all workers' passes came back,
/// and sums them up. The session's pass and doors have gone back.
pub(crate) fn look_back<R: Threads + Wait + Sync, M: DoorMaker, G: Gate>(
    rt: &R,
    alloc: Global,
    shared: &Shared,
    owner: &mut Owner,
    maker: &mut M,
    gate: &G,
    plan: &LoadPlan,
) -> Result<Summary, Fault>
where
    M::Door: BesideDoor,
    requires sync { IsSync R.row }
    requires sized { IsSized plan.now }
    requires owner { IsOwnerOf shared.now owner.old }
    requires limits { shared.now.fixed.limits ≡ greatest }
    requires passes_left { owner.old.made < 1024 }
    requires true_doors { M.is_true maker.old }
    ensures looks { LooksAs plan.now shared.now.fixed.page_size owner.old result owner.new }
    ensures owner { IsOwnerOf shared.now owner.new }
    ensures doors { M.faults maker.new < 2 ^ 64 - 1 → M.faults maker.old + told_faults result ≤ M.faults maker.new }
    ensures lent { LentDoors M.hands_out M.takes_back shared.now.providers maker.old maker.new result }
    ensures truth_stays { M.is_true maker.old ↔ M.is_true maker.new }
    ensures plan_stays { (n : ℕ) (door : _) → M.makes maker.old n door ↔ M.makes maker.new n door }
{
    loads_close();
    version_manager::laws::entries_are_events();
    let Ok(mut session) = open_session(alloc, shared, owner, maker, gate) else {
        return Err(Fault::NoMemory);
    };
    let told = read_summary(rt, &mut session, plan);
    end_session(shared, owner, maker, session);
    told
}
