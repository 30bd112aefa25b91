// The writer, the keeper and the readers of a watch, beside each other.
ghost use Rattle.std.specs.Prelude.{◌≡◌, ◌≤◌, ◌<◌, ◌+◌, ◌^◌, sum_by, vec_len, IfErr};
ghost use denote.Param.Send.{IsSync};
ghost use Rattle.faults.specs.Counts.{RoseBy};
ghost use Rattle.client_session.specs.Sessions.{session_of, Continues};
ghost use Rattle.workload_law.specs.Watch.{IsSized};
ghost use Rattle.workload_run.specs.Updates.{told_faults};
ghost use Rattle.workload_run.specs.Callers.{IsFresh};
ghost use Rattle.workload_run.specs.Writing.{WriteEnds, HasWrittenBy};
ghost use Rattle.workload_run.specs.Keeping.{MayRefresh, RefreshHindered, Refreshes, HasKept};
ghost use Rattle.workload_run.specs.Readers.{HaveWatched};

use crate::keeping::keep_all;
use crate::reading::{Watcher, watch_beside};
use crate::watch_crew::Crew;
use crate::writing::write_all;
use client_session::Session;
use page_fan::BesideDoor;
use ports::gate::Gate;
use read_board::Keeper;
use request_form::Fault;
use std::sync::Wait;
use std::thread;
use std::thread::Threads;
use workload_law::WatchPlan;

// The writer writes by a session that is handed over and comes back.
fn write_by<'a, R: Threads + Wait + Sync, D: BesideDoor, G: Gate>(
    rt: &R,
    plan: &WatchPlan,
    writer: Session<'a, D, G>,
) -> (Session<'a, D, G>, Result<(), Fault>)
    requires sync { IsSync R.row }
    requires sized { IsSized plan.now }
    requires fresh { IsFresh 1 (session_of writer) }
    ensures { HasWrittenBy D.faults plan.now result.1 writer.entry result.0 }
{
    let mut writer = writer;
    let told = write_all(rt, &mut writer, plan);
    (writer, told)
}

// The keeper refreshes by a session that is handed over and comes back, as it does itself.
fn keep_by<'a, R: Wait, W: Wait + Drop, D: BesideDoor, G: Gate>(
    rt: &R,
    plan: &WatchPlan,
    keeper: Keeper<W>,
    session: Session<'a, D, G>,
) -> (Keeper<W>, Session<'a, D, G>, Result<(), Fault>)
    requires may { MayRefresh keeper session }
    ensures { HasKept plan.now result.2 keeper result.0 session.entry result.1 }
{
    let mut keeper = keeper;
    let mut session = session;
    let told = keep_all(rt, &mut keeper, &mut session, plan);
    (keeper, session, told)
}

// The readers read, and come back.
fn watch_by<'a, R: Threads + Wait + Sync, D: BesideDoor + Send, G: Gate + Sync>(
    rt: &R,
    plan: &WatchPlan,
    mut watchers: Vec<Watcher<'a, D, G>>,
) -> Vec<Watcher<'a, D, G>>
    ensures watched { HaveWatched D.faults plan.now watchers.entry.items result.items }
    ensures count { vec_len result ≡ vec_len watchers.entry }
{
    watch_beside(rt, plan, watchers.as_mut_slice());
    watchers
}

// The keeper refreshes and the readers read, beside each other.
fn keep_and_watch<
    'a,
    'b,
    R: Threads + Wait + Sync,
    W: Wait + Drop + Send,
    D: BesideDoor + Drop + Send,
    G: Gate + Sync,
>(
    rt: &R,
    plan: &WatchPlan,
    keeper: Keeper<W>,
    session: Session<'a, D, G>,
    watchers: Vec<Watcher<'b, D, G>>,
) -> (
    (Keeper<W>, Session<'a, D, G>, Result<(), Fault>),
    Vec<Watcher<'b, D, G>>,
)
    requires sync { IsSync R.row }
    requires may { MayRefresh keeper session }
    ensures kept { HasKept plan.now result.0.2 keeper result.0.0 session.entry result.0.1 }
    ensures watched { HaveWatched D.faults plan.now watchers.entry.items result.1.items }
    ensures count { vec_len result.1 ≡ vec_len watchers.entry }
{
    thread::join(
        rt,
        move || -> (Keeper<W>, Session<'_, D, G>, Result<(), Fault>)
            requires { MayRefresh keeper session }
            ensures { HasKept plan.entry.now result.2 keeper result.0 session.entry result.1 }
        { keep_by(rt, plan, keeper, session) },
        move || -> Vec<Watcher<'_, D, G>>
            requires { IsSync R.row }
            ensures watched { HaveWatched D.faults plan.entry.now watchers.entry.items result.items }
            ensures count { vec_len result ≡ vec_len watchers.entry }
        { watch_by(rt, plan, watchers) },
    )
}

/// The writer appends, the keeper refreshes and the readers read, beside each other, each in a thread of its own where one can be made. All
/// come back, with how the writer and the keeper ended; each reader keeps how it did.
pub(crate) fn work_beside<
    'a,
    R: Threads + Wait + Sync,
    W: Wait + Drop + Send,
    D: BesideDoor + Drop + Send,
    G: Gate + Sync,
>(
    rt: &R,
    plan: &WatchPlan,
    keeper: Keeper<W>,
    crew: Crew<'a, D, G>,
) -> (
    Keeper<W>,
    Crew<'a, D, G>,
    Result<(), Fault>,
    Result<(), Fault>,
)
    requires sync { IsSync R.row }
    requires sized { IsSized plan.now }
    requires fresh { IsFresh 1 (session_of crew.writer) }
    requires may { MayRefresh keeper crew.keeping }
    ensures written { HasWrittenBy D.faults plan.now result.2 crew.entry.writer result.1.writer }
    ensures kept { HasKept plan.now result.3 keeper result.0 crew.entry.keeping result.1.keeping }
    ensures watched { HaveWatched D.faults plan.now crew.entry.watchers.items result.1.watchers.items }
    ensures count { vec_len result.1.watchers ≡ vec_len crew.entry.watchers }
{
    let Crew {
        writer,
        keeping,
        watchers,
    } = crew;
    let ((writer, written), ((keeper, keeping, kept), watchers)) = thread::join(
        rt,
        move || -> (Session<'_, D, G>, Result<(), Fault>)
            requires { IsSync R.row × IsSized plan.now × IsFresh 1 (session_of writer) }
            ensures { HasWrittenBy D.faults plan.entry.now result.1 writer.entry result.0 }
        { write_by(rt, plan, writer) },
        move || -> (
            (Keeper<W>, Session<'_, D, G>, Result<(), Fault>),
            Vec<Watcher<'_, D, G>>,
        )
            requires { IsSync R.row × MayRefresh keeper keeping }
            ensures kept { HasKept plan.entry.now result.0.2 keeper result.0.0 keeping.entry result.0.1 }
            ensures watched { HaveWatched D.faults plan.entry.now watchers.entry.items result.1.items }
            ensures count { vec_len result.1 ≡ vec_len watchers.entry }
        { keep_and_watch(rt, plan, keeper, keeping, watchers) },
    );
    let crew = Crew {
        writer,
        keeping,
        watchers,
    };
    (keeper, crew, written, kept)
}
