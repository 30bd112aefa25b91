// The work of a watch's readers.
ghost use Rattle.std.specs.Prelude.{IfOk, IfErr};
ghost use Rattle.workload_run.specs.Updates.{told_faults};
ghost use Rattle.workload_law.specs.WatchNotes.{HasNoted};
ghost use Rattle.workload_run.specs.Noting.{PieceRead};
ghost use Rattle.workload_run.specs.Readers.{ReadHindered, HasRead, HasWatched, HaveWatched};

use crate::notes::{Readings, read_noted};
use page_store::Door;
use ports::gate::Gate;
use read_board::StandingReader;
use request_form::Fault;
use std::marker::{Brand, Model};
use std::sync::Wait;
use std::sync::ledger::Blank;
use std::thread;
use std::thread::Threads;
use workload_law::WatchPlan;

/// A reader of a watch, with what it read or why it stopped. Before it reads it has read nothing.
#[derive(Drop)]
pub(crate) struct Watcher<'a, D: Door, G: Gate> {
    pub(crate) reader: StandingReader<'a, D, G>,
    pub(crate) told: Result<Readings, Fault>,
}

impl<'a, D: Door, G: Gate> Model for Watcher<'a, D, G> {
    ghost use Rattle.workload_run.specs.Readers.{WatcherState};

    ghost Value = { WatcherState D };

    ghost view = { λ w. record { reader = w.reader; told = w.told } };
}

// Reads the bytes of each update in turn, and answers what it read. It passes over those that aren't published yet.
fn read_versions<R: Wait, D: Door, G: Gate>(
    rt: &R,
    reader: &mut StandingReader<'_, D, G>,
    plan: &WatchPlan,
) -> Result<Readings, Fault>
    ensures read { HasRead D.faults (told_faults result) reader.old reader.new }
    ensures stop { IfErr result (ReadHindered reader.new) }
    ensures noted { IfOk result (HasNoted (PieceRead reader.old reader.new) plan.now.ops) }
{
    let mut readings = Readings::none();
    'reads: for op in 0..plan.ops {
        let blank = Blank::new(1);
        match read_noted::<R, D, G, Brand>(rt, reader, op as u64, blank, &mut readings) {
            Ok(()) => {}
            Err(fault) => return Err(fault),
        }
    }
    Ok(readings)
}

// A reader reads, and keeps how it ended.
fn watch_on<R: Wait, D: Door, G: Gate>(rt: &R, plan: &WatchPlan, watcher: &mut Watcher<'_, D, G>)
    ensures { HasWatched D.faults plan.now watcher.old watcher.new }
{
    watcher.told = read_versions(rt, &mut watcher.reader, plan);
}

/// All readers read, each in a thread of its own where one can be made.
pub(crate) fn watch_beside<R: Threads + Wait + Sync, D: Door + Send, G: Gate + Sync>(
    rt: &R,
    plan: &WatchPlan,
    watchers: &mut [Watcher<'_, D, G>],
)
    ensures { HaveWatched D.faults plan.now watchers.old watchers.new }
{
    let threads = watchers.len().max(1);
    thread::for_each_mut(
        rt,
        watchers,
        threads,
        &|_, watcher: &mut Watcher<'_, D, G>|
            ensures { HasWatched D.faults plan.entry.now watcher.old watcher.new }
        { watch_on(rt, plan, watcher) },
    );
}
