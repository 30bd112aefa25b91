// A watch, from a new store to its summary.
ghost use Rattle.std.specs.Prelude.{◌≡◌, ◌≤◌, ◌<◌, ◌+◌, ◌-◌, ◌*◌, ◌^◌, ◌∷◌, [], ℕ, IfOk, IfErr, All, vec_len};
ghost use Rattle.blob_model.specs.Limits.{greatest};
ghost use Rattle.client_session.specs.Sessions.{IsOwnerOf};
ghost use Rattle.workload_law.specs.Watch.{IsSized, IsWatchPage};
ghost use Rattle.workload_law.specs.WatchNotes.{HasDone};
ghost use Rattle.workload_run.specs.Updates.{told_faults};
ghost use Rattle.read_board.specs.Refreshing.{AllHold, Refreshed};
ghost use Rattle.store_sessions.specs.Made.{IsNewSession};
ghost use Rattle.store_sessions.specs.Lent.{LentDoors};
ghost use Rattle.workload_run.specs.Doors.{EndDoors, MakesAsBefore, DoorsCameBack};
ghost use Rattle.workload_run.specs.WatchStages.{IsCalled, LeavesWatch};
ghost use Rattle.workload_run.specs.WatchCrews.{IsReadyToWatch, IsDoneWatching};
ghost use Rattle.workload_run.specs.WatchEnding.{HasReadBack, FinishHindered, Finishes, NotesOf, WatchEnds, NotesSeen, CameTo};
ghost use Rattle.workload_run.specs.Ending.{EndsEarly};

use crate::beside::work_beside;
pub use crate::ending::EarlyEnd as WatchFault;
use crate::ending::early_end;
use crate::last::{Last, read_last};
use crate::meeting::meet_all;
use crate::notes::WatchNotes;
use crate::reading::Watcher;
use crate::watch_crew::{Callers, Crew, crew_of};
use crate::watch_ending::{Standard, agree_all, end_watchers};
use crate::watch_making::{end_idle, open_store};
use client_session::{Owner, Shared};
use page_fan::BesideDoor;
use page_store::DoorMaker;
use ports::gate::Gate;
use read_board::laws::{board_reads_tell, refreshes_stay};
use read_board::{Board, Keeper};
use request_form::{Fault, NoMemory};
use std::alloc::Global;
use std::sync::Wait;
use std::thread::Threads;
use store_sessions::{end_session, open_session};
use version_manager::Desk;
use workload_law::laws::loads_close;
use workload_law::watch_laws::{pieces_are_told, watches_are_done, watches_close};
use workload_law::{WatchPlan, WatchSummary};

// One more session refreshes the blob, reads the whole of it, and ends.
fn read_back<R: Threads + Wait + Sync, W: Wait + Drop, M: DoorMaker, G: Gate>(
    rt: &R,
    alloc: Global,
    shared: &Shared,
    owner: &mut Owner,
    doors: &mut M,
    gate: &G,
    keeper: &mut Keeper<W>,
) -> Result<Last, Fault>
where
    M::Door: BesideDoor + Drop,
    requires owner { IsOwnerOf shared.now owner.old }
    requires limits { shared.now.fixed.limits ≡ greatest }
    requires store { keeper.old.board.store ≡ shared.now ∷ [] }
    requires hold { AllHold shared.now.fixed owner.old.seen keeper.old.all }
    requires of_one { All (λ r. r.blob ≡ 1) keeper.old.all }
    requires passes_left { (3 ≤ owner.old.made) × (owner.old.made < 1024) }
    requires true_doors { M.is_true doors.old }
    ensures read { IfOk result (HasReadBack shared.now.fixed keeper.new.shown owner.old owner.new) }
    ensures refreshed { IfOk result (λ last. Refreshed keeper.old keeper.new 1 last.version) }
    ensures hindered { IfErr result (FinishHindered shared.now.fixed owner.old owner.new) }
    ensures leaves { LeavesWatch owner.old owner.new }
    ensures board { keeper.new.board ≡ keeper.old.board }
    ensures out { owner.new.out ≡ owner.old.out }
    ensures made { (owner.old.made ≤ owner.new.made) × (owner.new.made ≤ owner.old.made + 1) }
    ensures owner { IsOwnerOf shared.now owner.new }
    ensures doors { M.faults doors.new < 2 ^ 64 - 1 → M.faults doors.old + told_faults result ≤ M.faults doors.new }
    ensures lent { LentDoors M.hands_out M.takes_back shared.now.providers doors.old doors.new result }
    ensures maker { MakesAsBefore M.is_true M.makes doors.old doors.new }
{
    version_manager::laws::entries_are_events();
    let Ok(mut session) = open_session(alloc, shared, owner, doors, gate) else {
        return Err(Fault::NoMemory);
    };
    let told = read_last(rt, keeper, &mut session);
    end_idle(shared, owner, doors, session);
    told
}

// The last session reads the blob, and then each reader, once the writer and the keeper came to their ends. It answers what they did, too.
fn finish<R: Threads + Wait + Sync, W: Wait + Drop, M: DoorMaker, G: Gate>(
    rt: &R,
    alloc: Global,
    shared: &Shared,
    owner: &mut Owner,
    doors: &mut M,
    gate: &G,
    keeper: Keeper<W>,
    watchers: Vec<Watcher<'_, M::Door, G>>,
) -> Result<(WatchSummary, WatchNotes), Fault>
where
    M::Door: BesideDoor + Drop,
    requires owner { IsOwnerOf shared.now owner.old }
    requires limits { shared.now.fixed.limits ≡ greatest }
    requires store { keeper.board.store ≡ shared.now ∷ [] }
    requires hold { AllHold shared.now.fixed owner.old.seen keeper.all }
    requires of_one { All (λ r. r.blob ≡ 1) keeper.all }
    requires passes_left { (3 ≤ owner.old.made) × (owner.old.made + vec_len watchers < 1000) }
    requires true_doors { M.is_true doors.old }
    requires done { All (IsDoneWatching M.Door.faults shared.now owner.old.seen keeper.board) watchers.items }
    ensures finishes { Finishes shared.now.fixed (vec_len watchers.entry) result owner.old owner.new }
    ensures noted { IfOk result (λ done. NotesOf keeper.all watchers.entry.items owner.new.seen done.0.versions done.1) }
    ensures out { owner.old.out ≡ owner.new.out + vec_len watchers.entry }
    ensures owner { IsOwnerOf shared.now owner.new }
    ensures doors { M.faults doors.new < 2 ^ 64 - 1 → M.faults doors.old + told_faults result ≤ M.faults doors.new }
    ensures lent { EndDoors M.hands_out M.takes_back shared.now.providers (vec_len watchers.entry) doors.old doors.new result }
    ensures maker { MakesAsBefore M.is_true M.makes doors.old doors.new }
{
    let mut keeper = keeper;
    match read_back(rt, alloc, shared, owner, doors, gate, &mut keeper) {
        Ok(last) => {
            let standard = Standard { keeper, last };
            match agree_all(rt, alloc, shared, owner, doors, gate, &standard, watchers) {
                Ok((agree, readings)) => {
                    let summary = WatchSummary {
                        size: standard.last.bytes.len() as u64,
                        versions: standard.last.version,
                        agree,
                    };
                    Ok((summary, WatchNotes::new(&standard.keeper, readings)))
                }
                Err(stopped) => Err(stopped),
            }
        }
        Err(fault) => match end_watchers(shared, owner, doors, watchers) {
            Some(stop) => Err(stop),
            None => Err(fault),
        },
    }
}

// The crew works, and all that comes then. All its sessions end.
fn work<R: Threads + Wait + Sync, W: Wait + Drop + Send, M: DoorMaker, G: Gate + Sync>(
    rt: &R,
    alloc: Global,
    shared: &Shared,
    owner: &mut Owner,
    doors: &mut M,
    gate: &G,
    plan: &WatchPlan,
    callers: Callers<'_, W, M::Door, G>,
) -> Result<(WatchSummary, WatchNotes), Fault>
where
    M::Door: BesideDoor + Drop + Send,
    requires sized { IsSized plan.now }
    requires owner { IsOwnerOf shared.now owner.old }
    requires limits { shared.now.fixed.limits ≡ greatest }
    requires opened { IsCalled owner.old plan.now.readers }
    requires board { (callers.keeper.board.store ≡ shared.now ∷ []) × (callers.keeper.all ≡ []) }
    requires writer { IsNewSession M.Door.faults shared.now (record owner.old { made = 1 }) callers.crew.writer }
    requires keeping { IsNewSession M.Door.faults shared.now (record owner.old { made = 2 }) callers.crew.keeping }
    requires ready { All (IsReadyToWatch M.Door.faults shared.now owner.old.seen callers.keeper.board) callers.crew.watchers.items }
    requires count { vec_len callers.crew.watchers ≡ plan.now.readers }
    requires true_doors { M.is_true doors.old }
    ensures ends { WatchEnds plan.now shared.now.fixed result owner.new }
    ensures noted { IfOk result (λ done. NotesSeen plan.now shared.now.fixed owner.new.seen done.0.versions done.1) }
    ensures none_out { owner.new.out ≡ 0 }
    ensures owner { IsOwnerOf shared.now owner.new }
    ensures doors { M.faults doors.new < 2 ^ 64 - 1 → M.faults doors.old + told_faults result ≤ M.faults doors.new }
    ensures lent { EndDoors M.hands_out M.takes_back shared.now.providers (2 + plan.now.readers) doors.old doors.new result }
    ensures maker { MakesAsBefore M.is_true M.makes doors.old doors.new }
{
    version_manager::laws::entries_are_events();
    loads_close();
    refreshes_stay();
    board_reads_tell();
    let Callers { keeper, crew } = callers;
    let (mut keeper, crew, written, kept) = work_beside(rt, plan, keeper, crew);
    let Crew {
        writer,
        keeping,
        watchers,
    } = crew;
    meet_all(&mut keeper, watchers.as_slice());
    end_session(shared, owner, doors, writer);
    end_idle(shared, owner, doors, keeping);
    match written.and(kept) {
        Ok(()) => finish(rt, alloc, shared, owner, doors, gate, keeper, watchers),
        Err(fault) => {
            let _later = end_watchers(shared, owner, doors, watchers);
            Err(fault)
        }
    }
}

// Opens the store, lets all callers do their work, and compares what they read.
fn run_watch<R: Threads + Wait + Sync, M: DoorMaker, G: Gate + Sync>(
    rt: &R,
    alloc: Global,
    shared: &Shared,
    owner: &mut Owner,
    doors: &mut M,
    gate: &G,
    plan: &WatchPlan,
) -> Result<(WatchSummary, WatchNotes), Fault>
where
    M::Door: BesideDoor + Drop + Send,
    requires sized { IsSized plan.now }
    requires owner { IsOwnerOf shared.now owner.old }
    requires limits { shared.now.fixed.limits ≡ greatest }
    requires no_pass { owner.old.made ≡ 0 }
    requires none_out { owner.old.out ≡ 0 }
    requires new { owner.old.seen ≡ [] }
    requires none_kept { owner.old.kept ≡ [] }
    requires true_doors { M.is_true doors.old }
    ensures ends { WatchEnds plan.now shared.now.fixed result owner.new }
    ensures noted { IfOk result (λ done. NotesSeen plan.now shared.now.fixed owner.new.seen done.0.versions done.1) }
    ensures none_out { owner.new.out ≡ 0 }
    ensures owner { IsOwnerOf shared.now owner.new }
    ensures doors { M.faults doors.new < 2 ^ 64 - 1 → M.faults doors.old + told_faults result ≤ M.faults doors.new }
    ensures lent { LentDoors M.hands_out M.takes_back ((4 + plan.now.readers) * shared.now.providers) doors.old doors.new result }
    ensures maker { MakesAsBefore M.is_true M.makes doors.old doors.new }
{
    match open_store(rt, alloc, shared, owner, doors, gate) {
        Ok(()) => {}
        Err(unopened) => return Err(unopened),
    }
    let Ok((keeper, mut stand)) = Board::new(rt, alloc, shared, plan.readers) else {
        return Err(Fault::NoMemory);
    };
    match crew_of(alloc, shared, owner, doors, gate, &mut stand, plan.readers) {
        Ok(crew) => {
            let callers = Callers { keeper, crew };
            work(rt, alloc, shared, owner, doors, gate, plan, callers)
        }
        Err(NoMemory) => Err(Fault::NoMemory),
    }
}

/// Runs a watch on a new store with the greatest limits. Its first session makes blob 1. Then a writer appends the plan's updates to it,
/// a keeper refreshes it as often on a board, and the plan's readers read each update's bytes in turn, each by a session of its own and
/// in a thread of its own where one can be made; one after another where none can. The writer does an update again that is refused as
/// too many wait, and finishes one that is held back; a reader passes over versions that aren't published yet. Who is refused otherwise,
/// or finds no memory, or loses a page, stops, and the others go on to their ends. Then one more session refreshes the blob and reads it
/// whole, and each reader learns what the keeper published and reads the same; a reader without a place does so by a new session of its doors.
///
/// It answers the last version with its size, and how many readers read the same bytes, which is the plan's summary at every schedule;
/// the desk of the closed store, whose history is a watch's; and, for contracts alone, what the keeper and the readers did. The keeper refreshed
/// as often as the plan has operations, and the last session once more. Each refresh got a version of the plan, and the last one its last
/// version. Each reader read each version once, in order, and got the bytes of its update, or was told that it isn't published yet.
///
/// Where the opening, the writer, the keeper, a reader or the last session didn't come to its end it answers why, of the lowest such caller: a page
/// was lost that begins within what the writer appends, and then the count of `doors` rose, or no memory was found. When it answers, all passes
/// and all doors have gone back. The gate is called between the acts of updates.
pub fn watch_noted<R: Threads + Wait + Sync, M: DoorMaker, G: Gate + Sync>(
    rt: &R,
    alloc: Global,
    shared: Shared,
    owner: Owner,
    doors: &mut M,
    gate: &G,
    plan: WatchPlan,
) -> Result<(WatchSummary, Desk, WatchNotes), WatchFault>
where
    M::Door: BesideDoor + Drop + Send,
    requires sized { IsSized plan }
    requires owner { IsOwnerOf shared owner }
    requires limits { shared.fixed.limits ≡ greatest }
    requires no_pass { owner.made ≡ 0 }
    requires none_out { owner.out ≡ 0 }
    requires new { owner.seen ≡ [] }
    requires none_kept { owner.kept ≡ [] }
    requires true_doors { M.is_true doors.old }

    // What the keeper and the readers did.
    ensures did { IfOk result (λ r. HasDone plan r.2) }

    // What the watch came to, and what its store holds then.
    ensures came { IfOk result (λ r. CameTo plan shared.fixed r.0 r.1) }

    // Why it ended early.
    ensures early { IfErr result (λ fault. EndsEarly (IsWatchPage plan shared.fixed.page_size) fault (M.faults doors.old) (M.faults doors.new)) }

    // The first session, the writer's, the keeper's, those of the readers and the last one had a door to each provider, and no door was made beside
    // these.
    ensures doors { DoorsCameBack M.is_true M.makes M.hands_out M.takes_back M.faults ((4 + plan.readers) * shared.providers) doors.old doors.new result }
{
    watches_close();
    watches_are_done();
    pieces_are_told();
    version_manager::laws::entries_are_events();
    let mut owner = owner;
    let told = run_watch(rt, alloc, &shared, &mut owner, doors, gate, &plan);
    let Ok(desk) = shared.close(owner) else {
        // All passes came back.
        unreachable!()
    };
    // The desk's history is legal.
    desk.stands();
    match told {
        Ok((summary, notes)) => Ok((summary, desk, notes)),
        Err(fault) => Err(early_end(fault)),
    }
}

/// Runs a watch as `watch_noted` does, and answers the same but for what the keeper and the readers did.
pub fn watch<R: Threads + Wait + Sync, M: DoorMaker, G: Gate + Sync>(
    rt: &R,
    alloc: Global,
    shared: Shared,
    owner: Owner,
    doors: &mut M,
    gate: &G,
    plan: WatchPlan,
) -> Result<(WatchSummary, Desk), WatchFault>
where
    M::Door: BesideDoor + Drop + Send,
    requires sized { IsSized plan }
    requires owner { IsOwnerOf shared owner }
    requires limits { shared.fixed.limits ≡ greatest }
    requires no_pass { owner.made ≡ 0 }
    requires none_out { owner.out ≡ 0 }
    requires new { owner.seen ≡ [] }
    requires none_kept { owner.kept ≡ [] }
    requires true_doors { M.is_true doors.old }

    // What the watch came to, and what its store holds then.
    ensures came { IfOk result (λ r. CameTo plan shared.fixed r.0 r.1) }

    // Why it ended early.
    ensures early { IfErr result (λ fault. EndsEarly (IsWatchPage plan shared.fixed.page_size) fault (M.faults doors.old) (M.faults doors.new)) }

    // The first session, the writer's, the keeper's, those of the readers and the last one had a door to each provider, and no door was made beside
    // these.
    ensures doors { DoorsCameBack M.is_true M.makes M.hands_out M.takes_back M.faults ((4 + plan.readers) * shared.providers) doors.old doors.new result }
{
    match watch_noted(rt, alloc, shared, owner, doors, gate, plan) {
        Ok((summary, desk, _notes)) => Ok((summary, desk)),
        Err(fault) => Err(fault),
    }
}
