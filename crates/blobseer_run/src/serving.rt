// A script is served by the one session of a new store.
ghost use Rattle.std.specs.Prelude.{◌≡◌, ◌↔◌, ◌-◌, ◌^◌, ◌<◌, ◌≤◌, ℕ, [], length, sum_by, All};
ghost use Rattle.faults.specs.Counts.{RoseBy};
ghost use Rattle.request_form.specs.Answers.{max_update};
ghost use Rattle.client_session.specs.Sessions.{IsPassOf, IsOwnerOf, session_at};
ghost use Rattle.version_manager.specs.Log.{events};
ghost use Rattle.server_core.specs.Served.{end_read_faults, end_write_faults};
ghost use Rattle.blobseer_run.specs.Outside.{NoneFell};
ghost use Rattle.blobseer_run.specs.Store.{IsNewStore};
ghost use Rattle.blobseer_run.specs.Lending.{CameBack, Lends};
ghost use Rattle.blobseer_run.specs.Script.{DidRun, fixed_of, IsCalm};
ghost use Rattle.blobseer_run.specs.Serving.{ServedLines, ServedByOne};
ghost use Rattle.blobseer_run.specs.Status.{code_of};

use crate::laws::transcripts_are_legal;
use crate::objects::{Objects, Standing};
use crate::status::{INPUT_LIMIT, Status};
use crate::store::new_store;
use client_session::{Owner, Pass, Session, Shared};
use page_fan::{BesideDoor, Doors};
use page_store::DoorMaker;
use ports::gate::Gate;
use ports::listener::Listener;
use ports::pair::Pair;
use ports::stream::{Sink, Source};
use script_text::ScriptDialect;
use server_core::laws::endings_hold;
use server_core::{End, serve_stream};
use settings::Settings;
use std::alloc::Global;
use std::mem;
use std::sync::Wait;
use std::thread::Threads;

// Serves the lines of a script by a session that works with that pass and those doors, and gives them back.
fn serve_session<R: Wait + Threads + Sync, I: Source + Sink, D: BesideDoor, G: Gate>(
    rt: &R,
    alloc: Global,
    shared: &Shared,
    gate: &G,
    pass: Pass,
    doors: Doors<D>,
    io: &mut I,
) -> (End, Pass, Doors<D>)
    requires pass { IsPassOf shared.now pass }
    requires served { length doors ≡ shared.now.providers }
    requires true_doors { All D.is_true doors }
    ensures lines { ServedLines
        (record { session = session_at shared.now.fixed pass.caller pass.seen [] 1 max_update; faults = sum_by D.faults doors; written = I.written io.old })
        (record { given = I.given io.old; left = I.left io.old; ends = I.ends io.old })
        (record { given = I.given io.new; left = I.left io.new; ends = I.ends io.new })
        (events result.1.seen) (sum_by D.faults result.2) (I.written io.new) result.0 }
    ensures pass { IsPassOf shared.now result.1 }
    ensures doors { length result.2 ≡ shared.now.providers }
    ensures read_faults { RoseBy (end_read_faults result.0) (I.read_faults io.old) (I.read_faults io.new) }
    ensures write_faults { RoseBy (end_write_faults result.0) (I.write_faults io.old) (I.write_faults io.new) }
    ensures objects { I.objects io.new ≡ I.objects io.old }
{
    let Ok(mut dialect) = ScriptDialect::new(alloc) else {
        return (End::NoMemory, pass, doors);
    };
    let mut session = match Session::new(alloc, shared, gate, pass, doors) {
        Ok(session) => session,
        Err((pass, doors)) => return (End::NoMemory, pass, doors),
    };
    let end = serve_stream(rt, alloc, &mut session, &mut dialect, io, INPUT_LIMIT);
    let (pass, doors) = session.into_parts();
    (end, pass, doors)
}

// Serves the lines of a script by the first session of a new store, closes the store, and gives the doors back.
fn serve_store<R: Wait + Threads + Sync, I: Source + Sink, D: BesideDoor, G: Gate>(
    rt: &R,
    alloc: Global,
    shared: Shared,
    owner: Owner,
    gate: &G,
    doors: Doors<D>,
    io: &mut I,
) -> (End, Doors<D>)
    requires owner { IsOwnerOf shared owner }
    requires no_pass { owner.made ≡ 0 }
    requires none_out { owner.out ≡ 0 }
    requires new { owner.seen ≡ [] }
    requires served { length doors ≡ shared.providers }
    requires true_doors { All D.is_true doors }
    ensures lines { ServedByOne (record { limits = shared.fixed.limits; page = shared.fixed.page_size })
        (record { given = I.given io.old; left = I.left io.old; ends = I.ends io.old })
        (record { given = I.given io.new; left = I.left io.new; ends = I.ends io.new })
        (sum_by D.faults doors) (sum_by D.faults result.1) (I.written io.old) (I.written io.new) result.0 }
    ensures doors { length result.1 ≡ shared.providers }
    ensures read_faults { RoseBy (end_read_faults result.0) (I.read_faults io.old) (I.read_faults io.new) }
    ensures write_faults { RoseBy (end_write_faults result.0) (I.write_faults io.old) (I.write_faults io.new) }
    ensures objects { I.objects io.new ≡ I.objects io.old }
{
    let mut owner = owner;
    let Ok(pass) = shared.pass(&mut owner) else {
        // No pass was made yet.
        unreachable!()
    };
    let (end, pass, doors) = serve_session(rt, alloc, &shared, gate, pass, doors, io);
    shared.take_back(&mut owner, pass);
    let Ok(desk) = shared.close(owner) else {
        // No pass is out.
        unreachable!()
    };
    // The process ends, and gives the memory of all pages and nodes back at once.
    mem::forget(desk);
    (end, doors)
}

// Answers the lines of a script by the one session of that store. The session's doors are the maker's, and go back to it; its pass
// goes back to the store, which is closed.
fn answer_script<
    'a,
    R: Wait + Threads + Sync,
    S: Source,
    K: Sink,
    L: Listener,
    M: DoorMaker,
    G: Gate,
>(
    rt: &R,
    alloc: Global,
    settings: &Settings,
    shared: Shared,
    owner: Owner,
    objects: &mut Objects<'a, S, K, L, M>,
    gate: &G,
) -> Status
where
    M::Door: BesideDoor,
    requires store { IsNewStore settings.now settings.now.limits shared owner }
    requires true_doors { M.is_true objects.old.doors.now }
    ensures did { DidRun (fixed_of settings.now) (IsCalm M.Door.faults) (⟦<Objects<'a, S, K, L, M> as Standing>⟧.stands objects.old)
        (⟦<Objects<'a, S, K, L, M> as Standing>⟧.stands objects.new) (code_of result) }
    ensures lent { Lends settings.now.providers (CameBack M.hands_out M.takes_back objects.old.doors.now objects.new.doors.now) (code_of result) }
    ensures none_fell { NoneFell (⟦<Objects<'a, S, K, L, M> as Standing>⟧.stands objects.old) (⟦<Objects<'a, S, K, L, M> as Standing>⟧.stands objects.new) }
    ensures truth_stays { M.is_true objects.old.doors.now ↔ M.is_true objects.new.doors.now }
    ensures names { ⟦<Objects<'a, S, K, L, M> as Standing>⟧.names objects.new ≡ ⟦<Objects<'a, S, K, L, M> as Standing>⟧.names objects.old }
{
    // Laws that tell what was written, by the stream's end.
    transcripts_are_legal();
    endings_hold();
    let Ok(doors) = Doors::new(alloc, objects.doors, settings.providers) else {
        return Status::OutOfMemory;
    };
    let mut io = Pair {
        source: objects.script,
        sink: objects.out,
    };
    let (end, doors) = serve_store(rt, alloc, shared, owner, gate, doors, &mut io);
    doors.back(objects.doors);
    Status::after(end)
}

/// The command `run`: answers the lines of a script by the one session of a new store of these settings.
pub(crate) fn serve_script<
    'a,
    R: Wait + Threads + Sync,
    S: Source,
    K: Sink,
    L: Listener,
    M: DoorMaker,
    G: Gate,
>(
    rt: &R,
    alloc: Global,
    settings: &Settings,
    objects: &mut Objects<'a, S, K, L, M>,
    gate: &G,
) -> Status
where
    M::Door: BesideDoor,
    requires true_doors { M.is_true objects.old.doors.now }
    ensures did { DidRun (fixed_of settings.now) (IsCalm M.Door.faults) (⟦<Objects<'a, S, K, L, M> as Standing>⟧.stands objects.old)
        (⟦<Objects<'a, S, K, L, M> as Standing>⟧.stands objects.new) (code_of result) }
    ensures lent { Lends settings.now.providers (CameBack M.hands_out M.takes_back objects.old.doors.now objects.new.doors.now) (code_of result) }
    ensures none_fell { NoneFell (⟦<Objects<'a, S, K, L, M> as Standing>⟧.stands objects.old) (⟦<Objects<'a, S, K, L, M> as Standing>⟧.stands objects.new) }
    ensures truth_stays { M.is_true objects.old.doors.now ↔ M.is_true objects.new.doors.now }
    ensures names { ⟦<Objects<'a, S, K, L, M> as Standing>⟧.names objects.new ≡ ⟦<Objects<'a, S, K, L, M> as Standing>⟧.names objects.old }
{
    let Ok((shared, owner)) = new_store(alloc, settings, settings.limits) else {
        return Status::OutOfMemory;
    };
    answer_script(rt, alloc, settings, shared, owner, objects, gate)
}
