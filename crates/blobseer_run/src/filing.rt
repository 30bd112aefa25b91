// Lines about folders and files are answered over a new store and new names.
ghost use Rattle.std.specs.Prelude.{◌≡◌, ◌↔◌, [], length, sum_by, All};
ghost use Rattle.faults.specs.Counts.{RoseBy};
ghost use Rattle.request_form.specs.Answers.{max_update};
ghost use Rattle.client_session.specs.Sessions.{IsPassOf, IsOwnerOf, session_at};
ghost use Rattle.version_manager.specs.Log.{events};
ghost use Rattle.server_core.specs.Conversed.{end_read_faults, end_write_faults};
ghost use Rattle.blobseer_run.specs.Outside.{NoneFell};
ghost use Rattle.blobseer_run.specs.Store.{IsNewStore};
ghost use Rattle.blobseer_run.specs.Lending.{CameBack, Lends};
ghost use Rattle.blobseer_run.specs.Script.{fixed_of, IsCalm};
ghost use Rattle.blobseer_run.specs.Filing.{DidFiles, ServedLines, ServedNamed, ServedByOne};
ghost use Rattle.blobseer_run.specs.Status.{code_of};

use crate::objects::{Objects, Standing};
use crate::status::{INPUT_LIMIT, Status};
use crate::store::new_store;
use client_session::{Owner, Pass, Session, Shared};
use file_layer::{FileSession, serve_files};
use file_names::Names;
use page_fan::{BesideDoor, Doors};
use page_store::DoorMaker;
use ports::gate::Gate;
use ports::listener::Listener;
use ports::stream::{Sink, Source};
use request_form::laws::{own_events_are_made, transcripts_hold};
use server_core::End;
use settings::Settings;
use std::alloc::Global;
use std::mem;
use std::sync::Wait;
use std::thread::Threads;
use turn_lock::Turn;

// What a file session works with, and gives back: a pass of the store, one of the names, and doors.
struct Held<D> {
    pass: Pass,
    names: turn_lock::Pass<Names>,
    doors: Doors<D>,
}

// Serves lines by a file session that works with these passes and doors, and gives them back.
fn serve_session<R: Wait + Threads + Sync, S: Source, K: Sink, D: BesideDoor, G: Gate>(
    rt: &R,
    alloc: Global,
    shared: &Shared,
    names: &Turn<Names>,
    gate: &G,
    held: Held<D>,
    script: &mut S,
    out: &mut K,
) -> (End, Held<D>)
    requires pass { IsPassOf shared.now held.pass }
    requires names { held.names.lock ≡ names.now }
    requires served { length held.doors ≡ shared.now.providers }
    requires true_doors { All D.is_true held.doors }
    ensures lines { ServedLines
        (record {
          session = record {
            store = session_at shared.now.fixed held.pass.caller held.pass.seen [] 1 max_update;
            providers = length shared.now.fixed.houses;
            by = held.names.caller;
            names = held.names.seen;
          };
          faults = sum_by D.faults held.doors;
          written = K.written out.old;
        })
        (record { given = S.given script.old; left = S.left script.old; ends = S.ends script.old })
        (record { given = S.given script.new; left = S.left script.new; ends = S.ends script.new })
        (events result.1.pass.seen) result.1.names.seen (sum_by D.faults result.1.doors) (K.written out.new) result.0 }
    ensures pass { IsPassOf shared.now result.1.pass }
    ensures names { result.1.names ≡ record held.names { seen = result.1.names.seen; turns = result.1.names.turns } }
    ensures doors { length result.1.doors ≡ shared.now.providers }
    ensures read_faults { RoseBy (end_read_faults result.0) (S.read_faults script.old) (S.read_faults script.new) }
    ensures write_faults { RoseBy (end_write_faults result.0) (K.write_faults out.old) (K.write_faults out.new) }
{
    let Held {
        pass,
        names: names_pass,
        doors,
    } = held;
    let session = match Session::new(alloc, shared, gate, pass, doors) {
        Ok(session) => session,
        Err((pass, doors)) => {
            let names = names_pass;
            return (End::NoMemory, Held { pass, names, doors });
        }
    };
    let mut files = FileSession::new(alloc, session, names, names_pass);
    let end = serve_files(rt, alloc, &mut files, script, out, INPUT_LIMIT);
    let (session, names) = files.into_parts();
    let (pass, doors) = session.into_parts();
    (end, Held { pass, names, doors })
}

// Serves lines by a file session with new names, of which it has the one pass, closes the names, and gives the store's pass and the doors back.
fn serve_named<R: Wait + Threads + Sync, S: Source, K: Sink, D: BesideDoor, G: Gate>(
    rt: &R,
    alloc: Global,
    shared: &Shared,
    gate: &G,
    pass: Pass,
    doors: Doors<D>,
    script: &mut S,
    out: &mut K,
) -> (End, Pass, Doors<D>)
    requires pass { IsPassOf shared.now pass }
    requires served { length doors ≡ shared.now.providers }
    requires true_doors { All D.is_true doors }
    ensures lines { ServedNamed
        (record {
          session = record { store = session_at shared.now.fixed pass.caller pass.seen [] 1 max_update; providers = length shared.now.fixed.houses; by = 1; names = [] };
          faults = sum_by D.faults doors;
          written = K.written out.old;
        })
        (record { given = S.given script.old; left = S.left script.old; ends = S.ends script.old })
        (record { given = S.given script.new; left = S.left script.new; ends = S.ends script.new })
        (events result.1.seen) (sum_by D.faults result.2) (K.written out.new) result.0 }
    ensures pass { IsPassOf shared.now result.1 }
    ensures doors { length result.2 ≡ shared.now.providers }
    ensures read_faults { RoseBy (end_read_faults result.0) (S.read_faults script.old) (S.read_faults script.new) }
    ensures write_faults { RoseBy (end_write_faults result.0) (K.write_faults out.old) (K.write_faults out.new) }
{
    let Ok(tree) = Names::new(alloc) else {
        return (End::NoMemory, pass, doors);
    };
    let Ok((turn, mut owner)) = Turn::new(alloc, tree) else {
        return (End::NoMemory, pass, doors);
    };
    let Ok(names) = owner.pass(&turn) else {
        // No pass was made yet.
        unreachable!()
    };
    let held = Held { pass, names, doors };
    let (end, held) = serve_session(rt, alloc, shared, &turn, gate, held, script, out);
    let Held { pass, names, doors } = held;
    owner.take_back(&turn, names);
    let Ok(tree) = owner.close(turn) else {
        // No pass is out.
        unreachable!()
    };
    let _entered = tree.history();
    // The process ends, and gives the memory of all names back at once.
    mem::forget(tree);
    (end, pass, doors)
}

// Serves lines by the first session of a new store with new names, closes the store, and gives the doors back.
fn serve_store<R: Wait + Threads + Sync, S: Source, K: Sink, D: BesideDoor, G: Gate>(
    rt: &R,
    alloc: Global,
    shared: Shared,
    owner: Owner,
    gate: &G,
    doors: Doors<D>,
    script: &mut S,
    out: &mut K,
) -> (End, Doors<D>)
    requires owner { IsOwnerOf shared owner }
    requires no_pass { owner.made ≡ 0 }
    requires none_out { owner.out ≡ 0 }
    requires new { owner.seen ≡ [] }
    requires served { length doors ≡ shared.providers }
    requires true_doors { All D.is_true doors }
    ensures lines { ServedByOne (record { limits = shared.fixed.limits; page = shared.fixed.page_size }) shared.providers
        (record { given = S.given script.old; left = S.left script.old; ends = S.ends script.old })
        (record { given = S.given script.new; left = S.left script.new; ends = S.ends script.new })
        (sum_by D.faults doors) (sum_by D.faults result.1) (K.written out.old) (K.written out.new) result.0 }
    ensures doors { length result.1 ≡ shared.providers }
    ensures read_faults { RoseBy (end_read_faults result.0) (S.read_faults script.old) (S.read_faults script.new) }
    ensures write_faults { RoseBy (end_write_faults result.0) (K.write_faults out.old) (K.write_faults out.new) }
{
    let mut owner = owner;
    let Ok(pass) = shared.pass(&mut owner) else {
        // No pass was made yet.
        unreachable!()
    };
    shared.is_housed();
    let (end, pass, doors) = serve_named(rt, alloc, &shared, gate, pass, doors, script, out);
    shared.take_back(&mut owner, pass);
    let Ok(desk) = shared.close(owner) else {
        // No pass is out.
        unreachable!()
    };
    // The process ends, and gives the memory of all pages and nodes back at once.
    mem::forget(desk);
    (end, doors)
}

// Answers lines about folders and files by the one file session of that store and of new names. The session's doors are the
// maker's, and go back to it; its passes go back to the store and to the names, which are closed.
fn answer_lines<
    'a,
    R: Wait + Threads + Sync,
    S: Source,
    K: Sink,
    L: Listener,
    M: DoorMaker,
    G: Gate,
>(
    rt: &R,
    alloc: Global,
    settings: &Settings,
    shared: Shared,
    owner: Owner,
    objects: &mut Objects<'a, S, K, L, M>,
    gate: &G,
) -> Status
where
    M::Door: BesideDoor,
    requires store { IsNewStore settings.now settings.now.limits shared owner }
    requires true_doors { M.is_true objects.old.doors.now }
    ensures did { DidFiles (fixed_of settings.now) settings.now.providers (IsCalm M.Door.faults) (⟦<Objects<'a, S, K, L, M> as Standing>⟧.stands objects.old)
        (⟦<Objects<'a, S, K, L, M> as Standing>⟧.stands objects.new) (code_of result) }
    ensures lent { Lends settings.now.providers (CameBack M.hands_out M.takes_back objects.old.doors.now objects.new.doors.now) (code_of result) }
    ensures none_fell { NoneFell (⟦<Objects<'a, S, K, L, M> as Standing>⟧.stands objects.old) (⟦<Objects<'a, S, K, L, M> as Standing>⟧.stands objects.new) }
    ensures truth_stays { M.is_true objects.old.doors.now ↔ M.is_true objects.new.doors.now }
    ensures names { ⟦<Objects<'a, S, K, L, M> as Standing>⟧.names objects.new ≡ ⟦<Objects<'a, S, K, L, M> as Standing>⟧.names objects.old }
{
    // Laws that tell that the session was alone.
    transcripts_hold();
    own_events_are_made();
    let Ok(doors) = Doors::new(alloc, objects.doors, settings.providers) else {
        return Status::OutOfMemory;
    };
    let (end, doors) = serve_store(
        rt,
        alloc,
        shared,
        owner,
        gate,
        doors,
        objects.script,
        objects.out,
    );
    doors.back(objects.doors);
    Status::after(end)
}

/// The command `files`: answers lines about folders and files by the one file session of a new store of these settings and of new
/// names.
pub(crate) fn answer_files<
    'a,
    R: Wait + Threads + Sync,
    S: Source,
    K: Sink,
    L: Listener,
    M: DoorMaker,
    G: Gate,
>(
    rt: &R,
    alloc: Global,
    settings: &Settings,
    objects: &mut Objects<'a, S, K, L, M>,
    gate: &G,
) -> Status
where
    M::Door: BesideDoor,
    requires true_doors { M.is_true objects.old.doors.now }
    ensures did { DidFiles (fixed_of settings.now) settings.now.providers (IsCalm M.Door.faults) (⟦<Objects<'a, S, K, L, M> as Standing>⟧.stands objects.old)
        (⟦<Objects<'a, S, K, L, M> as Standing>⟧.stands objects.new) (code_of result) }
    ensures lent { Lends settings.now.providers (CameBack M.hands_out M.takes_back objects.old.doors.now objects.new.doors.now) (code_of result) }
    ensures none_fell { NoneFell (⟦<Objects<'a, S, K, L, M> as Standing>⟧.stands objects.old) (⟦<Objects<'a, S, K, L, M> as Standing>⟧.stands objects.new) }
    ensures truth_stays { M.is_true objects.old.doors.now ↔ M.is_true objects.new.doors.now }
    ensures names { ⟦<Objects<'a, S, K, L, M> as Standing>⟧.names objects.new ≡ ⟦<Objects<'a, S, K, L, M> as Standing>⟧.names objects.old }
{
    let Ok((shared, owner)) = new_store(alloc, settings, settings.limits) else {
        return Status::OutOfMemory;
    };
    answer_lines(rt, alloc, settings, shared, owner, objects, gate)
}
