ghost use Rattle.std.specs.Prelude.{◌≡◌, ◌↔◌, ℕ, ◌-◌, ◌^◌, ◌<◌, ◌≤◌, List, map};
ghost use Rattle.std.specs.String.{string_bytes};
ghost use Rattle.faults.specs.Counts.{RoseBy};
ghost use Rattle.blobseer_run.specs.Outside.{outside, NoneFell};
ghost use Rattle.blobseer_run.specs.Lending.{CameBack, LendsBy};
ghost use Rattle.blobseer_run.specs.Script.{IsCalm};
ghost use Rattle.blob_server.specs.Peers.{Converses};
ghost use Rattle.blobseer_run.specs.Hosting.{ServedByStore};
ghost use Rattle.blobseer_run.specs.Run.{Did, Ran, RefusesWords, RefusesSettings, IsTaken, IsComplete};
ghost use Rattle.blobseer_run.specs.Told.{NamesFile};
ghost use Rattle.blobseer_run.specs.Status.{code_of, Tells};

use crate::filing::answer_files;
use crate::hosting::serve_peers;
use crate::keeping::keep_pages;
use crate::loading::run_load;
use crate::objects::{Objects, Standing};
use crate::serving::serve_script;
use crate::status::Status;
use crate::told::told;
use crate::watching::run_watch;
use page_fan::BesideDoor;
use page_store::DoorMaker;
use ports::files::Files;
use ports::gate::Gate;
use ports::listener::Listener;
use ports::stream::{Sink, Source};
use settings::{Command, Settings};
use std::alloc::Global;
use std::sync::Wait;
use std::thread::Threads;

// Does what a command does, with these settings. Each command is a file of its own.
fn obey<
    'a,
    R: Wait + Threads + Sync,
    S: Source,
    K: Sink,
    L: Listener,
    M: DoorMaker,
    G: Gate + Sync,
>(
    rt: &R,
    alloc: Global,
    command: Command,
    settings: &Settings,
    objects: &mut Objects<'a, S, K, L, M>,
    gate: &G,
) -> Status
where
    L::Peer: Drop + Send,
    M::Door: BesideDoor + Drop + Send,
    requires true_doors { M.is_true objects.old.doors.now }
    ensures did { Did command settings.now (IsCalm M.Door.faults)
        (ServedByStore (Converses M.Door.faults L.Peer.given L.Peer.left L.Peer.written L.Peer.ends L.Peer.read_faults L.Peer.write_faults))
        (⟦<Objects<'a, S, K, L, M> as Standing>⟧.stands objects.old)
        (⟦<Objects<'a, S, K, L, M> as Standing>⟧.stands objects.new) (code_of result) }
    ensures lent { LendsBy command settings.now (CameBack M.hands_out M.takes_back objects.old.doors.now objects.new.doors.now) (code_of result) }
    ensures none_fell { NoneFell (⟦<Objects<'a, S, K, L, M> as Standing>⟧.stands objects.old) (⟦<Objects<'a, S, K, L, M> as Standing>⟧.stands objects.new) }
    ensures truth_stays { M.is_true objects.old.doors.now ↔ M.is_true objects.new.doors.now }
    ensures names { ⟦<Objects<'a, S, K, L, M> as Standing>⟧.names objects.new ≡ ⟦<Objects<'a, S, K, L, M> as Standing>⟧.names objects.old }
{
    match command {
        Command::Run => serve_script(rt, alloc, settings, objects, gate),
        Command::Serve => serve_peers(rt, alloc, settings, objects, gate),
        Command::Load => run_load(rt, alloc, settings, objects, gate),
        Command::Node => keep_pages(rt, alloc, settings, objects),
        Command::Files => answer_files(rt, alloc, settings, objects, gate),
        Command::Watch => run_watch(rt, alloc, settings, objects, gate),
    }
}

/// Does what the program does: what the words ask for, with the settings that they, the settings file that they name and the
/// defaults come to. With the command `run` it answers a script, as it comes, by the one session of a new store, up to its
/// end or to a line that asks to end. The replies to what was read are written before more is read, and what was answered
/// isn't kept. With the command `serve` it serves connections of `net`, each by one of many sessions of a new store, and then
/// writes how many they were. With the command `load` it runs a load of many workers over a new store with the greatest limits,
/// and writes its three lines, which are the same at every schedule. With the command `node` it answers frames as a new page node;
/// a frame that the input ends in has no reply. With the command `files` it answers lines about folders and files as a script, by
/// the one file session of a new store. With the command `watch` it runs a watch of a writer, a keeper and many standing readers
/// over a new store with the greatest limits, and writes its two lines, which are the same at every schedule. It answers the number
/// that the process ends with.
///
/// | number | when |
/// |---|---|
/// | 0 | the input was answered, up to its end or to the first whole request to end; or, with `serve`, as many connections as were asked for; or the load or the watch did all its operations |
/// | 1 | the words are refused |
/// | 2 | the settings file is longer than 65,536 bytes or isn't one of settings, or the replicas are more than the providers |
/// | 3 | a read of the settings file failed; or a read of `script`, and the lines before it that were ended, or the whole frames, are answered |
/// | 4 | a write on `out` failed |
/// | 5 | no memory was found |
/// | 6 | the listener failed, and the connections before were served |
/// | 7 | 4,294,967,296 bytes were taken; the lines in them that were ended, or the whole frames, are answered |
/// | 8 | the load or the watch ended early, as a page was lost |
///
/// The first cause that comes decides: the words, the read of the file, its text, what both come to, and then the command.
/// Each number but 0 writes its line on `err`, where a fault changes nothing. The store's pages go through doors of the maker
/// `doors`, which gives back what was put; it has them back when `run` answers. A page that no door took, or gave, is a
/// reply, and changes no status. The gate is called between the acts of updates. The store is closed before `run` answers.
pub fn run<
    R: Wait + Threads + Sync,
    S: Source,
    K: Sink,
    E: Sink,
    L: Listener,
    F: Files,
    M: DoorMaker,
    G: Gate + Sync,
>(
    rt: &R,
    alloc: Global,
    words: &[String],
    script: &mut S,
    out: &mut K,
    err: &mut E,
    net: &mut L,
    files: &mut F,
    doors: &mut M,
    gate: &G,
) -> u8
where
    L::Peer: Drop + Send,
    M::Door: BesideDoor + Drop + Send,
    // The doors give back the bytes that were put.
    requires true_doors { M.is_true doors.old }

    // What it was told, what it took and wrote, and how it ended. Each door that was made in it came back before it answered.
    ensures ran { Ran (map string_bytes words.now) (F.known files.old) (IsCalm M.Door.faults)
        (ServedByStore (Converses M.Door.faults L.Peer.given L.Peer.left L.Peer.written L.Peer.ends L.Peer.read_faults L.Peer.write_faults))
        (CameBack M.hands_out M.takes_back doors.old doors.new)
        (F.faults files.old) (F.faults files.new)
        (outside (record { given = S.given script.old; left = S.left script.old; reads = S.read_faults script.old; ends = S.ends script.old })
        (record { written = K.written out.old; writes = K.write_faults out.old })
        (record { listens = L.listens net.old; address = L.listens_at net.old; handing = record { handed = L.handed net.old; is_done = L.is_done net.old; faults = L.faults net.old } })
        (M.faults doors.old))
        (outside (record { given = S.given script.new; left = S.left script.new; reads = S.read_faults script.new; ends = S.ends script.new })
        (record { written = K.written out.new; writes = K.write_faults out.new })
        (record { listens = L.listens net.new; address = L.listens_at net.new; handing = record { handed = L.handed net.new; is_done = L.is_done net.new; faults = L.faults net.new } })
        (M.faults doors.new)) result }

    // When words and settings are refused.
    ensures words_refused { RefusesWords (map string_bytes words.now) result }
    ensures settings_refused { RefusesSettings (map string_bytes words.now) (F.known files.old) (F.faults files.old) (F.faults files.new) result }

    // Where words and settings are taken and nothing outside fails, it comes to its end, unless no memory is found. An input that is answered may also
    // be too long, and a load or a watch may end early where a door failed.
    ensures complete { IsTaken (map string_bytes words.now) (F.known files.old)
        → ¬ RoseBy 1 (S.read_faults script.old) (S.read_faults script.new)
        → ¬ RoseBy 1 (K.write_faults out.old) (K.write_faults out.new)
        → ¬ RoseBy 1 (L.faults net.old) (L.faults net.new)
        → ¬ RoseBy 1 (F.faults files.old) (F.faults files.new)
        → IsComplete (map string_bytes words.now) (M.faults doors.old) (M.faults doors.new) result }

    // What it put on the error output.
    ensures tells { Tells result (E.written err.old) (E.written err.new) (E.write_faults err.old) (E.write_faults err.new) }

    // Its counts never fall.
    ensures read_faults { RoseBy 0 (S.read_faults script.old) (S.read_faults script.new) }
    ensures write_faults { RoseBy 0 (K.write_faults out.old) (K.write_faults out.new) }
    ensures error_faults { RoseBy 0 (E.write_faults err.old) (E.write_faults err.new) }
    ensures listener_faults { RoseBy 0 (L.faults net.old) (L.faults net.new) }
    ensures file_faults { RoseBy 0 (F.faults files.old) (F.faults files.new) }
    ensures door_faults { M.faults doors.new < 2 ^ 64 - 1 → M.faults doors.old ≤ M.faults doors.new }

    // Its doors stay true.
    ensures truth_stays { M.is_true doors.old ↔ M.is_true doors.new }

    // Its files stay as they are, and aren't touched where the words name no settings file.
    ensures files_untouched { (¬ NamesFile (map string_bytes words.now)) → files.new ≡ files.old }
    ensures files_stay { (name : List ℕ) → F.known files.new name ≡ F.known files.old name }
{
    match told(alloc, words, files) {
        Ok((command, settings)) => {
            let mut objects = Objects::new(script, out, net, doors);
            obey(rt, alloc, command, &settings, &mut objects, gate).end(err)
        }
        Err(status) => status.end(err),
    }
}
