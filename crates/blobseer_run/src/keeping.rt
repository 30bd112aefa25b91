// Frames are answered by a new page node.
ghost use Rattle.std.specs.Prelude.{◌≡◌, ◌↔◌};
ghost use Rattle.blobseer_run.specs.Outside.{NoneFell};
ghost use Rattle.blobseer_run.specs.Lending.{CameBack};
ghost use Rattle.blobseer_run.specs.Node.{DidNode};
ghost use Rattle.blobseer_run.specs.Status.{code_of};

use crate::objects::{Objects, Standing};
use crate::status::{INPUT_LIMIT, Status};
use crate::store::page_size;
use page_node::{Shelf, serve_node};
use page_store::DoorMaker;
use ports::listener::Listener;
use ports::pair::Pair;
use ports::stream::{Sink, Source};
use settings::Settings;
use std::alloc::Global;
use std::mem;
use std::sync::Wait;
use std::thread::Threads;

/// The command `node`: answers frames from a new shelf for pages of the settings' size.
pub(crate) fn keep_pages<
    'a,
    R: Wait + Threads + Sync,
    S: Source,
    K: Sink,
    L: Listener,
    M: DoorMaker,
>(rt: &R, alloc: Global, settings: &Settings, objects: &mut Objects<'a, S, K, L, M>) -> Status
    ensures did { DidNode settings.now.page (⟦<Objects<'a, S, K, L, M> as Standing>⟧.stands objects.old)
        (⟦<Objects<'a, S, K, L, M> as Standing>⟧.stands objects.new) (code_of result) }
    ensures lent { CameBack M.hands_out M.takes_back objects.old.doors.now objects.new.doors.now 0 }
    ensures none_fell { NoneFell (⟦<Objects<'a, S, K, L, M> as Standing>⟧.stands objects.old) (⟦<Objects<'a, S, K, L, M> as Standing>⟧.stands objects.new) }
    ensures truth_stays { M.is_true objects.old.doors.now ↔ M.is_true objects.new.doors.now }
    ensures names { ⟦<Objects<'a, S, K, L, M> as Standing>⟧.names objects.new ≡ ⟦<Objects<'a, S, K, L, M> as Standing>⟧.names objects.old }
{
    let Ok(mut shelf) = Shelf::new(alloc, page_size(settings)) else {
        return Status::OutOfMemory;
    };
    let mut io = Pair {
        source: objects.script,
        sink: objects.out,
    };
    let end = serve_node(rt, alloc, &mut shelf, &mut io, INPUT_LIMIT);
    // The process ends, and gives the memory of all pages back at once.
    mem::forget(shelf);
    Status::after(end)
}
