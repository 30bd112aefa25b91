// The groups of several doors run beside each other.
ghost use Rattle.std.specs.Prelude.{◌≤◌, All, length};
ghost use Rattle.page_fan.specs.Groups.{CanBePut};
ghost use Rattle.page_fan.specs.Stands.{EachReplied, EachHasReplies, EachCalled, TruthStays};

use crate::stand::{Put, Stand};
use page_store::{Door, FlakyDoor, Houses, PlainDoor};
use std::sync::Wait;
use std::thread;
use std::thread::Threads;
use tree_geom::PageSize;

// To start and to join a thread takes longer than to copy an update's pages into memory, and every thread wants memory of
// its own, so no update is large enough for doors that put into memory.
const NEVER: usize = usize::MAX;

// A door to another machine or to a disk waits, and so may one that fails by a list, which stands for one in tests.
const BYTES_A_THREAD: usize = 65_536;

/// A door whose type says how the groups of its own kind are run: by one line, a call of `put_all_groups`. There the type
/// is known, so that its puts are proved in every thread. What stands above and is generic over doors calls `put_groups`
/// and sends nothing itself.
///
/// It has no supertrait `Send`, since with one each call under a bound `BesideDoor` would count as sending. And it
/// isn't one trait with `Door`, since `put_all_groups` would then lead back to the very `impl` that calls it.
pub trait BesideDoor: Door {
    ghost use Rattle.std.specs.Prelude.{◌≤◌, All, length};
    ghost use denote.Param.Send.{IsSync};
    ghost use Rattle.page_fan.specs.Groups.{CanBePut};
    ghost use Rattle.page_fan.specs.Stands.{EachReplied, EachHasReplies, EachCalled, TruthStays};

    /// How many bytes of an update are worth a thread to this kind of door. An update of fewer than twice as many is stored by the
    /// calling thread alone.
    fn bytes_a_thread() -> usize
        ensures { 1 ≤ result };

    /// Each stand puts the pages of its own provider, in order, and has one reply to each put in its tray. Where the
    /// tray is refused more memory, the stand stops, and the replies to its last puts are missing. The first stand is
    /// that of provider 1.
    fn put_groups<R: Threads + Wait + Sync>(
        rt: &R,
        stands: &mut [Stand<Self>],
        houses: &Houses,
        p: PageSize,
        buffer: &[u8],
        puts: &[Put],
    )
        requires sync { IsSync R.row }
        requires puts { All (CanBePut (length houses.now) buffer.now) puts.now }
        ensures truth_stays { TruthStays Self.is_true stands.old stands.new }
        ensures replies { EachReplied houses.now p buffer.now Self.faults stands.old stands.new }
        ensures each { EachHasReplies puts.now stands.old stands.new }
        ensures called { EachCalled Self.called stands.old stands.new };
}

/// Each stand puts the pages of its own provider, as `put_groups` says, in as many threads as there are `worth` bytes in
/// the buffer, and no more than there are stands. Where that is one, or none can be made, the calling thread does it all.
///
/// `worth` is how many bytes of an update are worth a thread to this kind of door, as its `bytes_a_thread` says.
pub fn put_all_groups<D: Door + Send, R: Threads + Wait + Sync>(
    rt: &R,
    stands: &mut [Stand<D>],
    houses: &Houses,
    p: PageSize,
    buffer: &[u8],
    puts: &[Put],
    worth: usize,
)
    requires puts { All (CanBePut (length houses.now) buffer.now) puts.now }
    requires worth { 1 ≤ worth }
    ensures truth_stays { TruthStays D.is_true stands.old stands.new }
    ensures replies { EachReplied houses.now p buffer.now D.faults stands.old stands.new }
    ensures each { EachHasReplies puts.now stands.old stands.new }
    ensures called { EachCalled D.called stands.old stands.new }
{
    let threads = (buffer.len() / worth).min(stands.len()).max(1);
    thread::for_each_mut(
        rt,
        stands,
        threads,
        &|index, stand| stand.put_group(rt, index, houses, p, buffer, puts),
    );
}

impl BesideDoor for PlainDoor {
    fn bytes_a_thread() -> usize {
        NEVER
    }

    fn put_groups<R: Threads + Wait + Sync>(
        rt: &R,
        stands: &mut [Stand<PlainDoor>],
        houses: &Houses,
        p: PageSize,
        buffer: &[u8],
        puts: &[Put],
    ) {
        let worth = PlainDoor::bytes_a_thread();
        put_all_groups(rt, stands, houses, p, buffer, puts, worth);
    }
}

impl BesideDoor for FlakyDoor {
    fn bytes_a_thread() -> usize {
        BYTES_A_THREAD
    }

    fn put_groups<R: Threads + Wait + Sync>(
        rt: &R,
        stands: &mut [Stand<FlakyDoor>],
        houses: &Houses,
        p: PageSize,
        buffer: &[u8],
        puts: &[Put],
    ) {
        let worth = FlakyDoor::bytes_a_thread();
        put_all_groups(rt, stands, houses, p, buffer, puts, worth);
    }
}
