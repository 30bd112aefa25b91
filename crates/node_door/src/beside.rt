//! How doors to nodes put their pages: one after another, or beside each other.
ghost use Rattle.std.specs.Prelude.{All, length};

use crate::door::StreamDoor;
use crate::loop_link::LoopLink;
use crate::turn::put_in_turn;
use page_fan::{BesideDoor, Put, Stand, put_all_groups};
use page_store::Houses;
use ports::pair::Pair;
use ports::stream::{Sink, Source};
use ports::tcp::TcpPeer;
use std::io::{Read, Write};
use std::sync::Wait;
use std::thread::Threads;
use tree_geom::PageSize;

/// How many bytes of an update are worth a thread to a door to a node, which waits for the node's reply to each page.
pub const BYTES_A_THREAD: usize = 65_536;

/// A link whose doors serve sessions. Every source and sink can be one, by an `impl` without a line: its doors then put their pages
/// one after another in the calling thread, so nothing is asked of the link's type.
///
/// A type of links that may go to other threads can say that its doors put beside each other, by one line, a call of
/// `put_all_groups`, as a `LoopLink` does. There the type is known, so that its puts are proved in every thread.
pub trait BesideLink: Source + Sink + Sized {
    ghost use Rattle.std.specs.Prelude.{◌≤◌, ⊤, All, length};
    ghost use denote.Param.Send.{IsSync};
    ghost use Rattle.page_fan.specs.Groups.{CanBePut};
    ghost use Rattle.page_fan.specs.Stands.{EachReplied, EachHasReplies, EachCalled, TruthStays};
    ghost use Rattle.node_door.specs.Door.{DoorAt, DoorCalled};

    /// How many bytes of an update are worth a thread to a door over such a link: no update has so many, unless the type says so.
    fn bytes_a_thread() -> usize
        ensures { 1 ≤ result }
    {
        usize::MAX
    }

    /// Each stand puts the pages of its own provider, as `BesideDoor::put_groups` says.
    fn put_groups<R: Threads + Wait + Sync>(
        rt: &R,
        stands: &mut [Stand<StreamDoor<Self>>],
        houses: &Houses,
        p: PageSize,
        buffer: &[u8],
        puts: &[Put],
    )
        requires sync { IsSync R.row }
        requires puts { All (CanBePut (length houses.now) buffer.now) puts.now }
        ensures truth_stays { TruthStays (λ (d : DoorAt). ⊤) stands.old stands.new }
        ensures replies { EachReplied houses.now p buffer.now (λ (d : DoorAt). d.faults) stands.old stands.new }
        ensures each { EachHasReplies puts.now stands.old stands.new }
        ensures called { EachCalled DoorCalled stands.old stands.new }
    {
        put_in_turn(rt, stands, houses, p, buffer, puts);
    }
}

impl BesideLink for LoopLink {
    fn bytes_a_thread() -> usize {
        BYTES_A_THREAD
    }

    fn put_groups<R: Threads + Wait + Sync>(
        rt: &R,
        stands: &mut [Stand<StreamDoor<LoopLink>>],
        houses: &Houses,
        p: PageSize,
        buffer: &[u8],
        puts: &[Put],
    ) {
        let worth = LoopLink::bytes_a_thread();
        put_all_groups(rt, stands, houses, p, buffer, puts, worth);
    }
}

impl<'a, S: Source, K: Sink> BesideLink for Pair<'a, S, K> {}

impl<S: Read + Write> BesideLink for TcpPeer<S> {}

impl<L: BesideLink> BesideDoor for StreamDoor<L> {
    fn bytes_a_thread() -> usize {
        L::bytes_a_thread()
    }

    fn put_groups<R: Threads + Wait + Sync>(
        rt: &R,
        stands: &mut [Stand<StreamDoor<L>>],
        houses: &Houses,
        p: PageSize,
        buffer: &[u8],
        puts: &[Put],
    ) {
        L::put_groups(rt, stands, houses, p, buffer, puts);
    }
}
