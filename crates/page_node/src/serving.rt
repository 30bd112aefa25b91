//! A stream of frames that a node answers.
ghost use Rattle.std.specs.Prelude.{◌≡◌, ◌≤◌};
ghost use Rattle.faults.specs.Counts.{RoseBy};
ghost use Rattle.server_core.specs.Conversed.{end_read_faults, end_write_faults, end_ends};
ghost use Rattle.page_node.specs.Node.{is_quit};
ghost use Rattle.page_node.specs.Transcript.{ServedNode};

use crate::asking::Asking;
use crate::form::{NodeHeard, NodeRequest};
use crate::saying::say;
use crate::shelf::Shelf;
use items::Ending;
use items::frames::Frames;
use ports::stream::{Sink, Source};
use request_form::{NoMemory, Said};
use server_core::laws::conversations_end_exactly;
use server_core::{Conversation, End, converse};
use std::alloc::Global;
use std::sync::Wait;
use std::thread::Threads;

// A node that is asked by frames.
#[derive(Drop)]
struct NodeTalk {
    shelf: Shelf,
    frames: Frames<Asking>,
}

impl NodeTalk {
    // What the node keeps, once nothing more is asked.
    fn into_shelf(self) -> Shelf
        ensures { result ≡ self.shelf }
    {
        let NodeTalk { shelf, frames: _ } = self;
        shelf
    }
}

impl Conversation for NodeTalk {
    ghost use Rattle.std.specs.Prelude.{◌++◌};
    ghost use Rattle.page_node.specs.Frames.{heard};
    ghost use Rattle.page_node.specs.Transcript.{node_talk};

    type Item = NodeHeard;

    ghost talk = { node_talk };

    ghost reads = { λ n more. heard (n.frames ++ more) };

    ghost session = { λ n. n.shelf };

    ghost faults = { λ n. 0 };

    ghost kept = { λ n. tt };

    fn feed(&mut self, piece: &[u8]) -> Result<(), NoMemory> {
        self.frames.feed(piece)
    }

    fn next(&mut self) -> Result<Option<NodeHeard>, NoMemory> {
        self.frames.next()
    }

    fn end(&mut self) -> Result<Ending<NodeHeard>, NoMemory> {
        Ok(self.frames.end())
    }

    fn is_last(item: &NodeHeard) -> bool
        ensures { result ≡ is_quit item.now }
    {
        matches!(item, NodeHeard::Asked(NodeRequest::Quit))
    }

    fn answer<R: Wait + Threads + Sync>(
        &mut self,
        _rt: &R,
        item: NodeHeard,
    ) -> Result<Said, NoMemory> {
        let reply = self.shelf.answer(item);
        say(self.shelf.allocator(), reply)
    }
}

/// Answers the frames of one stream from a node's shelf until the stream ends, takes at most `limit` bytes, and says how it
/// ended.
///
/// It reads and writes as every stream is served: in pieces of up to 65,536 bytes, whose replies are written at the latest before
/// the next read. Where no memory is found for a page or its bytes, the reply is a refusal, and the stream goes on. Where none
/// is found for a frame that comes or for a reply, the stream ends.
pub fn serve_node<R: Wait + Threads + Sync, I: Source + Sink>(
    rt: &R,
    alloc: Global,
    shelf: &mut Shelf,
    io: &mut I,
    limit: u64,
) -> End
    requires some { 1 ≤ limit }
    ensures served { ServedNode shelf.old (I.written io.old)
        (record { given = I.given io.old; left = I.left io.old; ends = I.ends io.old })
        (record { given = I.given io.new; left = I.left io.new; ends = I.ends io.new })
        limit shelf.new (I.written io.new) result }
    ensures read_faults { RoseBy (end_read_faults result) (I.read_faults io.old) (I.read_faults io.new) }
    ensures write_faults { RoseBy (end_write_faults result) (I.write_faults io.old) (I.write_faults io.new) }
    ensures ends { RoseBy (end_ends result) (I.ends io.old) (I.ends io.new) }
    ensures objects { I.objects io.new ≡ I.objects io.old }
{
    conversations_end_exactly::<NodeTalk>();
    let frames = match Frames::new(alloc) {
        Ok(frames) => frames,
        Err(NoMemory) => return End::NoMemory,
    };
    let mut talk = NodeTalk {
        shelf: shelf.take(),
        frames,
    };
    let end = converse(rt, alloc, &mut talk, io, limit);
    *shelf = talk.into_shelf();
    end
}
