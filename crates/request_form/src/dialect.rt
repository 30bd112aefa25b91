use crate::form::{Ending, Heard, Reply};
use arrayvec::ArrayVec;
use blob_model::Bytes;
use faults::NoMemory;
use std::alloc::Global;

/// The most bytes of a head: a frame's with three numbers, one of them of 16 bytes.
pub const MAX_HEAD: usize = 37;

/// Bytes that stand in place, and take no memory: a short frame, or the front of one where the bytes of a read come behind it.
pub type Head = ArrayVec<u8, MAX_HEAD>;

/// A reply as it is written: the bytes of its head, and behind them those of its body.
///
/// So a short reply takes no memory, and the bytes of a read can be written from where they lie.
#[derive(Drop)]
pub struct Said {
    pub head: Head,
    pub body: Bytes,
}

impl Said {
    ghost use Rattle.std.specs.Prelude.{◌≡◌, []};

    /// A reply that is no more than a head. Takes no memory.
    pub fn of_head(alloc: Global, head: Head) -> Said
        ensures head { result.head ≡ head }
        ensures body { result.body ≡ [] }
    {
        Said {
            head,
            body: Bytes::of(Vec::new(alloc)),
        }
    }

    /// A reply that is no more than a body.
    pub fn of_body(body: Bytes) -> Said
        ensures head { result.head.items ≡ [] }
        ensures body { result.body ≡ body }
    {
        Said {
            head: Head::new(),
            body,
        }
    }
}

/// How requests and replies are spelled on a stream. After want of memory a dialect isn't used again.
pub trait Dialect {
    ghost use Rattle.std.specs.Prelude.{◌≡◌, ◌++◌, ℕ, List, [], OnOk, IfOk};
    ghost use Rattle.request_form.specs.Stream.{Stream, IsFed, IsNext, IsEnding};
    ghost use Rattle.request_form.specs.declared.form.Reply.{Reply};

    /// What is still to be heard, where the stream goes on by these bytes and then ends.
    ghost reads: { Self → List ℕ → Stream };

    /// How a reply is written.
    ghost said: { Reply → List ℕ };

    /// Takes the stream's next bytes.
    fn feed(&mut self, piece: &[u8]) -> Result<(), NoMemory>
        ensures { OnOk result (IsFed (reads self.old) piece.now (reads self.new)) };

    /// The next whole item of the bytes that were fed, or none where only a part of one is left.
    fn next(&mut self) -> Result<Option<Heard>, NoMemory>
        ensures { IfOk result (λ heard. IsNext (reads self.old) heard (reads self.new)) };

    /// What is left over at the end of the stream, once `next` has answered none.
    fn end(&mut self) -> Result<Ending, NoMemory>
        requires { (reads self.old []).whole ≡ [] }
        ensures { IfOk result (λ ending. IsEnding (reads self.old) ending) };

    /// The reply as it is written.
    fn say(&self, reply: &Reply) -> Result<Bytes, NoMemory>
        ensures { IfOk result (λ bytes. bytes ≡ said reply.now) };

    /// The reply as it is written, in two parts: head and body one behind the other are what `say` gives. What a read gave
    /// may be the body, uncopied.
    fn say_in_parts(&self, reply: Reply) -> Result<Said, NoMemory>
        ensures { IfOk result (λ parts. parts.head.items ++ parts.body ≡ said reply) };
}
