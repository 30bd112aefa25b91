//! A dialect whose replies are as long as its bytes ask for.

ghost use Rattle.std.specs.Prelude.{◌≡◌, [], IfOk};
ghost use Rattle.stream_tests.specs.Sizes.{said_length};

use blob_model::Bytes;
use request_form::{Chunk, Dialect, Ending, Fault, Heard, NoMemory, Reply, Said};
use std::alloc::Global;
use std::marker::Model;

// More bytes than there are in a test.
const ROOM: usize = 64;

/// A dialect in which each byte asks for a reply of that many thousand bytes, all of them its body. Contracts see the bytes that
/// were fed and not answered by `next`.
#[derive(Drop)]
pub(crate) struct Sizes {
    alloc: Global,
    rest: Chunk,
}

impl Model for Sizes {
    ghost use Rattle.std.specs.Prelude.{ℕ, List};

    ghost Value = { List ℕ };

    ghost view = { λ s. s.rest };
}

impl Sizes {
    /// A dialect that was fed nothing.
    pub(crate) fn new(alloc: Global) -> Result<Sizes, NoMemory>
        ensures { IfOk result (λ sizes. sizes ≡ []) }
    {
        Ok(Sizes {
            alloc,
            rest: Chunk::with_room(alloc, ROOM)?,
        })
    }
}

// How many bytes a reply is written as.
fn length_of(reply: &Reply) -> u64
    ensures { result ≡ said_length reply.now }
{
    match reply {
        Reply::Refused(Fault::FrameTooLong { length }) => *length,
        _ => 0,
    }
}

impl Dialect for Sizes {
    ghost use Rattle.std.specs.Prelude.{◌++◌};
    ghost use Rattle.stream_tests.specs.Sizes.{heard, said};

    ghost reads = { λ rest more. heard (rest ++ more) };

    ghost said = { said };

    fn feed(&mut self, piece: &[u8]) -> Result<(), NoMemory> {
        self.rest.add(piece)
    }

    fn next(&mut self) -> Result<Option<Heard>, NoMemory> {
        match self.rest.as_slice().first() {
            None => Ok(None),
            Some(byte) => {
                let length = u64::from(*byte) * 1000;
                self.rest.take(1);
                Ok(Some(Heard::Wrong(Fault::FrameTooLong { length })))
            }
        }
    }

    fn end(&mut self) -> Result<Ending, NoMemory> {
        Ok(Ending::Clean)
    }

    fn say(&self, reply: &Reply) -> Result<Bytes, NoMemory> {
        match vec![in self.alloc; b'!'; length_of(reply) as usize] {
            Ok(bytes) => Ok(Bytes::of(bytes)),
            Err(_) => Err(NoMemory),
        }
    }

    fn say_in_parts(&self, reply: Reply) -> Result<Said, NoMemory> {
        Ok(Said::of_body(self.say(&reply)?))
    }
}
