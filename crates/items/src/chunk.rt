ghost use Rattle.std.specs.Prelude.{◌≡◌, ◌≤◌, ◌++◌, [], length, drop, OnOk, IfOk};

use faults::NoMemory;
use std::alloc::Global;
use std::marker::Model;

/// Bytes of a stream that were taken and aren't read yet. Contracts see those that are left.
#[derive(Drop)]
pub struct Chunk {
    bytes: Vec<u8>,
    taken: usize,
}

impl Model for Chunk {
    ghost use Rattle.std.specs.Prelude.{ℕ, ◌≤◌, List, length, drop};

    ghost Value = { List ℕ };

    ghost view = { λ p. drop p.taken p.bytes.items };

    ghost invariant = { λ p. p.taken ≤ length p.bytes.items };
}

impl Chunk {
    /// No bytes, with room for some.
    pub fn with_room(alloc: Global, room: usize) -> Result<Chunk, NoMemory>
        ensures { IfOk result (λ chunk. chunk ≡ []) }
    {
        match Vec::with_capacity(alloc, room) {
            Ok(bytes) => Ok(Chunk { bytes, taken: 0 }),
            Err(_) => Err(NoMemory),
        }
    }

    /// More bytes behind those that are here.
    pub fn add(&mut self, more: &[u8]) -> Result<(), NoMemory>
        ensures { OnOk result (self.new ≡ self.old ++ more.now) }
    {
        // No more bytes are moved than were taken since bytes were last moved.
        if self.taken >= self.bytes.len() - self.taken {
            self.drop_taken();
        }
        match self.bytes.extend_from_slice(more) {
            Ok(()) => Ok(()),
            Err(_) => Err(NoMemory),
        }
    }

    // Moves the bytes that are left to the front.
    fn drop_taken(&mut self)
        ensures { self.new ≡ self.old }
    {
        let left = self.bytes.len() - self.taken;
        self.bytes.copy_within(self.taken.., 0);
        self.bytes.truncate(left);
        self.taken = 0;
    }

    /// The bytes that are left.
    pub fn as_slice(&self) -> &[u8]
        ensures { result.now ≡ self.now }
    {
        &self.bytes.as_slice()[self.taken..]
    }

    /// Takes the first `count` bytes.
    pub fn take(&mut self, count: usize)
        requires { count ≤ length self.old }
        ensures { self.new ≡ drop count self.old }
    {
        self.taken += count;
    }
}
