ghost use Rattle.std.specs.Prelude.{◌≡◌, ℕ, ◌+◌, ◌-◌, ◌<◌, ◌≤◌, List, [], ◌++◌, length, take, drop, min, IfOk};
ghost use Rattle.faults.specs.Counts.{count_after, RoseBy};

use crate::plan::Plan;
use faults::{NoMemory, count_up};
use ports::stream::{Ends, Sink, Source, Taken, Written};
use std::alloc::Global;
use std::marker::Model;

/// A list of bytes as a source that tells all of itself. It gives the bytes in pieces, and fails where it is told to.
#[derive(Drop)]
pub struct MemSource {
    bytes: Vec<u8>,
    at: usize,
    piece: usize,
    plan: Plan,
    faults: u64,
    ends: u64,
}

impl Model for MemSource {
    ghost use Rattle.std.specs.Prelude.{take, drop, ◌≤◌, ◌<◌, length};
    ghost use Rattle.memory_ports.specs.Streams.{Reading};

    ghost Value = { Reading };

    ghost view = { λ s. record {
      given = take s.at s.bytes.items;
      left = drop s.at s.bytes.items;
      piece = s.piece;
      plan = s.plan;
      faults = s.faults;
      ends = s.ends;
    } };

    ghost invariant = { λ s. (s.at ≤ length s.bytes.items) × (0 < s.piece) };
}

impl MemSource {
    /// A source of these bytes, in pieces of at most `piece` bytes, at least one. Read number `i`, from
    /// 0, fails where `failing[i]` says so; a read past the end of that list doesn't fail.
    pub fn new(bytes: Vec<u8>, piece: usize, failing: Vec<bool>) -> MemSource
        requires { 0 < piece }
        ensures { result ≡ record { given = []; left = bytes.items; piece = piece; plan = failing.items; faults = 0; ends = 0 } }
    {
        MemSource {
            bytes,
            at: 0,
            piece,
            plan: Plan::new(failing),
            faults: 0,
            ends: 0,
        }
    }

    /// The bytes that reads took.
    pub fn given(&self) -> &[u8]
        ensures { result.now ≡ self.now.given }
    {
        &self.bytes.as_slice()[..self.at]
    }

    // How many bytes the next piece has.
    fn piece_length(&self, room: usize) -> usize
        requires { 0 < room }
        ensures length { result ≡ min self.now.piece (min (length self.now.left) room) }
        ensures none { result ≡ 0 → length self.now.left ≡ 0 }
    {
        self.piece.min((self.bytes.len() - self.at).min(room))
    }

    // Puts the next n bytes to the front of a buffer.
    fn give(&mut self, n: usize, buf: &mut [u8])
        requires here { n ≤ length self.old.left }
        requires room { n ≤ length buf.old }
        ensures bytes { self.old.left ≡ take n buf.new ++ self.new.left }
        ensures given { self.new.given ≡ self.old.given ++ take n buf.new }
        ensures rest { drop n buf.new ≡ drop n buf.old }
        ensures plan { self.new.plan ≡ self.old.plan }
        ensures piece { self.new.piece ≡ self.old.piece }
        ensures faults { self.new.faults ≡ self.old.faults }
        ensures ends { self.new.ends ≡ self.old.ends }
    {
        copy_front(buf, self.bytes.as_slice(), self.at, n);
        self.at += n;
    }
}

// Puts n bytes of a list to the front of a buffer.
fn copy_front(to: &mut [u8], from: &[u8], at: usize, n: usize)
    requires room { n ≤ length to.old }
    requires here { at + n ≤ length from.now }
    ensures front { take n to.new ≡ take n (drop at from.now) }
    ensures rest { drop n to.new ≡ drop n to.old }
{
    to[..n].copy_from_slice(&from[at..at + n]);
}

impl Ends for MemSource {
    ghost use Rattle.std.specs.Prelude.{Some, None, []};

    ghost given = { λ s. Some s.given };

    ghost left = { λ s. Some s.left };

    ghost written = { λ s. None };

    ghost read_faults = { λ s. s.faults };

    ghost write_faults = { λ s. 0 };

    ghost ends = { λ s. s.ends };

    ghost objects = { λ s. [] };
}

impl Source for MemSource {
    ghost use Rattle.std.specs.Prelude.{Some, false};
    ghost use Rattle.std.specs.Io.KnownBytes.{Appends, Consumes};
    ghost use Rattle.ports.specs.Stream.{taken_bytes, IsPiece, EndsAtEnd, CountsEnd, read_fault_count};
    ghost use Rattle.memory_ports.specs.Streams.{fails_next, read_answer};

    /// Takes the next piece, unless this call is one that fails.
    fn read(&mut self, buf: &mut [u8]) -> Taken
        requires { 0 < length buf.old }

        // What each source ensures.
        ensures piece { IsPiece buf.old buf.new result }
        ensures given { Appends (Some self.old.given) (Some self.new.given) (taken_bytes buf.new result) }
        ensures left { Consumes (Some self.old.left) (Some self.new.left) (taken_bytes buf.new result) }
        ensures end { EndsAtEnd (Some self.new.left) result }
        ensures read_faults { RoseBy (read_fault_count result) self.old.faults self.new.faults }
        ensures ends { CountsEnd result self.old.ends self.new.ends }

        // Which answer it is, and that a failing call alone counts a fault, and one.
        ensures answer { result ≡ read_answer (fails_next self.old.plan) self.old.left self.old.piece (length buf.old) }
        ensures plan { self.new.plan ≡ drop 1 self.old.plan }
        ensures same_pieces { self.new.piece ≡ self.old.piece }
        ensures count { self.new.faults ≡ count_after (read_fault_count result) self.old.faults }
    {
        if self.plan.fails_now() {
            self.faults = count_up(self.faults);
            return Taken::Failed;
        }
        let n = self.piece_length(buf.len());
        if n == 0 {
            self.ends = count_up(self.ends);
            return Taken::End;
        }
        self.give(n, buf);
        Taken::Got(n)
    }
}

/// A sink that keeps what is written and tells it. It takes so many bytes in all, and fails before the next.
#[derive(Drop)]
pub struct MemSink {
    bytes: Vec<u8>,
    limit: usize,
    faults: u64,
}

impl Model for MemSink {
    ghost use Rattle.std.specs.Prelude.{◌≤◌, vec_len, vec_capacity};
    ghost use Rattle.memory_ports.specs.Streams.{SinkState};

    ghost Value = { SinkState };

    ghost view = { λ s. record { bytes = s.bytes.items; limit = s.limit; faults = s.faults } };

    ghost invariant = { λ s. (vec_len s.bytes ≤ s.limit) × (s.limit ≤ vec_capacity s.bytes) };
}

impl MemSink {
    /// An empty sink that takes `limit` bytes. It takes the memory for them at once, so that a write needs none.
    pub fn new(alloc: Global, limit: usize) -> Result<MemSink, NoMemory>
        ensures { IfOk result (λ sink. sink ≡ record { bytes = []; limit = limit; faults = 0 }) }
    {
        match Vec::with_capacity(alloc, limit) {
            Ok(bytes) => Ok(MemSink {
                bytes,
                limit,
                faults: 0,
            }),
            Err(_) => Err(NoMemory),
        }
    }

    /// The bytes that were written.
    pub fn bytes(&self) -> &[u8]
        ensures { result.now ≡ self.now.bytes }
    {
        self.bytes.as_slice()
    }

    // Keeps the bytes that there is room for, and says how many.
    fn keep(&mut self, bytes: &[u8]) -> usize
        ensures length { result ≡ min (length bytes.now) (self.old.limit - length self.old.bytes) }
        ensures bytes { self.new.bytes ≡ self.old.bytes ++ take result bytes.now }
        ensures limit { self.new.limit ≡ self.old.limit }
        ensures faults { self.new.faults ≡ self.old.faults }
    {
        let n = bytes.len().min(self.limit - self.bytes.len());
        match self.bytes.extend_from_slice(&bytes[..n]) {
            Ok(()) => n,
            Err(_) => unreachable!(),
        }
    }
}

impl Ends for MemSink {
    ghost use Rattle.std.specs.Prelude.{Some, None, []};

    ghost given = { λ s. None };

    ghost left = { λ s. None };

    ghost written = { λ s. Some s.bytes };

    ghost read_faults = { λ s. 0 };

    ghost write_faults = { λ s. s.faults };

    ghost ends = { λ s. 0 };

    ghost objects = { λ s. [] };
}

impl Sink for MemSink {
    ghost use Rattle.std.specs.Prelude.{Some};
    ghost use Rattle.std.specs.Io.KnownBytes.{Appends};
    ghost use Rattle.ports.specs.Stream.{appended_bytes, LeavesOut, write_fault_count};
    ghost use Rattle.memory_ports.specs.Streams.{write_answer};

    /// Keeps the bytes, and fails before the first for which there is no room.
    fn write(&mut self, bytes: &[u8]) -> Written
        // What each sink ensures.
        ensures part { LeavesOut bytes.now result }
        ensures written { Appends (Some self.old.bytes) (Some self.new.bytes) (appended_bytes bytes.now result) }
        ensures write_faults { RoseBy (write_fault_count result) self.old.faults self.new.faults }

        // Which answer it is, and that missing room alone counts a fault, and one.
        ensures answer { result ≡ write_answer (length bytes.now) (self.old.limit - length self.old.bytes) }
        ensures limit { self.new.limit ≡ self.old.limit }
        ensures count { self.new.faults ≡ count_after (write_fault_count result) self.old.faults }
    {
        let n = self.keep(bytes);
        if n == bytes.len() {
            return Written::Whole;
        }
        self.faults = count_up(self.faults);
        Written::Failed(n)
    }
}
