//! A link to a node: frames that are written, and replies that are read.
ghost use Rattle.std.specs.Prelude.{◌≡◌, ℕ, ◌+◌, ◌-◌, ◌<◌, ◌≤◌, [], ◌∷◌, ◌++◌, length, take, drop, true, false};
ghost use Rattle.items.specs.BegunFrame.{frame_part};
ghost use Rattle.frame_wire.specs.Said.{field};
ghost use Rattle.ports.specs.Stream.{IsPiece};
ghost use Rattle.page_node.specs.Grammar.{IsOutside, is_refusal, may_have};
ghost use Rattle.node_door.specs.Link.{Sends, TakesAt, Fills, Compares, Tells, Hears, Exchanges};

use byteorder::{BigEndian, ByteOrder};
use page_node::{MAX_FRAME, number_at};
use ports::stream::{Sink, Source, Taken, Written};
use std::marker::Model;

/// What a link gave in reply.
#[derive(Clone, Copy, Debug, PartialEq, Eq)]
pub(crate) enum Exchanged {
    /// The page is kept under that id.
    Kept(u64),
    /// The wanted bytes.
    Same,
    /// The node found no memory.
    NoMemory,
    /// Another reply.
    Other,
    /// None: the link failed or ended, or gave no reply of a node.
    Broken,
}

/// A stream to a node and back. Contracts see where it stands.
#[derive(Drop)]
pub(crate) struct Wire<I: Source + Sink> {
    io: I,
}

impl<I: Source + Sink> Model for Wire<I> {
    ghost use Rattle.node_door.specs.Link.{LinkAt};

    ghost Value = { LinkAt };

    ghost view = { λ w. record {
      given = I.given w.io;
      left = I.left w.io;
      written = I.written w.io;
      read_faults = I.read_faults w.io;
      write_faults = I.write_faults w.io;
      ends = I.ends w.io;
    } };
}

impl<I: Source + Sink> Wire<I> {
    /// The stream as a link.
    pub(crate) fn new(io: I) -> Wire<I>
        ensures { result ≡ record {
          given = I.given io;
          left = I.left io;
          written = I.written io;
          read_faults = I.read_faults io;
          write_faults = I.write_faults io;
          ends = I.ends io;
        } }
    {
        Wire { io }
    }

    /// The stream.
    pub(crate) fn into_io(self) -> I
        ensures { self ≡ record {
          given = I.given result;
          left = I.left result;
          written = I.written result;
          read_faults = I.read_faults result;
          write_faults = I.write_faults result;
          ends = I.ends result;
        } }
    {
        self.io
    }

    // Writes some bytes, and answers whether all of them were written.
    fn write(&mut self, bytes: &[u8]) -> bool
        ensures { Sends bytes.now self.old self.new result }
    {
        match self.io.write(bytes) {
            Written::Whole => true,
            Written::Failed(_) => false,
        }
    }

    // Writes a frame in two parts, and answers whether all of it was written.
    fn send(&mut self, front: &[u8], bytes: &[u8]) -> bool
        ensures { Sends (front.now ++ bytes.now) self.old self.new result }
    {
        if !self.write(front) {
            return false;
        }
        self.write(bytes)
    }

    // Takes bytes into a buffer from a place on, and says how many, or none where the link failed or ended.
    fn take_at(&mut self, buf: &mut [u8], at: usize) -> Option<usize>
        requires { at < length buf.old }
        ensures length { length buf.new ≡ length buf.old }
        ensures takes { TakesAt buf.old at buf.new self.old self.new result }
    {
        let rest = &mut buf[at..];
        match self.io.read(rest) {
            Taken::Got(n) => Some(n),
            Taken::End | Taken::Failed => None,
        }
    }

    // Fills a buffer, and answers whether the link gave so many bytes.
    fn fill(&mut self, buf: &mut [u8]) -> bool
        ensures length { length buf.new ≡ length buf.old }
        ensures fills { Fills buf.new self.old self.new result }
    {
        let mut at = 0;
        'pieces: while at < buf.len() {
            match self.take_at(buf, at) {
                Some(n) => at += n,
                None => return false,
            }
        }
        true
    }

    // Fills the front of a buffer.
    fn fill_front(&mut self, buf: &mut [u8], count: usize) -> bool
        requires { count ≤ length buf.old }
        ensures length { length buf.new ≡ length buf.old }
        ensures fills { Fills (take count buf.new) self.old self.new result }
    {
        let front = &mut buf[..count];
        self.fill(front)
    }

    // Takes `count` bytes, in pieces as long as the room, and answers whether they are those that are wanted, or none where the
    // link failed or ended.
    fn compare(&mut self, room: &mut [u8], count: usize, want: &[u8]) -> Option<bool>
        requires { 0 < length room.old }
        ensures length { length room.new ≡ length room.old }
        ensures compares { Compares count want.now self.old self.new result }
    {
        let mut same = count == want.len();
        let mut at = 0;
        'pieces: while at < count {
            let n = room.len().min(count - at);
            if !self.fill_front(room, n) {
                return None;
            }
            same = goes_on_same(same, room, n, want, at);
            at += n;
        }
        Some(same)
    }

    // Takes the given bytes of a reply.
    fn read_given(&mut self, room: &mut [u8], count: u32, want: &[u8]) -> Exchanged
        requires room { 0 < length room.old }
        requires few { count < 2097152 }
        ensures length { length room.new ≡ length room.old }
        ensures hears { Hears want.now (frame_part (1 + count) (161 ∷ [])) self.old self.new result }
    {
        let Some(same) = self.compare(room, count as usize, want) else {
            return Exchanged::Broken;
        };
        if same {
            return Exchanged::Same;
        }
        Exchanged::Other
    }

    // Takes the fields of a reply that gives no bytes.
    fn read_fields(&mut self, operation: u8, count: u32, want: &[u8]) -> Exchanged
        requires have { may_have operation count ≡ true }
        requires other { operation ≡ 161 → ⊥ }
        ensures hears { Hears want.now (frame_part (1 + count) (operation ∷ [])) self.old self.new result }
    {
        let mut fields = [0u8; 32];
        let count = count as usize;
        if !self.fill_front(&mut fields, count) {
            return Exchanged::Broken;
        }
        told(operation, &fields[..count], want)
    }

    // Reads one reply.
    fn read_reply(&mut self, room: &mut [u8], want: &[u8]) -> Exchanged
        requires { 0 < length room.old }
        ensures length { length room.new ≡ length room.old }
        ensures hears { Hears want.now [] self.old self.new result }
    {
        let mut head = [0u8; 5];
        if !self.fill(&mut head) {
            return Exchanged::Broken;
        }
        let (length, operation) = head_of(&head);
        if !begins_reply(length, operation) {
            return Exchanged::Broken;
        }
        let count = length - 1;
        if operation == 161 {
            self.read_given(room, count, want)
        } else {
            self.read_fields(operation, count, want)
        }
    }

    /// Writes a frame in two parts, and reads the reply to it.
    pub(crate) fn exchange(
        &mut self,
        room: &mut [u8],
        front: &[u8],
        bytes: &[u8],
        want: &[u8],
    ) -> Exchanged
        requires { 0 < length room.old }
        ensures length { length room.new ≡ length room.old }
        ensures exchanges { Exchanges (front.now ++ bytes.now) want.now self.old self.new result }
    {
        if !self.send(front, bytes) {
            return Exchanged::Broken;
        }
        self.read_reply(room, want)
    }
}

// Whether what came so far was the same, and the first n bytes of the room are the wanted ones from a place on.
fn goes_on_same(same: bool, room: &[u8], n: usize, want: &[u8], at: usize) -> bool
    requires room { n ≤ length room.now }
    requires want { same ≡ true → at + n ≤ length want.now }
    ensures same { result ≡ true → (same ≡ true) × (take n room.now ≡ take n (drop at want.now)) }
    ensures other { result ≡ false → same ≡ true → (take n room.now ≡ take n (drop at want.now)) → ⊥ }
{
    if !same {
        return false;
    }
    room[..n] == want[at..at + n]
}

// The number that 4 bytes make.
fn short_number(bytes: &[u8]) -> u32
    requires { length bytes.now ≡ 4 }
    ensures { frame_part result [] ≡ bytes.now }
{
    BigEndian::read_u32(bytes)
}

// A frame's length and its operation.
fn head_of(head: &[u8]) -> (u32, u8)
    requires { length head.now ≡ 5 }
    ensures { head.now ≡ frame_part result.0 (result.1 ∷ []) }
{
    (short_number(&head[..4]), head[4])
}

// The number that 8 bytes make.
fn number(bytes: &[u8]) -> u64
    requires { length bytes.now ≡ 8 }
    ensures { field result ≡ bytes.now }
{
    BigEndian::read_u64(bytes)
}

// Whether a reply of that operation may have so many bytes behind it.
fn may_have(operation: u8, count: u32) -> bool
    ensures { result ≡ may_have operation count }
{
    match operation {
        160 => count == 8,
        161 => true,
        141 => count == 0,
        255 => count == 8 || count == 16 || count == 32,
        _ => false,
    }
}

// Whether a reply may begin so.
fn begins_reply(length: u32, operation: u8) -> bool
    ensures some { result ≡ true → 0 < length }
    ensures few { result ≡ true → length ≤ 2097152 }
    ensures have { result ≡ true → may_have operation (length - 1) ≡ true }
    ensures outside { result ≡ false → IsOutside (frame_part length (operation ∷ [])) }
{
    if length == 0 {
        return false;
    }
    if length > MAX_FRAME {
        return false;
    }
    may_have(operation, length - 1)
}

// Whether a refusal has that number, whose fields are so many bytes with it.
fn is_refusal(number: u64, count: usize) -> bool
    ensures { result ≡ is_refusal number count }
{
    match count {
        8 => number == 9 || number == 10 || number == 19,
        16 => number == 11 || number == 18 || number == 23,
        32 => number == 24,
        _ => false,
    }
}

// What a refusal tells.
fn refusal(fields: &[u8], want: &[u8]) -> Exchanged
    requires { length fields.now ≤ 32 }
    ensures { Tells want.now (frame_part (1 + length fields.now) (255 ∷ fields.now)) result }
{
    if fields.len() < 8 {
        return Exchanged::Broken;
    }
    let number = number_at(fields, 0);
    if !is_refusal(number, fields.len()) {
        return Exchanged::Broken;
    }
    if number == 9 {
        Exchanged::NoMemory
    } else {
        Exchanged::Other
    }
}

// What a reply tells that gives no bytes.
fn told(operation: u8, fields: &[u8], want: &[u8]) -> Exchanged
    requires few { length fields.now ≤ 32 }
    requires other { operation ≡ 161 → ⊥ }
    ensures { Tells want.now (frame_part (1 + length fields.now) (operation ∷ fields.now)) result }
{
    if operation == 160 && fields.len() == 8 {
        return Exchanged::Kept(number(fields));
    }
    if operation == 141 && fields.is_empty() {
        return Exchanged::Other;
    }
    if operation == 255 {
        return refusal(fields, want);
    }
    Exchanged::Broken
}
