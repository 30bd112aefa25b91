//! A link in memory, with a node at its other end.
ghost use Rattle.std.specs.Prelude.{◌≡◌, ℕ, ◌+◌, ◌-◌, ◌<◌, ◌≤◌, List, [], ◌++◌, length, take, drop, true, false, IfOk, vec_len, vec_capacity};
ghost use Rattle.items.specs.Framing.{length_of, item_of, is_whole};
ghost use Rattle.frame_wire.specs.Requests.{number_at};
ghost use Rattle.page_node.specs.declared.form.NodeRequest.TheVariants as Requests;
ghost use Rattle.page_node.specs.declared.form.NodeHeard.TheVariants.{Asked};
ghost use Rattle.page_node.specs.declared.form.NodeReply.TheVariants as Replies;
ghost use Rattle.page_node.specs.declared.form.NodeReply.{NodeReply};
ghost use Rattle.page_node.specs.Node.{is_quit, put_reply, NodeAnswers};
ghost use Rattle.page_node.specs.Frames.{node_frames, heard};
ghost use Rattle.page_node.specs.Said.{said};
ghost use Rattle.page_node.specs.Transcript.{NodeTranscript};
ghost use Rattle.node_door.specs.Loop.{Replied, TakesFront, Loops, NextTaken, IsBehind, StopsAt, FailsAt, new_node};
ghost use Rattle.faults.specs.Counts.{RoseBy, count_after};

use byteorder::{BigEndian, ByteOrder};
use faults::{NoMemory, count_up};
use page_node::saying::{Head, bye_frame, fault_frame, given_front, kept_frame, memory_frame};
use page_node::{MAX_FRAME, NodeFault, Shelf, number_at};
use ports::stream::{Ends, Sink, Source, Taken, Written};
use std::alloc::Global;
use std::marker::Model;

// Adds bytes for which there is room.
fn extend(replies: &mut Vec<u8>, bytes: &[u8])
    requires { vec_len replies.old + length bytes.now ≤ vec_capacity replies.old }
    ensures items { replies.new.items ≡ replies.old.items ++ bytes.now }
    ensures room { vec_capacity replies.old ≤ vec_capacity replies.new }
{
    match replies.extend_from_slice(bytes) {
        Ok(()) => {}
        Err(_) => unreachable!(),
    }
}

// Adds a reply, if it fits.
fn add(replies: &mut Vec<u8>, room: usize, front: &[u8], bytes: &[u8]) -> bool
    requires few { vec_len replies.old ≤ room }
    requires room { room ≤ vec_capacity replies.old }
    ensures done { result ≡ true → replies.new.items ≡ replies.old.items ++ (front.now ++ bytes.now) }
    ensures not { result ≡ false → (replies.new.items ≡ replies.old.items) × (room < length replies.old.items + length (front.now ++ bytes.now)) }
    ensures few { vec_len replies.new ≤ room }
    ensures room { room ≤ vec_capacity replies.new }
{
    let left = room - replies.len();
    if front.len() > left {
        return false;
    }
    if bytes.len() > left - front.len() {
        return false;
    }
    extend(replies, front);
    extend(replies, bytes);
    true
}

// Adds a refusal, if it fits.
fn refuse(replies: &mut Vec<u8>, room: usize, fault: NodeFault) -> bool
    requires few { vec_len replies.old ≤ room }
    requires room { room ≤ vec_capacity replies.old }
    ensures done { result ≡ true → replies.new.items ≡ replies.old.items ++ said (Replies.Refused fault) }
    ensures not { result ≡ false → (replies.new.items ≡ replies.old.items) × (room < length replies.old.items + length (said (Replies.Refused fault))) }
    ensures few { vec_len replies.new ≤ room }
    ensures room { room ≤ vec_capacity replies.new }
{
    add(replies, room, fault_frame(&fault).as_slice(), &[])
}

// Keeps a page whose put isn't refused, and says how the reply is framed.
fn keep(shelf: &mut Shelf, bytes: &[u8], id: u64) -> Head
    requires { put_reply shelf.old bytes.now ≡ Replies.Kept id }
    ensures kept { (reply : NodeReply) × NodeAnswers shelf.old (Asked (Requests.Put bytes.now)) reply shelf.new × (result.items ≡ said reply) }
    ensures length { length result.items ≡ 13 }
{
    match shelf.put_copy(bytes) {
        Ok(_) => kept_frame(id),
        Err(_) => memory_frame(),
    }
}

// Adds the reply to a put, and keeps the page, if the reply fits.
fn put(shelf: &mut Shelf, replies: &mut Vec<u8>, room: usize, bytes: &[u8]) -> bool
    requires few { vec_len replies.old ≤ room }
    requires room { room ≤ vec_capacity replies.old }
    ensures replied { Replied (Asked (Requests.Put bytes.now)) room shelf.old replies.old.items shelf.new replies.new.items result }
    ensures few { vec_len replies.new ≤ room }
    ensures room { room ≤ vec_capacity replies.new }
{
    let id = match shelf.next_id(bytes.len()) {
        Ok(id) => id,
        Err(fault) => return refuse(replies, room, fault),
    };
    if kept_frame(id).len() > room - replies.len() {
        return false;
    }
    let front = keep(shelf, bytes, id);
    extend(replies, front.as_slice());
    true
}

// Adds the reply to a get, if it fits.
fn get(shelf: &Shelf, replies: &mut Vec<u8>, room: usize, fields: &[u8]) -> bool
    requires few { vec_len replies.old ≤ room }
    requires room { room ≤ vec_capacity replies.old }
    requires fields { length fields.now ≡ 24 }
    ensures replied { Replied (Asked (Requests.Get (number_at 0 fields.now) (number_at 8 fields.now) (number_at 16 fields.now))) room shelf.now replies.old.items shelf.now replies.new.items result }
    ensures few { vec_len replies.new ≤ room }
    ensures room { room ≤ vec_capacity replies.new }
{
    let id = number_at(fields, 0);
    let from = number_at(fields, 8);
    let length = number_at(fields, 16);
    match shelf.get(id, from, length) {
        Ok(bytes) => {
            let front = given_front(bytes.len() as u32);
            add(replies, room, front.as_slice(), bytes)
        }
        Err(fault) => refuse(replies, room, fault),
    }
}

// Adds the reply to a whole frame, if it fits.
fn reply(shelf: &mut Shelf, replies: &mut Vec<u8>, room: usize, frame: &[u8]) -> bool
    requires whole { is_whole frame.now ≡ true }
    requires few { vec_len replies.old ≤ room }
    requires room { room ≤ vec_capacity replies.old }
    ensures replied { Replied (item_of node_frames frame.now) room shelf.old replies.old.items shelf.new replies.new.items result }
    ensures few { vec_len replies.new ≤ room }
    ensures room { room ≤ vec_capacity replies.new }
{
    let count = length_of(frame);
    if count > MAX_FRAME {
        let length = u64::from(count);
        return refuse(replies, room, NodeFault::FrameTooLong { length });
    }
    if frame.len() == 4 {
        return refuse(replies, room, NodeFault::BadFrame);
    }
    let operation = frame[4];
    let fields = &frame[5..];
    if operation == 32 {
        return put(shelf, replies, room, fields);
    }
    if operation == 33 && fields.len() == 24 {
        return get(shelf, replies, room, fields);
    }
    if operation == 13 && fields.is_empty() {
        return add(replies, room, bye_frame().as_slice(), &[]);
    }
    refuse(replies, room, NodeFault::BadFrame)
}

// Whether a whole frame is a quit.
fn is_quit(frame: &[u8]) -> bool
    requires { is_whole frame.now ≡ true }
    ensures { result ≡ is_quit (item_of node_frames frame.now) }
{
    if frame.len() != 5 {
        return false;
    }
    frame[4] == 13
}

// The number that a frame begins with.
fn length_of(frame: &[u8]) -> u32
    requires { 4 ≤ length frame.now }
    ensures { result ≡ length_of frame.now }
{
    BigEndian::read_u32(frame)
}

// The bytes from a place on.
fn behind(bytes: &Vec<u8>, start: usize) -> &[u8]
    requires { start ≤ length bytes.now.items }
    ensures { result.now ≡ drop start bytes.now.items }
{
    &bytes.as_slice()[start..]
}

// Whether the bytes are a whole frame.
fn is_whole(frame: &[u8]) -> bool
    ensures { result ≡ is_whole frame.now }
{
    if frame.len() < 4 {
        return false;
    }
    frame.len() - 4 == length_of(frame) as usize
}

// How many bytes the length of a frame or the frame lacks.
fn lacks(begun: &[u8]) -> usize
    requires { 4 ≤ length begun.now → length begun.now ≤ 4 + length_of begun.now }
    ensures short { length begun.now < 4 → length begun.now + result ≡ 4 }
    ensures long { 4 ≤ length begun.now → length begun.now + result ≡ 4 + length_of begun.now }
{
    if begun.len() < 4 {
        return 4 - begun.len();
    }
    4 + length_of(begun) as usize - begun.len()
}

/// The node at the other end of a link in memory: its shelf, the bytes that were written to it, and the bytes of its replies. Contracts
/// see these, and for how many bytes of each there is room.
#[derive(Drop)]
struct FarEnd {
    shelf: Shelf,
    written: Vec<u8>,
    // Where the frame begins that isn't whole.
    start: usize,
    replies: Vec<u8>,
    room: usize,
    // Whether a quit was answered.
    quit: bool,
}

impl Model for FarEnd {
    ghost use Rattle.node_door.specs.Loop.{FarAt};

    ghost Value = { FarAt };

    ghost use Rattle.node_door.specs.FarKeeps.{FarKeeps};

    ghost view = { λ f. record { node = f.shelf; written = f.written.items; replies = f.replies.items; room = f.room } };

    ghost invariant = { FarKeeps };
}

impl FarEnd {
    // A node with an empty shelf, with room for so many bytes of each kind.
    fn new(alloc: Global, shelf: Shelf, room: usize) -> Result<FarEnd, NoMemory>
        requires { shelf.pages ≡ [] }
        ensures { IfOk result (λ far. far ≡ record { node = shelf; written = []; replies = []; room = room }) }
    {
        Ok(FarEnd {
            shelf,
            written: Vec::with_capacity(alloc, room)?,
            start: 0,
            replies: Vec::with_capacity(alloc, room)?,
            room,
            quit: false,
        })
    }

    // The bytes of its replies.
    fn replies(&self) -> &[u8]
        ensures { result.now ≡ self.now.replies }
    {
        self.replies.as_slice()
    }

    // The replies are the node's transcript of the frames. For proofs: it does nothing.
    fn stands(&self)
        ensures { NodeTranscript (new_node self.now.node.page_size) (heard self.now.written).whole self.now.replies self.now.node }
    {
        let _start = self.start;
    }

    // Takes bytes of one frame off the front of those that are written, and says how many, or none where they or the reply don't
    // fit.
    fn take_part(&mut self, bytes: &[u8]) -> Option<usize>
        requires { 0 < length bytes.now }
        ensures { TakesFront self.old bytes.now self.new result }
    {
        let lacking = lacks(behind(&self.written, self.start));
        let n = lacking.min(bytes.len());
        let before = self.written.len();
        if n > self.room - before {
            return None;
        }
        extend(&mut self.written, &bytes[..n]);
        if !is_whole(behind(&self.written, self.start)) {
            return Some(n);
        }
        if self.quit {
            self.start = self.written.len();
            return Some(n);
        }
        let frame = behind(&self.written, self.start);
        if !reply(&mut self.shelf, &mut self.replies, self.room, frame) {
            self.written.truncate(before);
            return None;
        }
        self.quit = is_quit(frame);
        self.start = self.written.len();
        Some(n)
    }
}

/// A source and a sink in memory with a node at the other end: it answers each frame that is written to it.
///
/// It keeps all bytes that were written to it and all bytes of its replies, as many of each as it has room for. A write fails
/// before the first byte that comes before the last reply was read to its end, and where bytes or the reply to them don't fit.
/// A read ends where no reply is left, and goes on where a later write brings one. Room and page size stay as they were made.
#[derive(Drop)]
pub struct LoopLink {
    far: FarEnd,
    // How many bytes of the replies were given.
    at: usize,
    faults: u64,
    ends: u64,
}

impl Model for LoopLink {
    ghost use Rattle.std.specs.Prelude.{◌≤◌, length, take, drop};
    ghost use Rattle.node_door.specs.Loop.{LoopAt};

    ghost Value = { LoopAt };

    ghost view = { λ l. record {
      node = l.far.node;
      written = l.far.written;
      given = take l.at l.far.replies;
      left = drop l.at l.far.replies;
      room = l.far.room;
      faults = l.faults;
      ends = l.ends;
    } };

    ghost invariant = { λ l. l.at ≤ length l.far.replies };
}

impl LoopLink {
    /// A link to a shelf without pages, with room for so many bytes that are written and for as many of replies.
    pub fn new(alloc: Global, shelf: Shelf, room: usize) -> Result<LoopLink, NoMemory>
        requires { shelf.pages ≡ [] }
        ensures { IfOk result (λ link. link ≡ record { node = shelf; written = []; given = []; left = []; room = room; faults = 0; ends = 0 }) }
    {
        Ok(LoopLink {
            far: FarEnd::new(alloc, shelf, room)?,
            at: 0,
            faults: 0,
            ends: 0,
        })
    }

    /// How many writes failed, up to the greatest u64.
    pub fn faults(&self) -> u64
        ensures { result ≡ self.now.faults }
    {
        self.faults
    }

    // Takes bytes of one frame off the front of those that are written, and says how many, or none where the last reply wasn't read to
    // its end, or they or the reply to them don't fit.
    fn take_next(&mut self, bytes: &[u8]) -> Option<usize>
        requires { 0 < length bytes.now }
        ensures { NextTaken self.old bytes.now self.new result }
    {
        if self.at < self.far.replies().len() {
            return None;
        }
        self.far.take_part(bytes)
    }

    // Takes bytes off the front of those that are written, as many as may be before the next reply is read.
    fn take_all(&mut self, bytes: &[u8]) -> usize
        ensures within { result ≤ length bytes.now }
        ensures written { self.new.written ≡ self.old.written ++ take result bytes.now }
        ensures given { self.new.given ≡ self.old.given }
        ensures left { IsBehind self.old.left self.new.left }
        ensures page_size { self.new.node.page_size ≡ self.old.node.page_size }
        ensures room { self.new.room ≡ self.old.room }
        ensures faults { self.new.faults ≡ self.old.faults }
        ensures ends { self.new.ends ≡ self.old.ends }
        ensures stops { result < length bytes.now → StopsAt self.new (drop result bytes.now) }
    {
        let mut taken = 0;
        'parts: while taken < bytes.len() {
            match self.take_next(behind_slice(bytes, taken)) {
                Some(n) => taken += n,
                None => return taken,
            }
        }
        taken
    }

    /// What it gave, and then what is left, are the node's transcript of the whole frames that were written. For proofs: it does
    /// nothing.
    pub fn stands(&self)
        ensures { Loops self.now }
    {
        self.far.stands();
    }
}

// The bytes from a place on.
fn behind_slice(bytes: &[u8], start: usize) -> &[u8]
    requires { start ≤ length bytes.now }
    ensures { result.now ≡ drop start bytes.now }
{
    &bytes[start..]
}

// Puts n bytes of a list to the front of a buffer.
fn copy_front(to: &mut [u8], from: &[u8], at: usize, n: usize)
    requires room { n ≤ length to.old }
    requires here { at + n ≤ length from.now }
    ensures front { take n to.new ≡ take n (drop at from.now) }
    ensures rest { drop n to.new ≡ drop n to.old }
{
    to[..n].copy_from_slice(&from[at..at + n]);
}

impl Ends for LoopLink {
    ghost use Rattle.std.specs.Prelude.{Some, None, []};

    ghost given = { λ l. Some l.given };

    // A write brings replies, and the trait has what is left stay over a write. So `read` and `write` here say what becomes of it.
    ghost left = { λ l. None };

    ghost written = { λ l. Some l.written };

    ghost read_faults = { λ l. 0 };

    ghost write_faults = { λ l. l.faults };

    ghost ends = { λ l. l.ends };

    ghost objects = { λ l. [] };
}

impl Source for LoopLink {
    ghost use Rattle.std.specs.Prelude.{Some};
    ghost use Rattle.std.specs.Io.KnownBytes.{Appends, Consumes};
    ghost use Rattle.ports.specs.Stream.{taken_bytes, IsPiece, EndsAtEnd, CountsEnd, read_fault_count};

    /// Gives bytes of the replies that are left, as many as the buffer takes, and takes them off. It answers the end only where
    /// none is left.
    fn read(&mut self, buf: &mut [u8]) -> Taken
        requires { 0 < length buf.old }

        // What each source ensures.
        ensures piece { IsPiece buf.old buf.new result }
        ensures given { Appends (Some self.old.given) (Some self.new.given) (taken_bytes buf.new result) }
        ensures read_faults { RoseBy (read_fault_count result) 0 0 }
        ensures ends { CountsEnd result self.old.ends self.new.ends }
        ensures written { Some self.new.written ≡ Some self.old.written }
        ensures write_faults { self.new.faults ≡ self.old.faults }

        // What is left of the replies.
        ensures left { Consumes (Some self.old.left) (Some self.new.left) (taken_bytes buf.new result) }
        ensures end { EndsAtEnd (Some self.new.left) result }

        // The node and the room stay.
        ensures node { self.new.node ≡ self.old.node }
        ensures room { self.new.room ≡ self.old.room }
    {
        let n = buf.len().min(self.far.replies().len() - self.at);
        if n == 0 {
            self.ends = count_up(self.ends);
            return Taken::End;
        }
        copy_front(buf, self.far.replies(), self.at, n);
        self.at += n;
        Taken::Got(n)
    }
}

impl Sink for LoopLink {
    ghost use Rattle.std.specs.Prelude.{Some};
    ghost use Rattle.std.specs.Io.KnownBytes.{Appends};
    ghost use Rattle.ports.specs.Stream.{appended_bytes, LeavesOut, write_fault_count};

    /// Takes the bytes, and answers each frame that they make whole.
    fn write(&mut self, bytes: &[u8]) -> Written
        // What each sink ensures.
        ensures part { LeavesOut bytes.now result }
        ensures written { Appends (Some self.old.written) (Some self.new.written) (appended_bytes bytes.now result) }
        ensures write_faults { RoseBy (write_fault_count result) self.old.faults self.new.faults }
        ensures given { Some self.new.given ≡ Some self.old.given }
        ensures ends { self.new.ends ≡ self.old.ends }

        // That a failing call alone counts a fault, and one.
        ensures count { self.new.faults ≡ count_after (write_fault_count result) self.old.faults }

        // Why it fails.
        ensures fails { FailsAt self.new bytes.now result }

        // What was left is still to be read, before the replies that came.
        ensures left { IsBehind self.old.left self.new.left }

        // The page size and the room stay.
        ensures page_size { self.new.node.page_size ≡ self.old.node.page_size }
        ensures room { self.new.room ≡ self.old.room }
    {
        let n = self.take_all(bytes);
        if n == bytes.len() {
            return Written::Whole;
        }
        self.faults = count_up(self.faults);
        Written::Failed(n)
    }
}
