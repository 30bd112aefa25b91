use crate::conversation::Conversation;
use crate::flow::{End, Flow};
use crate::gather::Gathered;
use items::Ending;
use ports::stream::{Sink, Source, Taken};
use request_form::{NoMemory, Said};
use std::alloc::Global;
use std::sync::Wait;
use std::thread::Threads;

// The most bytes that are asked for at once.
const PIECE: usize = 65536;

ghost use Rattle.std.specs.Prelude.{◌≡◌, ℕ, ◌+◌, ◌<◌, ◌≤◌, List, [], ◌++◌, IfOk, length, take, true, false};
ghost use Rattle.std.specs.Io.KnownBytes.{Appends, Consumes};
ghost use Rattle.faults.specs.Counts.{RoseBy};
ghost use Rattle.ports.specs.Stream.{taken_bytes, IsWithin, EndsAtEnd, CountsEnd, read_fault_count};
ghost use Rattle.server_core.specs.Conversing.{IsAnswered, IsDrained, IsPut, flow_write_faults};
ghost use Rattle.server_core.specs.Conversed.{Conversed, Finished, end_read_faults, end_write_faults, end_ends};

// Writes a reply that was said, or holds it back.
fn put<I: Sink>(said: Result<Said, NoMemory>, gathered: &mut Gathered, io: &mut I) -> Flow
    ensures put { (text : List ℕ) → IfOk said (λ parts. parts.head.items ++ parts.body ≡ text)
        → IsPut gathered.old.bytes.items text (I.written io.old) gathered.new.bytes.items (I.written io.new) result }
    ensures given { I.given io.new ≡ I.given io.old }
    ensures left { I.left io.new ≡ I.left io.old }
    ensures read_faults { I.read_faults io.new ≡ I.read_faults io.old }
    ensures ends { I.ends io.new ≡ I.ends io.old }
    ensures objects { I.objects io.new ≡ I.objects io.old }
    ensures write_faults { RoseBy (flow_write_faults result) (I.write_faults io.old) (I.write_faults io.new) }
{
    match said {
        Err(NoMemory) => Flow::NoMemory,
        Ok(parts) => gathered.put_reply(io, parts.head.as_slice(), parts.body.as_slice()),
    }
}

// Answers one item. The reply is written, or held back.
fn answer_one<R: Wait + Threads + Sync, C: Conversation, I: Source + Sink>(
    rt: &R,
    talk: &mut C,
    gathered: &mut Gathered,
    io: &mut I,
    heard: C::Item,
) -> Flow
    requires { C.talk.IsWell heard }
    ensures answered { IsAnswered C.talk gathered.old.bytes.items
        (record { session = C.session talk.old; faults = C.faults talk.old; written = I.written io.old })
        heard gathered.new.bytes.items
        (record { session = C.session talk.new; faults = C.faults talk.new; written = I.written io.new })
        result }
    ensures reads { C.reads talk.new ≡ C.reads talk.old }
    ensures given { I.given io.new ≡ I.given io.old }
    ensures left { I.left io.new ≡ I.left io.old }
    ensures read_faults { I.read_faults io.new ≡ I.read_faults io.old }
    ensures ends { I.ends io.new ≡ I.ends io.old }
    ensures objects { I.objects io.new ≡ I.objects io.old }
    ensures kept { C.kept talk.new ≡ C.kept talk.old }
    ensures write_faults { RoseBy (flow_write_faults result) (I.write_faults io.old) (I.write_faults io.new) }
{
    let last = C::is_last(&heard);
    let said = talk.answer(rt, heard);
    match put(said, gathered, io) {
        Flow::Goes => {
            if last {
                return Flow::Quits;
            }
            Flow::Goes
        }
        Flow::Quits => unreachable!(),
        Flow::WriteFault => Flow::WriteFault,
        Flow::NoMemory => Flow::NoMemory,
    }
}

// Answers each whole item that there is. Some replies may be held back in the end.
fn drain<R: Wait + Threads + Sync, C: Conversation, I: Source + Sink>(
    rt: &R,
    talk: &mut C,
    gathered: &mut Gathered,
    io: &mut I,
) -> Flow
    requires { gathered.old.bytes.items ≡ [] }
    ensures drained { IsDrained C.talk
        (record { session = C.session talk.old; faults = C.faults talk.old; written = I.written io.old })
        (C.reads talk.old) gathered.new.bytes.items
        (record { session = C.session talk.new; faults = C.faults talk.new; written = I.written io.new })
        (C.reads talk.new)
        result }
    ensures given { I.given io.new ≡ I.given io.old }
    ensures left { I.left io.new ≡ I.left io.old }
    ensures read_faults { I.read_faults io.new ≡ I.read_faults io.old }
    ensures ends { I.ends io.new ≡ I.ends io.old }
    ensures objects { I.objects io.new ≡ I.objects io.old }
    ensures kept { C.kept talk.new ≡ C.kept talk.old }
    ensures write_faults { RoseBy (flow_write_faults result) (I.write_faults io.old) (I.write_faults io.new) }
{
    'items: loop {
        match talk.next() {
            Err(NoMemory) => return Flow::NoMemory,
            Ok(None) => return Flow::Goes,
            Ok(Some(heard)) => match answer_one(rt, talk, gathered, io, heard) {
                Flow::Goes => {}
                Flow::Quits => return Flow::Quits,
                Flow::WriteFault => return Flow::WriteFault,
                Flow::NoMemory => return Flow::NoMemory,
            },
        }
    }
}

// Takes one piece into the front of a slice.
fn take_front<I: Source>(io: &mut I, buf: &mut [u8], room: usize) -> Taken
    requires some { 0 < room }
    requires fits { room ≤ length buf.old }
    ensures within { IsWithin room result }
    ensures given { Appends (I.given io.old) (I.given io.new) (taken_bytes buf.new result) }
    ensures left { Consumes (I.left io.old) (I.left io.new) (taken_bytes buf.new result) }
    ensures at_end { EndsAtEnd (I.left io.new) result }
    ensures room { length buf.new ≡ length buf.old }
    ensures read_faults { RoseBy (read_fault_count result) (I.read_faults io.old) (I.read_faults io.new) }
    ensures ends { CountsEnd result (I.ends io.old) (I.ends io.new) }
    ensures written { I.written io.new ≡ I.written io.old }
    ensures write_faults { I.write_faults io.new ≡ I.write_faults io.old }
    ensures objects { I.objects io.new ≡ I.objects io.old }
{
    let front = &mut buf[..room];
    io.read(front)
}

// Takes one piece into the front of a buffer.
fn take_piece<I: Source>(io: &mut I, buf: &mut Vec<u8>, room: usize) -> Taken
    requires some { 0 < room }
    requires fits { room ≤ length buf.old.items }
    ensures within { IsWithin room result }
    ensures given { Appends (I.given io.old) (I.given io.new) (taken_bytes buf.new.items result) }
    ensures left { Consumes (I.left io.old) (I.left io.new) (taken_bytes buf.new.items result) }
    ensures at_end { EndsAtEnd (I.left io.new) result }
    ensures room { length buf.new.items ≡ length buf.old.items }
    ensures read_faults { RoseBy (read_fault_count result) (I.read_faults io.old) (I.read_faults io.new) }
    ensures ends { CountsEnd result (I.ends io.old) (I.ends io.new) }
    ensures written { I.written io.new ≡ I.written io.old }
    ensures write_faults { I.write_faults io.new ≡ I.write_faults io.old }
    ensures objects { I.objects io.new ≡ I.objects io.old }
{
    let all = buf.as_mut_slice();
    take_front(io, all, room)
}

// The first n bytes.
fn first_of(buf: &Vec<u8>, n: usize) -> &[u8]
    requires { n ≤ length buf.now.items }
    ensures { result.now ≡ take n buf.now.items }
{
    &buf.as_slice()[..n]
}

// Answers one item, and writes the reply.
fn answer_last<R: Wait + Threads + Sync, C: Conversation, I: Source + Sink>(
    rt: &R,
    talk: &mut C,
    gathered: &mut Gathered,
    io: &mut I,
    heard: C::Item,
) -> Flow
    requires heard { C.talk.IsWell heard }
    requires settled { gathered.old.bytes.items ≡ [] }
    ensures answered { IsAnswered C.talk []
        (record { session = C.session talk.old; faults = C.faults talk.old; written = I.written io.old })
        heard []
        (record { session = C.session talk.new; faults = C.faults talk.new; written = I.written io.new })
        result }
    ensures given { I.given io.new ≡ I.given io.old }
    ensures left { I.left io.new ≡ I.left io.old }
    ensures read_faults { I.read_faults io.new ≡ I.read_faults io.old }
    ensures ends { I.ends io.new ≡ I.ends io.old }
    ensures objects { I.objects io.new ≡ I.objects io.old }
    ensures kept { C.kept talk.new ≡ C.kept talk.old }
    ensures write_faults { RoseBy (flow_write_faults result) (I.write_faults io.old) (I.write_faults io.new) }
{
    let flow = answer_one(rt, talk, gathered, io, heard);
    gathered.settle(io, flow)
}

// Answers what the end of the stream leaves.
fn finish<R: Wait + Threads + Sync, C: Conversation, I: Source + Sink>(
    rt: &R,
    talk: &mut C,
    gathered: &mut Gathered,
    io: &mut I,
) -> End
    requires fed { (C.reads talk.old []).whole ≡ [] }
    requires settled { gathered.old.bytes.items ≡ [] }
    ensures finished { Finished C.talk
        (record { session = C.session talk.old; faults = C.faults talk.old; written = I.written io.old })
        (C.reads talk.old [])
        (record { session = C.session talk.new; faults = C.faults talk.new; written = I.written io.new })
        result }
    ensures given { I.given io.new ≡ I.given io.old }
    ensures left { I.left io.new ≡ I.left io.old }
    ensures read_faults { I.read_faults io.new ≡ I.read_faults io.old }
    ensures ends { I.ends io.new ≡ I.ends io.old }
    ensures objects { I.objects io.new ≡ I.objects io.old }
    ensures kept { C.kept talk.new ≡ C.kept talk.old }
    ensures write_faults { RoseBy (end_write_faults result) (I.write_faults io.old) (I.write_faults io.new) }
{
    match talk.end() {
        Err(NoMemory) => End::NoMemory,
        Ok(Ending::Clean) => End::InputEnd,
        Ok(Ending::Cut) => End::Cut,
        Ok(Ending::Last(heard)) => match answer_last(rt, talk, gathered, io, heard) {
            Flow::Goes => End::InputEnd,
            Flow::Quits => End::Quit,
            Flow::WriteFault => End::WriteFault,
            Flow::NoMemory => End::NoMemory,
        },
    }
}

// How much of what may still be taken is asked for at once.
fn room_of(left: u64) -> usize
    requires { 0 < left }
    ensures some { 0 < result }
    ensures within { result ≤ left }
    ensures fits { result ≤ 65536 }
{
    if left < 65536 { left as usize } else { PIECE }
}

// A buffer of n bytes.
fn buffer(alloc: Global, n: usize) -> Result<Vec<u8>, NoMemory>
    ensures { IfOk result (λ buf. length buf.items ≡ n) }
{
    Ok(vec![in alloc; 0u8; n]?)
}

// Answers what one more piece makes whole, and writes the replies.
fn answer_piece<R: Wait + Threads + Sync, C: Conversation, I: Source + Sink>(
    rt: &R,
    talk: &mut C,
    gathered: &mut Gathered,
    io: &mut I,
    piece: &[u8],
) -> Flow
    requires { gathered.old.bytes.items ≡ [] }
    ensures drained { IsDrained C.talk
        (record { session = C.session talk.old; faults = C.faults talk.old; written = I.written io.old })
        (λ more. C.reads talk.old (piece.now ++ more)) []
        (record { session = C.session talk.new; faults = C.faults talk.new; written = I.written io.new })
        (C.reads talk.new)
        result }
    ensures settled { flow_write_faults result ≡ 0 → gathered.new.bytes.items ≡ [] }
    ensures given { I.given io.new ≡ I.given io.old }
    ensures left { I.left io.new ≡ I.left io.old }
    ensures read_faults { I.read_faults io.new ≡ I.read_faults io.old }
    ensures ends { I.ends io.new ≡ I.ends io.old }
    ensures objects { I.objects io.new ≡ I.objects io.old }
    ensures kept { C.kept talk.new ≡ C.kept talk.old }
    ensures write_faults { RoseBy (flow_write_faults result) (I.write_faults io.old) (I.write_faults io.new) }
{
    match talk.feed(piece) {
        Err(NoMemory) => Flow::NoMemory,
        Ok(()) => {
            let flow = drain(rt, talk, gathered, io);
            gathered.settle(io, flow)
        }
    }
}

/// Answers the items of one stream until it ends, takes at most `limit` bytes, and says how it ended.
///
/// A read takes up to 65,536 bytes. Replies are gathered: they are written whenever 131,072 bytes come together, and
/// at the latest before the next read and before it answers. A longer one is written by itself, and the body of a reply from
/// where it lies. After want of memory the conversation isn't used
/// again.
pub fn converse<R: Wait + Threads + Sync, C: Conversation, I: Source + Sink>(
    rt: &R,
    alloc: Global,
    talk: &mut C,
    io: &mut I,
    limit: u64,
) -> End
    requires some { 1 ≤ limit }
    requires fresh { (C.reads talk.old []).whole ≡ [] }
    ensures conversed { Conversed C.talk
        (record { session = C.session talk.old; faults = C.faults talk.old; written = I.written io.old })
        (C.reads talk.old)
        (record { given = I.given io.old; left = I.left io.old; ends = I.ends io.old })
        (record { given = I.given io.new; left = I.left io.new; ends = I.ends io.new })
        limit
        (record { session = C.session talk.new; faults = C.faults talk.new; written = I.written io.new })
        result }
    ensures read_faults { RoseBy (end_read_faults result) (I.read_faults io.old) (I.read_faults io.new) }
    ensures write_faults { RoseBy (end_write_faults result) (I.write_faults io.old) (I.write_faults io.new) }
    ensures ends { RoseBy (end_ends result) (I.ends io.old) (I.ends io.new) }
    ensures objects { I.objects io.new ≡ I.objects io.old }
    ensures kept { C.kept talk.new ≡ C.kept talk.old }
{
    let mut buf = match buffer(alloc, PIECE) {
        Ok(buf) => buf,
        Err(NoMemory) => return End::NoMemory,
    };
    let mut gathered = match Gathered::new(alloc) {
        Ok(gathered) => gathered,
        Err(NoMemory) => return End::NoMemory,
    };
    let mut count = 0u64;
    'pieces: while count < limit {
        let room = room_of(limit - count);
        prove!(gathered.is_empty());
        match take_piece(io, &mut buf, room) {
            Taken::Failed => return End::ReadFault,
            Taken::End => return finish(rt, talk, &mut gathered, io),
            Taken::Got(n) => {
                count += n as u64;
                let piece = first_of(&buf, n);
                match answer_piece(rt, talk, &mut gathered, io, piece) {
                    Flow::Goes => {}
                    Flow::Quits => return End::Quit,
                    Flow::WriteFault => return End::WriteFault,
                    Flow::NoMemory => return End::NoMemory,
                }
            }
        }
    }
    End::InputTooLong
}
