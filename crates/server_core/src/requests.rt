// Requests to a session, in a dialect.
ghost use Rattle.std.specs.Prelude.{◌≡◌, ◌≤◌, []};
ghost use Rattle.faults.specs.Counts.{RoseBy};
ghost use Rattle.blob_model.specs.History.{AllOther};
ghost use Rattle.request_form.specs.Stream.{IsWellHeard};
ghost use Rattle.request_form.specs.Transcript.{is_quit, ItemReply, item_faults};
ghost use Rattle.server_core.specs.Served.{Served, end_read_faults, end_write_faults, end_ends};

use crate::conversation::Conversation;
use crate::flow::End;
use crate::serve::converse;
use items::Ending;
use ports::stream::{Sink, Source};
use request_form::{Dialect, Heard, NoMemory, Reply, Request, Said, Service};
use std::alloc::Global;
use std::sync::Wait;
use std::thread::Threads;

// A session's service, and the dialect in which it is asked.
#[derive(Drop)]
struct Requests<'a, V, T> {
    service: &'a mut V,
    dialect: &'a mut T,
}

fn is_quit_request(request: &Request) -> bool
    ensures { result ≡ is_quit request.now }
{
    matches!(request, Request::Quit)
}

// The reply to one item.
fn reply_to<R: Wait + Threads + Sync, V: Service>(rt: &R, service: &mut V, heard: Heard) -> Reply
    requires { IsWellHeard heard }
    ensures answer { ItemReply AllOther (V.session service.old) heard result (V.session service.new) }
    ensures faults { RoseBy (item_faults (V.session service.new) heard result) (V.faults service.old) (V.faults service.new) }
    ensures kept { V.kept service.new ≡ V.kept service.old }
{
    match heard {
        Heard::Asked(request) => {
            if is_quit_request(&request) {
                return Reply::Bye;
            }
            service.answer(rt, request)
        }
        Heard::Wrong(fault) => Reply::Refused(fault),
    }
}

impl<'a, V: Service, T: Dialect> Conversation for Requests<'a, V, T> {
    ghost use Rattle.std.specs.Prelude.{ℕ, List, ◌∷◌, []};
    ghost use base.Fml.{GName};
    ghost use Rattle.server_core.specs.Progress.{requests};

    type Item = Heard;

    ghost talk = { requests T.said };

    ghost reads = { λ r. T.reads r.dialect.now };

    ghost session = { λ r. V.session r.service.now };

    ghost faults = { λ r. V.faults r.service.now };

    ghost Kept = { V.Kept × List GName };

    ghost kept = { λ r. (V.kept r.service.now, r.service.ghost_name ∷ r.dialect.ghost_name ∷ []) };

    fn feed(&mut self, piece: &[u8]) -> Result<(), NoMemory> {
        self.dialect.feed(piece)
    }

    fn next(&mut self) -> Result<Option<Heard>, NoMemory> {
        self.dialect.next()
    }

    fn end(&mut self) -> Result<Ending<Heard>, NoMemory> {
        self.dialect.end()
    }

    fn is_last(item: &Heard) -> bool {
        match item {
            Heard::Asked(request) => is_quit_request(request),
            Heard::Wrong(_) => false,
        }
    }

    fn answer<R: Wait + Threads + Sync>(&mut self, rt: &R, item: Heard) -> Result<Said, NoMemory> {
        let reply = reply_to(rt, self.service, item);
        self.dialect.say_in_parts(reply)
    }
}

/// Answers the requests of one stream until it ends, takes at most `limit` bytes, and says how it ended.
///
/// A read takes up to 65,536 bytes. Replies are gathered: they are written whenever 131,072 bytes come together, and
/// at the latest before the next read and before it answers. A longer one is written by itself, and the body of a reply from
/// where it lies. After want of memory the dialect isn't used again.
pub fn serve_stream<R: Wait + Threads + Sync, V: Service, T: Dialect, I: Source + Sink>(
    rt: &R,
    alloc: Global,
    service: &mut V,
    dialect: &mut T,
    io: &mut I,
    limit: u64,
) -> End
    requires some { 1 ≤ limit }
    requires fresh { (T.reads dialect.old []).whole ≡ [] }
    ensures served { Served T.said
        (record { session = V.session service.old; faults = V.faults service.old; written = I.written io.old })
        (T.reads dialect.old)
        (record { given = I.given io.old; left = I.left io.old; ends = I.ends io.old })
        (record { given = I.given io.new; left = I.left io.new; ends = I.ends io.new })
        limit
        (record { session = V.session service.new; faults = V.faults service.new; written = I.written io.new })
        result }
    ensures read_faults { RoseBy (end_read_faults result) (I.read_faults io.old) (I.read_faults io.new) }
    ensures write_faults { RoseBy (end_write_faults result) (I.write_faults io.old) (I.write_faults io.new) }
    ensures ends { RoseBy (end_ends result) (I.ends io.old) (I.ends io.new) }
    ensures objects { I.objects io.new ≡ I.objects io.old }
    ensures kept { V.kept service.new ≡ V.kept service.old }
{
    let mut requests = Requests { service, dialect };
    converse(rt, alloc, &mut requests, io, limit)
}
