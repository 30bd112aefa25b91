// A session answers the requests of a stream.
ghost use Rattle.std.specs.Prelude.{◌≡◌, ◌+◌, ◌<◌, length, sum_by};
ghost use denote.Param.Send.{IsSync};
ghost use Rattle.faults.specs.Counts.{RoseBy};
ghost use Rattle.blob_model.specs.History.{AllOther};
ghost use Rattle.request_form.specs.Replies.{fault_count};
ghost use Rattle.request_form.specs.Answers.{Answers, update_faults};
ghost use Rattle.request_form.specs.declared.form.Request.TheVariants as Requests;
ghost use Rattle.client_session.specs.Sessions.{StoreState, session_of};
ghost use Rattle.client_session.specs.TurnCounts.{UpTo};
ghost use Rattle.client_session.specs.Results.{read_reply, contents_reply};
ghost use Rattle.client_session.specs.Updates.{update_request, start_request};

use crate::saying::{
    said_of_branch, said_of_contents, said_of_create, said_of_finish, said_of_read, said_of_repair,
    said_of_start, said_of_update,
};
use crate::session::Session;
use blob_model::{Bytes, Place};
use page_fan::BesideDoor;
use page_store::Door;
use ports::gate::Gate;
use request_form::{Fault, RangeList, Reply, Request, Service};
use std::marker::Brand;
use std::sync::Wait;
use std::sync::ledger::{Blank, Ledger};
use std::thread::Threads;
use tree_geom::Steps;

// A read whose node steps nobody counts.
fn read_uncounted<D: Door, G: Gate, R: Wait, L: Ledger>(
    session: &mut Session<'_, D, G>,
    rt: &R,
    blob: u64,
    version: u64,
    offset: u64,
    count: u64,
    blank: Blank,
) -> Result<Bytes, Fault>
    requires name { blank.name ≡ L.name }
    requires parts { blank.parts ≡ L.parts }
    requires some { 0 < blank.parts }
    ensures answers { Answers AllOther (session_of session.old) (Requests.Read blob version offset count) (read_reply result) (session_of session.new) }
    ensures faults { RoseBy (fault_count (read_reply result)) (sum_by D.faults session.old.doors) (sum_by D.faults session.new.doors) }
    ensures turns { UpTo 1 session.old.turns session.new.turns }
    ensures store { session.new.store ≡ session.old.store }
{
    let mut steps = Steps::<L>::open(blank);
    session.read(rt, blob, version, offset, count, &mut steps)
}

// A read of many ranges whose node steps nobody counts.
fn read_many_uncounted<D: Door, G: Gate, R: Wait, L: Ledger>(
    session: &mut Session<'_, D, G>,
    rt: &R,
    blob: u64,
    version: u64,
    ranges: &RangeList,
    blank: Blank,
) -> Result<Bytes, Fault>
    requires name { blank.name ≡ L.name }
    requires parts { blank.parts ≡ L.parts }
    requires some { 0 < blank.parts }
    ensures answers { Answers AllOther (session_of session.old) (Requests.ReadMany blob version ranges.now) (contents_reply result) (session_of session.new) }
    ensures faults { RoseBy (fault_count (contents_reply result)) (sum_by D.faults session.old.doors) (sum_by D.faults session.new.doors) }
    ensures turns { UpTo 1 session.old.turns session.new.turns }
    ensures store { session.new.store ≡ session.old.store }
{
    let mut steps = Steps::<L>::open(blank);
    session.read_many(rt, blob, version, ranges, &mut steps)
}

impl<'a, D: BesideDoor, G: Gate> Session<'a, D, G> {
    // The reply to an update at that place which is finished at once.
    fn answer_update<R: Threads + Wait + Sync>(
        &mut self,
        rt: &R,
        blob: u64,
        place: Place,
        bytes: Bytes,
    ) -> Reply
        requires sync { IsSync R.row }
        ensures answers { Answers AllOther (session_of self.old) (update_request blob place bytes) result (session_of self.new) }
        ensures faults { RoseBy (update_faults (session_of self.new) blob result) (sum_by D.faults self.old.doors) (sum_by D.faults self.new.doors) }
        ensures turns { UpTo 4 self.old.turns self.new.turns }
        ensures store { self.new.store ≡ self.old.store }
    {
        let done = match place {
            Place::Append => self.append(rt, blob, bytes.as_slice()),
            Place::WriteAt(offset) => self.write(rt, blob, offset, bytes.as_slice()),
        };
        said_of_update(place, done)
    }

    // The reply to an update at that place which is finished later.
    fn begin_at<R: Threads + Wait + Sync>(
        &mut self,
        rt: &R,
        blob: u64,
        place: Place,
        bytes: Bytes,
    ) -> Reply
        requires sync { IsSync R.row }
        ensures answers { Answers AllOther (session_of self.old) (start_request blob place bytes) result (session_of self.new) }
        ensures faults { RoseBy (fault_count result) (sum_by D.faults self.old.doors) (sum_by D.faults self.new.doors) }
        ensures turns { UpTo 2 self.old.turns self.new.turns }
        ensures store { self.new.store ≡ self.old.store }
    {
        said_of_start(place, self.start(rt, blob, place, bytes.as_slice()))
    }

    // The reply to a read.
    fn answer_read<R: Wait>(
        &mut self,
        rt: &R,
        blob: u64,
        version: u64,
        offset: u64,
        count: u64,
    ) -> Reply
        ensures answers { Answers AllOther (session_of self.old) (Requests.Read blob version offset count) result (session_of self.new) }
        ensures faults { RoseBy (fault_count result) (sum_by D.faults self.old.doors) (sum_by D.faults self.new.doors) }
        ensures turns { UpTo 1 self.old.turns self.new.turns }
        ensures store { self.new.store ≡ self.old.store }
    {
        let blank = Blank::new(1);
        said_of_read(read_uncounted::<D, G, R, Brand>(
            self, rt, blob, version, offset, count, blank,
        ))
    }

    // The reply to a read of many ranges.
    fn answer_read_many<R: Wait>(
        &mut self,
        rt: &R,
        blob: u64,
        version: u64,
        ranges: RangeList,
    ) -> Reply
        ensures answers { Answers AllOther (session_of self.old) (Requests.ReadMany blob version ranges) result (session_of self.new) }
        ensures faults { RoseBy (fault_count result) (sum_by D.faults self.old.doors) (sum_by D.faults self.new.doors) }
        ensures turns { UpTo 1 self.old.turns self.new.turns }
        ensures store { self.new.store ≡ self.old.store }
    {
        let blank = Blank::new(1);
        said_of_contents(read_many_uncounted::<D, G, R, Brand>(
            self, rt, blob, version, &ranges, blank,
        ))
    }
}

impl<'a, D: BesideDoor, G: Gate> Service for Session<'a, D, G> {
    ghost session = { λ s. session_of s };

    ghost faults = { λ s. sum_by D.faults s.doors };

    ghost turns = { λ s. s.turns };

    ghost Kept = { StoreState };

    ghost kept = { λ s. s.store };

    fn answer<R: Wait + Threads + Sync>(&mut self, rt: &R, request: Request) -> Reply {
        match request {
            Request::Create => said_of_create(self.create(rt)),
            Request::Append { blob, bytes } => self.answer_update(rt, blob, Place::Append, bytes),
            Request::Write {
                blob,
                offset,
                bytes,
            } => self.answer_update(rt, blob, Place::WriteAt(offset), bytes),
            Request::StartAppend { blob, bytes } => self.begin_at(rt, blob, Place::Append, bytes),
            Request::StartWrite {
                blob,
                offset,
                bytes,
            } => self.begin_at(rt, blob, Place::WriteAt(offset), bytes),
            Request::Finish { ticket } => said_of_finish(self.finish(rt, ticket)),
            Request::Read {
                blob,
                version,
                offset,
                length,
            } => self.answer_read(rt, blob, version, offset, length),
            Request::Recent { blob } => Reply::of(self.recent(rt, blob)),
            Request::Size { blob, version } => Reply::of(self.size(rt, blob, version)),
            Request::Sync { blob, version } => Reply::of(self.sync(rt, blob, version)),
            Request::Status { blob } => Reply::of(self.status(rt, blob)),
            Request::Branch { blob, version } => said_of_branch(self.branch(rt, blob, version)),
            Request::Hello { .. } => Reply::HelloIs {
                version: self.hello(),
            },
            Request::ReadMany {
                blob,
                version,
                ranges,
            } => self.answer_read_many(rt, blob, version, ranges),
            Request::Repair { blob, version } => said_of_repair(self.repair(rt, blob, version)),
            Request::Quit => Reply::Bye,
        }
    }
}
