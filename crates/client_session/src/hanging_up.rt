// A session gives up the tickets that it holds.
ghost use Rattle.std.specs.Prelude.{◌≡◌, ◌+◌, ◌*◌, ◌<◌, ◌≤◌, [], ◌∷◌, ℕ, length, List, Bool, false, sum_by, All};
ghost use denote.Param.Send.{IsSync};
ghost use Rattle.faults.specs.Counts.{RoseBy};
ghost use Rattle.blob_model.specs.History.{AllOther};
ghost use Rattle.request_form.specs.Session.{HeldTicket};
ghost use Rattle.request_form.specs.HangUp.{HungUp};
ghost use Rattle.request_form.specs.Replies.{fault_count};
ghost use Rattle.client_session.specs.Results.{finish_reply};
ghost use Rattle.client_session.specs.Sessions.{session_of, Continues};
ghost use Rattle.client_session.specs.TurnCounts.{UpTo};
ghost use Rattle.client_session.specs.Tickets.{Rise, tickets_of};
ghost use Rattle.client_session.specs.HangUp.{GivesUpOne, finished_seen, counts_of, counted, all_counted, tells_hindered};

use crate::done::HangUp;
use crate::limit::UpdateLimit;
use crate::session::Session;
use page_fan::BesideDoor;
use ports::gate::Gate;
use request_form::Fault;
use std::sync::Wait;
use std::thread::Threads;

// Whether a finish was hindered, after which the ticket is still held.
fn is_hindered(finished: &Result<u64, Fault>) -> bool
    ensures { result ≡ tells_hindered (finish_reply finished.now) }
{
    match finished {
        Err(Fault::NoMemory) | Err(Fault::Pending { .. }) | Err(Fault::PageFault { .. }) => true,
        Err(_) | Ok(_) => false,
    }
}

// The counts with one more ticket, whose finish said this.
fn with_one(counts: HangUp, finished: &Result<u64, Fault>) -> HangUp
    requires few { all_counted (counts_of counts) < 64 }
    ensures { counts_of result ≡ counted (counts_of counts) (finish_reply finished.now) }
{
    let mut more = counts;
    match finished {
        Ok(_) | Err(Fault::Already { .. }) => more.finished += 1,
        Err(Fault::NoMemory) => more.no_memory += 1,
        Err(Fault::Pending { .. }) => more.pending += 1,
        Err(Fault::PageFault { .. }) => more.page_fault += 1,
        Err(_) => {}
    }
    more
}

impl<'a, D: BesideDoor, G: Gate> Session<'a, D, G> {
    /// Gives up all tickets that the session holds, in the rising order of their numbers: each one's update is finished, or is
    /// found finished, or stays unfinished where its finish is hindered. Then the next ticket is number 1, an update has at most
    /// 1,048,576 bytes and no snapshot is kept, so that the session may serve somebody else. The four numbers of the answer add up to the tickets that were
    /// held, and at least `finished` of their versions are finished in what the session has seen then. For each page fault the doors'
    /// count has risen.
    pub fn hang_up<R: Threads + Wait + Sync>(&mut self, rt: &R) -> HangUp
        requires sync { IsSync R.row }
        ensures hung_up { HungUp AllOther (session_of self.old) (counts_of result) (session_of self.new) }
        ensures counts { result.finished + result.no_memory + result.pending + result.page_fault ≡ length self.old.held }
        ensures finished { result.finished ≤ finished_seen (session_of self.new) (tickets_of self.old.held) }
        ensures faults { RoseBy result.page_fault (sum_by D.faults self.old.doors) (sum_by D.faults self.new.doors) }
        ensures rising { Rise (tickets_of self.old.held) self.old.next }
        ensures none_held { self.new.held ≡ [] }
        ensures looks { self.new.looks_first ≡ false }
        ensures opened { self.new.opened ≡ [] }
        ensures doors_stay { length self.new.doors ≡ length self.old.doors }
        ensures truth_stays { All D.is_true self.new.doors }
        ensures goes_on { Continues self.old self.new }
        ensures turns { UpTo (2 * length self.old.held) self.old.turns self.new.turns }
    {
        request_form::laws::giving_up_goes_on();
        request_form::laws::hung_up_are_finished();
        range_log::laws::logs_are_grown();
        range_log::laws::extents_hold();
        let _most = self.held.count();
        let mut counts = HangUp {
            finished: 0,
            no_memory: 0,
            pending: 0,
            page_fault: 0,
        };
        'tickets: while self.held.count() > 0 {
            let finished = self.give_up_first(rt);
            counts = with_one(counts, &finished);
        }
        self.next = 1;
        self.limit = UpdateLimit::AtFirst;
        self.looks_first = false;
        self.opened.clear();
        counts
    }

    // Finishes the first of the held updates, and gives its ticket up also where that is hindered. It answers what the finish did.
    fn give_up_first<R: Threads + Wait + Sync>(&mut self, rt: &R) -> Result<u64, Fault>
        requires sync { IsSync R.row }
        requires some { 0 < length self.old.held }
        ensures given_up { (t : HeldTicket) (ts : List HeldTicket) → tickets_of self.old.held ≡ t ∷ ts
            → GivesUpOne (session_of self.old) t ts (finish_reply result) (session_of self.new) }
        ensures fewer { length self.old.held ≡ length self.new.held + 1 }
        ensures faults { RoseBy (fault_count (finish_reply result)) (sum_by D.faults self.old.doors) (sum_by D.faults self.new.doors) }
        ensures goes_on { Continues self.old self.new }
        ensures turns { UpTo 2 self.old.turns self.new.turns }
    {
        let number = self.held.at(0).number();
        let finished = self.finish(rt, number);
        if !is_hindered(&finished) {
            return finished;
        }
        self.held.remove(0);
        finished
    }
}
