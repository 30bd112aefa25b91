// Many ranges of a version, read in one turn at most.
ghost use Rattle.std.specs.Prelude.{◌≡◌, ◌≢◌, ℕ, ◌+◌, ◌<◌, ◌≤◌, true, false, length, map, sum_by, IfOk, OnOk, IfErr, None, Some};
ghost use Rattle.faults.specs.Counts.{RoseBy};
ghost use Rattle.blob_model.specs.History.{AllOther};
ghost use Rattle.request_form.specs.Replies.{fault_count};
ghost use Rattle.request_form.specs.Answers.{Answers, ranges_fault};
ghost use Rattle.request_form.specs.declared.form.Request.TheVariants as Requests;
ghost use Rattle.request_form.specs.declared.form.Fault.TheVariants as Faults;
ghost use Rattle.range_reader.specs.Ranges.{bytes_in};
ghost use Rattle.client_session.specs.Losses.{IfPageLost, LostInRanges};
ghost use Rattle.client_session.specs.Memory.{IfNoMemory, AreTakenNow};
ghost use Rattle.client_session.specs.Results.{contents_reply};
ghost use Rattle.client_session.specs.Kept.{has_opened, KeptAfter, RangesByKept};
ghost use Rattle.client_session.specs.Sessions.{session_of, Continues, all_visits_seen, NoStepIfOneRefused};

use crate::session::{MAX_READ, Session, kept_view, range_told, unread};
use blob_model::Bytes;
use page_store::Door;
use ports::gate::Gate;
use range_reader::{ReadSource, read_ranges};
use request_form::{Fault, RangeList};
use std::sync::Wait;
use std::sync::ledger::Ledger;
use tree_geom::Steps;

// How many bytes these ranges have together. Where these are more than a read may have, it is an `Err` of the length of the first
// range with which they are.
fn total(ranges: &[(u64, u64)]) -> Result<u64, u64>
    ensures sum { IfOk result (λ count. count ≡ bytes_in ranges.now) }
    ensures few { OnOk result (ranges_fault 0 ranges.now ≡ None) }
    ensures too_long { IfErr result (λ count. ranges_fault 0 ranges.now ≡ Some (Faults.ReadTooLong count)) }
{
    let mut sum = 0;
    for range in ranges {
        let (_, count) = *range;
        if count > MAX_READ - sum {
            return Err(count);
        }
        sum += count;
    }
    Ok(sum)
}

impl<'a, D: Door, G: Gate> Session<'a, D, G> {
    /// The bytes of these ranges of a published version, one behind the other: all of one store, and of one snapshot.
    ///
    /// `ReadTooLong` comes first, exactly where the ranges have more than 16,777,216 bytes together, with the length of the first
    /// range at which the running sum is past that. Then come the store's refusals, of a range that ends past the version's size the
    /// first one's, and then `PageFault`, only where every door failed of a stored page that the named page of one of the ranges
    /// needs. `NoMemory` comes only where the store of what the session has seen then refuses nothing: the version is published, and all
    /// ranges lie within its size. It takes one turn for all ranges, or none, as `read` does, and keeps what it opens. From there it goes
    /// through the tree holding no lock, and the clause `steps` bounds how many nodes it meets: none where it is refused.
    pub fn read_many<R: Wait, L: Ledger>(
        &mut self,
        rt: &R,
        blob: u64,
        version: u64,
        ranges: &RangeList,
        steps: &mut Steps<L>,
    ) -> Result<Bytes, Fault>
        ensures answers { Answers AllOther (session_of self.old) (Requests.ReadMany blob version ranges.now) (contents_reply result) (session_of self.new) }
        ensures faults { RoseBy (fault_count (contents_reply result)) (sum_by D.faults self.old.doors) (sum_by D.faults self.new.doors) }
        ensures goes_on { Continues self.old self.new }
        ensures rest { self.new ≡ record self.old { log = self.new.log; doors = self.new.doors; turns = self.new.turns; opened = self.new.opened } }
        ensures one_turn { ranges_fault 0 ranges.now ≡ None → has_opened self.old.opened blob version ≡ false → self.new.turns ≡ self.old.turns + 1 }
        ensures no_turn { ranges_fault 0 ranges.now ≢ None → self.new.turns ≡ self.old.turns }
        ensures by_opened { has_opened self.old.opened blob version ≡ true → self.new ≡ record self.old { doors = self.new.doors } }
        ensures keeps { KeptAfter result blob version self.old.opened self.new.opened }
        ensures few { length self.new.opened ≤ 4 }
        ensures steps { steps.new ≤ steps.old + all_visits_seen (session_of self.new) blob version ranges.now }
        ensures failed { IfErr result (λ fault. IfPageLost fault
            (LostInRanges self.old.store self.new.log blob version ranges.now (map D.faults self.old.doors) (map D.faults self.new.doors))) }
        ensures no_step { NoStepIfOneRefused (session_of self.new) blob version ranges.now steps.old steps.new }
        ensures memory { IfErr result (λ fault. IfNoMemory fault (AreTakenNow (session_of self.new) blob version ranges.now)) }
    {
        let _few = self.opened.count();
        let pairs = ranges.as_slice();
        let count = match total(pairs) {
            Ok(count) => count,
            Err(length) => return Err(Fault::ReadTooLong { length }),
        };
        match self.come(rt, blob, version) {
            Ok(_) => self.read_pairs(blob, version, pairs, count, steps),
            Err(fault) => Err(unread(fault, pairs)),
        }
    }

    // Reads these ranges of a version by the snapshot that is kept. They have `count` bytes together.
    fn read_pairs<L: Ledger>(
        &mut self,
        blob: u64,
        version: u64,
        pairs: &[(u64, u64)],
        count: u64,
        steps: &mut Steps<L>,
    ) -> Result<Bytes, Fault>
        requires kept { has_opened self.old.opened blob version ≡ true }
        requires count { count ≡ bytes_in pairs.now }
        ensures few_kept { length self.old.opened ≤ 4 }
        ensures by { RangesByKept D.faults self.old blob version pairs.now result self.new steps.old steps.new }
        ensures faults { RoseBy (fault_count (contents_reply result)) (sum_by D.faults self.old.doors) (sum_by D.faults self.new.doors) }
        ensures seen_stays { self.new ≡ record self.old { doors = self.new.doors } }
    {
        snapshot::laws::rows_tell();
        let _few = self.opened.count();
        let shared = self.shared;
        let view = kept_view(&self.opened, blob, version);
        let source = ReadSource {
            view: &view,
            nodes: shared.nodes(),
            houses: shared.houses(),
        };
        range_told(read_ranges(
            self.alloc,
            &source,
            &mut self.doors,
            &mut self.room,
            pairs,
            count,
            steps,
        ))
    }
}
