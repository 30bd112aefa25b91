// The pages of the blob that a numbered update stores anew.
ghost use Rattle.std.specs.Prelude.{◌≡◌, ◌<◌, ◌+◌, ◌-◌, ◌*◌, ◌≤◌, [], All, length, map, min, max, sum_by, IfOk, IfErr, IsTrue, IsFalse, slice_range};
ghost use Rattle.std.specs.List.{filter_map};
ghost use Rattle.page_store.specs.Count.{HasRisen};
ghost use Rattle.page_store.specs.Page.{IsAmong};
ghost use Rattle.page_store.specs.Stored.{LieAmong, bytes_of_pages};
ghost use Rattle.range_log.specs.Rows.{leaf_start, leaf_from, leaf_len, valid_in};
ghost use Rattle.snapshot.specs.Versions.{size_now};
ghost use Rattle.range_reader.specs.Faults.{PageFailed};
ghost use Rattle.range_reader.specs.Reading.{page_in};
ghost use Rattle.tree_weaver.specs.Planned.{own_extent};
ghost use Rattle.tree_weaver.specs.Anew.{IsStoredAnew, IsChanged, OwnLost, OwnFailed, OnLostFold, bytes_anew};
ghost use Rattle.tree_weaver.specs.Folding.{CanFold, IsLost, AreKept};
ghost use Rattle.tree_weaver.specs.Put.{WasPut};

use crate::node::page_size;
use border_hints::Ticket;
use node_store::{Folds, NoMemory, NodeHouse};
use page_fan::{BesideDoor, Doors, StoreFault, fetch, store_page};
use page_store::{Door, Houses, StoredPage};
use provider_manager::SharedLoads;
use range_reader::{ReadRoom, read};
use std::alloc::Global;
use std::marker::Brand;
use std::sync::Wait;
use std::sync::ledger::{Blank, Ledger};
use std::thread::Threads;
use thiserror::Error;
use tree_geom::Steps;

/// Why a numbered update was not woven. Nodes and pages that were put may lie unused in their houses.
#[derive(Clone, Copy, Debug, PartialEq, Eq, Error)]
pub enum WeaveFault {
    /// This page of the blob, which the update stores anew, was not read or not stored; pages count from 0.
    #[error("page {0} was not stored anew")]
    PageFault(u64),
    /// Memory was refused.
    #[error("no memory")]
    NoMemory,
}

impl From<NoMemory> for WeaveFault {
    ghost use Rattle.std.specs.Prelude.{◌≡◌};
    ghost use Rattle.tree_weaver.specs.declared.folding.WeaveFault.TheVariants.{NoMemory as OutOfMemory};

    ghost from_gives = { λ _ e. e ≡ OutOfMemory };

    fn from(_error: NoMemory) -> WeaveFault {
        WeaveFault::NoMemory
    }
}

/// What a page that an update stores anew is made by: the update's ticket, the houses of the version before it, and the loads that
/// place it.
#[derive(Drop)]
pub(crate) struct Folding<'a> {
    pub ticket: &'a Ticket,
    pub nodes: &'a NodeHouse,
    pub houses: &'a Houses,
    pub loads: &'a SharedLoads,
}

// Where bytes lie that a page has after an update: how many valid bytes it had before and has after, the byte of the page and that of
// the update's bytes from which on these are the same, and how many those are.
#[derive(Clone, Copy)]
struct Part {
    older: u64,
    valid: u64,
    start: u64,
    from: u64,
    len: u64,
}

impl Folding<'_> {
    /// Stores these pages of the blob anew, one after the other.
    pub(crate) fn fold_pages<D: BesideDoor, R: Threads + Wait + Sync>(
        &self,
        rt: &R,
        alloc: Global,
        doors: &mut Doors<D>,
        room: &mut ReadRoom,
        pages: [Option<u64>; 2],
    ) -> Result<Folds, WeaveFault>
        requires can { CanFold D.is_true self.now doors.old }
        requires room { length room.old ≡ self.now.ticket.now.snapshot.page_size }
        requires anew { All (IsStoredAnew self.now.ticket.now) (filter_map (λ o. o) pages) }
        ensures bytes { IfOk result (λ folds. map (λ s. s.bytes) folds ≡ map (bytes_anew self.now.ticket.now) (filter_map (λ o. o) pages)) }
        ensures lie { IfOk result (LieAmong self.now.houses.now) }
        ensures put { IfOk result (All (WasPut D.called D.faults self.now.loads.now.providers self.now.loads.now.replicas doors.old doors.new)) }
        ensures page { IfErr result (λ fault. OnLostFold fault (IsStoredAnew self.now.ticket.now)) }
        ensures lost { IfErr result (λ fault. OnLostFold fault (IsLost D.faults self.now doors.old doors.new)) }
        ensures untouched { filter_map (λ o. o) pages ≡ [] → doors.new ≡ doors.old }
        ensures kept { AreKept D.faults doors.old doors.new }
        ensures can { CanFold D.is_true self.now doors.new }
        ensures room_stays { length room.new ≡ length room.old }
    {
        let mut folds = Folds::none();
        for page in pages {
            let Some(page) = page else {
                continue;
            };
            match self.fold_page(rt, alloc, doors, room, page) {
                Ok(stored) => folds.add(stored),
                Err(fault) => return Err(fault),
            }
        }
        Ok(folds)
    }

    // Stores that page anew.
    fn fold_page<D: BesideDoor, R: Threads + Wait + Sync>(
        &self,
        rt: &R,
        alloc: Global,
        doors: &mut Doors<D>,
        room: &mut ReadRoom,
        page: u64,
    ) -> Result<StoredPage, WeaveFault>
        requires can { CanFold D.is_true self.now doors.old }
        requires room { length room.old ≡ self.now.ticket.now.snapshot.page_size }
        requires anew { IsStoredAnew self.now.ticket.now page }
        ensures bytes { IfOk result (λ stored. stored.bytes ≡ bytes_anew self.now.ticket.now page) }
        ensures lies { IfOk result (λ stored. All (IsAmong self.now.houses.now) stored.spots) }
        ensures put { IfOk result (WasPut D.called D.faults self.now.loads.now.providers self.now.loads.now.replicas doors.old doors.new) }
        ensures page { IfErr result (λ fault. OnLostFold fault (λ i. i ≡ page)) }
        ensures lost { IfErr result (λ fault. OnLostFold fault (IsLost D.faults self.now doors.old doors.new)) }
        ensures kept { AreKept D.faults doors.old doors.new }
        ensures can { CanFold D.is_true self.now doors.new }
        ensures room_stays { length room.new ≡ length room.old }
    {
        range_log::laws::logs_are_grown();
        range_log::laws::page_bytes_stay();
        self.ticket.stands();
        let p = page_size(self.ticket);
        let bytes = self.page_anew(alloc, doors, room, page)?;
        match store_page(rt, alloc, self.loads, doors, self.houses, p, &bytes) {
            Ok(stored) => Ok(stored),
            Err(StoreFault::PageFault { .. }) => Err(WeaveFault::PageFault(page)),
            Err(StoreFault::NoMemory) => Err(WeaveFault::NoMemory),
        }
    }

    // The bytes of that page after the update: the update's own over those of the version before.
    fn page_anew<D: Door>(
        &self,
        alloc: Global,
        doors: &mut Doors<D>,
        room: &mut ReadRoom,
        page: u64,
    ) -> Result<Vec<u8>, WeaveFault>
        requires can { CanFold D.is_true self.now doors.old }
        requires room { length room.old ≡ self.now.ticket.now.snapshot.page_size }
        requires changed { IsChanged self.now.ticket.now page }
        ensures bytes { IfOk result (λ bytes. bytes.items ≡ bytes_anew self.now.ticket.now page) }
        ensures some { IfOk result (λ bytes. 1 ≤ length bytes.items) }
        ensures few { IfOk result (λ bytes. length bytes.items ≤ self.now.ticket.now.snapshot.page_size) }
        ensures page { IfErr result (λ fault. OnLostFold fault (λ i. i ≡ page)) }
        ensures lost { IfErr result (λ fault. OnLostFold fault (IsLost D.faults self.now doors.old doors.new)) }
        ensures kept { AreKept D.faults doors.old doors.new }
        ensures can { CanFold D.is_true self.now doors.new }
        ensures room_stays { length room.new ≡ length room.old }
    {
        let valid = self.changed_part(page).valid;
        let Ok(mut bytes) = vec![in alloc; 0; valid as usize] else {
            return Err(WeaveFault::NoMemory);
        };
        let out = bytes.as_mut_slice();
        if !self.fill_anew(doors, room, page, out) {
            return Err(WeaveFault::PageFault(page));
        }
        Ok(bytes)
    }

    // The part of the update in that page.
    fn changed_part(&self, page: u64) -> Part
        requires { IsChanged self.now.ticket.now page }
        ensures older { let t = self.now.ticket.now in result.older ≡ min t.snapshot.page_size (size_now t.snapshot - page * t.snapshot.page_size) }
        ensures start { let t = self.now.ticket.now in result.start ≡ leaf_start t.snapshot.page_size (own_extent t) page }
        ensures from { let t = self.now.ticket.now in result.from ≡ leaf_from t.snapshot.page_size (own_extent t) page }
        ensures len { let t = self.now.ticket.now in result.len ≡ leaf_len t.snapshot.page_size (own_extent t) page }
        ensures valid { let t = self.now.ticket.now in result.valid ≡ valid_in t.snapshot.page_size t.size page }
        ensures whole { result.valid ≡ max result.older (result.start + result.len) }
        ensures begins { result.start ≤ result.older }
        ensures some { 1 ≤ result.len }
        ensures small { result.valid ≤ self.now.ticket.now.snapshot.page_size }
        ensures within { result.from + result.len ≤ self.now.ticket.now.len }
    {
        let ticket = self.ticket;
        ticket.stands();
        let snapshot = &ticket.hints().snapshot;
        let p = snapshot.page_size().bytes();
        let begin = page * p;
        let end = begin + p;
        let first = ticket.at().max(begin);
        Part {
            older: snapshot.size().min(end) - begin,
            valid: ticket.size().min(end) - begin,
            start: first - begin,
            from: first - ticket.at(),
            len: (ticket.at() + ticket.len()).min(end) - first,
        }
    }

    // Fills the buffer with the bytes of that page after the update. False where all doors failed of a stored page that has bytes of it.
    fn fill_anew<D: Door>(
        &self,
        doors: &mut Doors<D>,
        room: &mut ReadRoom,
        page: u64,
        out: &mut [u8],
    ) -> bool
        requires can { CanFold D.is_true self.now doors.old }
        requires room { length room.old ≡ self.now.ticket.now.snapshot.page_size }
        requires changed { IsChanged self.now.ticket.now page }
        requires whole { length out.old ≡ valid_in self.now.ticket.now.snapshot.page_size self.now.ticket.now.size page }
        ensures bytes { IsTrue result → out.new ≡ bytes_anew self.now.ticket.now page }
        ensures lost { IsFalse result → IsLost D.faults self.now doors.old doors.new page }
        ensures kept { AreKept D.faults doors.old doors.new }
        ensures can { CanFold D.is_true self.now doors.new }
        ensures room_stays { length room.new ≡ length room.old }
    {
        self.ticket.stands();
        let part = self.changed_part(page);
        let older = &mut out[..part.older as usize];
        let blank = Blank::new(1);
        if !self.read_before::<D, Brand>(doors, room, page, older, blank) {
            return false;
        }
        let start = part.start as usize;
        let own = &mut out[start..start + part.len as usize];
        self.fetch_own(doors, part.from, own)
    }

    // Fills the buffer with the bytes that the page has before the update. False where all doors of a stored page failed. Nobody counts
    // the node steps.
    fn read_before<D: Door, L: Ledger>(
        &self,
        doors: &mut Doors<D>,
        room: &mut ReadRoom,
        page: u64,
        out: &mut [u8],
        blank: Blank,
    ) -> bool
        requires can { CanFold D.is_true self.now doors.old }
        requires room { length room.old ≡ self.now.ticket.now.snapshot.page_size }
        requires changed { IsChanged self.now.ticket.now page }
        requires older { let s = self.now.ticket.now.snapshot in length out.old ≡ min s.page_size (size_now s - page * s.page_size) }
        requires name { blank.name ≡ L.name }
        requires parts { blank.parts ≡ L.parts }
        requires some { 0 < blank.parts }
        ensures bytes { let s = self.now.ticket.now.snapshot in IsTrue result → out.new ≡ page_in s (length s.rows) page }
        ensures failed { IsFalse result → PageFailed self.now.ticket.now.snapshot (map D.faults doors.old) (map D.faults doors.new) page }
        ensures counted { IsFalse result → HasRisen (sum_by D.faults doors.old) (sum_by D.faults doors.new) }
        ensures kept { AreKept D.faults doors.old doors.new }
        ensures can { CanFold D.is_true self.now doors.new }
        ensures room_stays { length room.new ≡ length room.old }
    {
        self.ticket.stands();
        let mut steps = Steps::<L>::open(blank);
        let before = &self.ticket.hints().snapshot;
        let begin = page * page_size(self.ticket).bytes();
        match read(
            before,
            self.nodes,
            self.houses,
            doors,
            room,
            begin,
            out,
            &mut steps,
        ) {
            Ok(()) => true,
            Err(_) => false,
        }
    }

    // Fills the buffer with the update's own bytes from byte `from` on, which lie in one or two of its stored pages. False where all doors
    // of one of these failed.
    fn fetch_own<D: Door>(&self, doors: &mut Doors<D>, from: u64, out: &mut [u8]) -> bool
        requires can { CanFold D.is_true self.now doors.old }
        requires some { 1 ≤ length out.old }
        requires few { length out.old ≤ self.now.ticket.now.snapshot.page_size }
        requires within { from + length out.old ≤ self.now.ticket.now.len }
        ensures bytes { IsTrue result → out.new ≡ slice_range (bytes_of_pages self.now.ticket.now.pages.pages) from (from + length out.old) }
        ensures failed { IsFalse result → OwnFailed self.now.ticket.now (map D.faults doors.old) (map D.faults doors.new) from (length out.old) }
        ensures counted { IsFalse result → HasRisen (sum_by D.faults doors.old) (sum_by D.faults doors.new) }
        ensures kept { AreKept D.faults doors.old doors.new }
        ensures can { CanFold D.is_true self.now doors.new }
    {
        self.ticket.stands();
        let p = page_size(self.ticket).bytes();
        let number = from / p;
        let skip = from - number * p;
        let left = (p - skip) as usize;
        if out.len() <= left {
            return self.fetch_stored(doors, number, skip, out);
        }
        let (front, back) = out.split_at_mut(left);
        if !self.fetch_stored(doors, number, skip, front) {
            return false;
        }
        self.fetch_stored(doors, number + 1, 0, back)
    }

    // Fills the buffer with bytes of the update's stored page of that number, from its byte `skip` on. False where all its doors failed.
    fn fetch_stored<D: Door>(
        &self,
        doors: &mut Doors<D>,
        number: u64,
        skip: u64,
        out: &mut [u8],
    ) -> bool
        requires can { CanFold D.is_true self.now doors.old }
        requires some { 1 ≤ length out.old }
        requires fits { skip + length out.old ≤ self.now.ticket.now.snapshot.page_size }
        requires within { number * self.now.ticket.now.snapshot.page_size + skip + length out.old ≤ self.now.ticket.now.len }
        ensures bytes { let t = self.now.ticket.now in let from = number * t.snapshot.page_size + skip in
            IsTrue result → out.new ≡ slice_range (bytes_of_pages t.pages.pages) from (from + length out.old) }
        ensures failed { IsFalse result → OwnLost self.now.ticket.now (map D.faults doors.old) (map D.faults doors.new) number }
        ensures counted { IsFalse result → HasRisen (sum_by D.faults doors.old) (sum_by D.faults doors.new) }
        ensures kept { AreKept D.faults doors.old doors.new }
        ensures can { CanFold D.is_true self.now doors.new }
    {
        self.ticket.stands();
        let pages = self.ticket.pages();
        pages.stands();
        let _count = pages.count();
        let stored = pages.page(number as u32);
        let _whole = stored.len();
        fetch(doors, self.houses, stored, skip as u32, out)
    }
}
