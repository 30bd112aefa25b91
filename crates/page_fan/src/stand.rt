// A door beside what it answered to the puts of its own group.
ghost use Rattle.std.specs.Prelude.{◌≡◌, ℕ, ◌+◌, ◌-◌, ◌≤◌, ◌↔◌, List, All, length, take, drop, [], ◌∷◌, slice_get};
ghost use Rattle.page_store.specs.Answers.{IfStored, OnPutFailed};
ghost use Rattle.page_store.specs.Calls.{Calls};
ghost use Rattle.page_store.specs.Count.{HasRisen};
ghost use Rattle.page_store.specs.House.{IsProvider};
ghost use Rattle.page_store.specs.Page.{IsAmong};
ghost use Rattle.page_fan.specs.Groups.{CanBePut, IsAnswerTo};
ghost use Rattle.page_fan.specs.Stands.{HasReplyToEach, IsOwed, IsReplied};

use crate::cutting::page_bytes;
use page_store::{Door, Houses, MAX_PAGE, PutAnswer};
use std::alloc::Global;
use std::collections::VecDeque;
use std::sync::Wait;
use tree_geom::PageSize;

/// A page of a buffer that is to be put at a provider. It begins at byte `at` of the buffer.
#[derive(Clone, Copy, Debug, PartialEq, Eq)]
pub struct Put {
    pub provider: u32,
    pub at: usize,
}

/// What a door answered to the put of the page that begins at byte `at` of the buffer.
#[derive(Drop)]
pub struct PutReply {
    pub at: usize,
    pub answer: PutAnswer,
}

/// A door to one provider, and a tray for its replies. Each stand goes to one thread, with all that is written there.
#[derive(Drop)]
pub struct Stand<D> {
    pub door: D,
    pub tray: VecDeque<PutReply>,
}

impl<D: Door> Stand<D> {
    // A door with an empty tray.
    pub(crate) fn new(alloc: Global, door: D) -> Stand<D>
        ensures { result.door ≡ door }
    {
        Stand {
            door,
            tray: VecDeque::new(alloc),
        }
    }

    // The door alone.
    pub(crate) fn into_door(self) -> D
        ensures { result ≡ self.door }
    {
        let Stand { door, tray: _tray } = self;
        door
    }

    /// Puts the pages of the door's own provider, in order, and leaves one reply to each put in the tray. It stops before a
    /// put for whose reply the tray is refused memory. The stand's index, from 0, is one below the number of its provider.
    pub fn put_group<R: Wait>(
        &mut self,
        rt: &R,
        index: usize,
        houses: &Houses,
        p: PageSize,
        buffer: &[u8],
        puts: &[Put],
    )
        requires { All (CanBePut (length houses.now) buffer.now) puts.now }
        ensures replies { IsReplied houses.now p buffer.now (index + 1) (D.faults self.old.door) D.faults self.new }
        ensures each { HasReplyToEach puts.now (index + 1) self.old self.new }
        ensures called { Calls D.called (length self.new.tray.items) self.old.door self.new.door }
        ensures truth_stays { D.is_true self.old.door ↔ D.is_true self.new.door }
    {
        self.tray.clear();
        for put in puts {
            if put.provider as usize - 1 == index {
                if self.tray.reserve(1).is_err() {
                    return;
                }
                let bytes = page_bytes(buffer, put.at, p.bytes() as usize);
                let answer = self.put(rt, houses, put.provider, bytes);
                self.tray
                    .push_back_reserved(PutReply { at: put.at, answer });
            }
        }
    }

    // The answer to this put: the reply that waits for it in the tray, or, where there is none for want of memory, what
    // the door answers now.
    pub(crate) fn answer<R: Wait>(
        &mut self,
        rt: &R,
        houses: &Houses,
        p: PageSize,
        buffer: &[u8],
        put: Put,
    ) -> PutAnswer
        requires put { CanBePut (length houses.now) buffer.now put }
        ensures answer { (before : ℕ) → IsReplied houses.now p buffer.now put.provider before D.faults self.old
            → IsAnswerTo houses.now p buffer.now put before (D.faults self.new.door) result }
        ensures replies { (before : ℕ) → IsReplied houses.now p buffer.now put.provider before D.faults self.old
            → IsReplied houses.now p buffer.now put.provider before D.faults self.new }
        ensures owed { (done : ℕ) (rest : List ℕ) (first : D) → IsOwed D.called done (put.at ∷ rest) first self.old
            → IsOwed D.called (done + 1) rest first self.new }
        ensures never_falls { D.faults self.old.door ≤ D.faults self.new.door }
        ensures truth_stays { D.is_true self.old.door ↔ D.is_true self.new.door }
    {
        match self.tray.pop_front() {
            Some(reply) if reply.at == put.at => reply.answer,
            _ => {
                let bytes = page_bytes(buffer, put.at, p.bytes() as usize);
                self.put(rt, houses, put.provider, bytes)
            }
        }
    }

    // Puts the bytes at the provider, and leaves the tray as it is.
    pub(crate) fn put<R: Wait>(
        &mut self,
        rt: &R,
        houses: &Houses,
        provider: u32,
        bytes: &[u8],
    ) -> PutAnswer
        requires house { IsProvider (length houses.now) provider }
        requires some { 1 ≤ length bytes.now }
        requires small { length bytes.now ≤ MAX_PAGE }
        ensures here { IfStored result (λ page. IsAmong houses.now page.spot) }
        ensures there { IfStored result (λ page. page.spot.provider ≡ provider) }
        ensures bytes { IfStored result (λ page. page.bytes ≡ bytes.now) }
        ensures called { D.called self.old.door self.new.door }
        ensures failed { OnPutFailed result (HasRisen (D.faults self.old.door) (D.faults self.new.door)) }
        ensures never_falls { D.faults self.old.door ≤ D.faults self.new.door }
        ensures truth_stays { D.is_true self.old.door ↔ D.is_true self.new.door }
        ensures tray { self.new.tray ≡ self.old.tray }
    {
        self.door.put(rt, houses.house(provider), bytes)
    }
}
