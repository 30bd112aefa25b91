// Doors that fail by a list, for tests.
ghost use Rattle.std.specs.Prelude.{◌≡◌, ℕ, ◌+◌, ◌-◌, ◌^◌, ◌≤◌, ◌↔◌, length, slice_range, map, vec_len, [], IfOk};
ghost use Rattle.page_store.specs.Page.{IsIn};
ghost use Rattle.page_store.specs.Count.{HasRisen};
ghost use Rattle.page_store.specs.Answers.{IfStored, OnPutFailed, OnGot, OnGetFailed, is_put_failed, is_get_failed};
ghost use Rattle.page_store.specs.Flaky.{fails_next, after_call, planned_door};

use crate::door::{Door, DoorMaker, GetAnswer, PutAnswer};
use crate::house::{PageHouse, PageRef};
use crate::{MAX_PAGE, NoMemory};
use std::alloc::Global;
use std::marker::Model;
use std::sync::Wait;

/// A door that fails exactly at the calls on its list. Its puts and gets are numbered together, from 1.
#[derive(Drop)]
pub struct FlakyDoor {
    failing: Vec<u64>,
    calls: u64,
    faults: u64,
}

impl Model for FlakyDoor {
    ghost use Rattle.page_store.specs.Flaky.{Flaky, flaky_coded};

    ghost Value = { Flaky };

    ghost coded = { flaky_coded };

    ghost view = { λ d. record { failing = d.failing.items; calls = d.calls; faults = d.faults } };
}

impl FlakyDoor {
    /// A door of which no call was made, and which fails at the calls of those numbers.
    pub fn new(failing: Vec<u64>) -> FlakyDoor
        ensures { result ≡ record { failing = failing.items; calls = 0; faults = 0 } }
    {
        FlakyDoor {
            failing,
            calls: 0,
            faults: 0,
        }
    }

    /// How many calls have failed.
    pub fn faults(&self) -> u64
        ensures { result ≡ self.now.faults }
    {
        self.faults
    }

    // Counts one more call, and says whether it is to fail.
    fn fails_now(&mut self) -> bool
        ensures listed { result ≡ fails_next self.old }
        ensures counted { self.new ≡ after_call self.old }
        ensures never_falls { self.old.faults ≤ self.new.faults }
    {
        self.calls = self.calls.saturating_add(1);
        let fails = self.failing.contains(&self.calls);
        if fails {
            self.faults = self.faults.saturating_add(1);
        }
        fails
    }
}

impl Door for FlakyDoor {
    ghost use Rattle.std.specs.Prelude.{⊤};

    ghost is_true = { λ _. ⊤ };

    ghost faults = { λ d. d.faults };

    ghost called = { λ old new. new ≡ after_call old };

    fn put<R: Wait>(&mut self, rt: &R, house: &PageHouse, bytes: &[u8]) -> PutAnswer
        requires some { 1 ≤ length bytes.now }
        requires small { length bytes.now ≤ MAX_PAGE }
        ensures listed { is_put_failed result ≡ fails_next self.old }
        ensures counted { self.new ≡ after_call self.old }
        ensures here { IfStored result (λ page. IsIn house.now page.spot) }
        ensures bytes { IfStored result (λ page. page.bytes ≡ bytes.now) }
        ensures failed { OnPutFailed result (HasRisen self.old.faults self.new.faults) }
        ensures never_falls { self.old.faults ≤ self.new.faults }
        ensures truth_stays { ⊤ ↔ ⊤ }
    {
        if self.fails_now() {
            return PutAnswer::Failed;
        }
        match house.put(rt, bytes) {
            Ok(page) => PutAnswer::Stored(page),
            Err(NoMemory) => PutAnswer::NoMemory,
        }
    }

    fn get(&mut self, house: &PageHouse, page: &PageRef, from: u32, out: &mut [u8]) -> GetAnswer
        requires here { IsIn house.now page.now.spot }
        requires room { from + length out.old ≤ length page.now.bytes }
        ensures listed { is_get_failed result ≡ fails_next self.old }
        ensures counted { self.new ≡ after_call self.old }
        ensures got { OnGot result (out.new ≡ slice_range page.now.bytes from (from + length out.old)) }
        ensures failed { OnGetFailed result (HasRisen self.old.faults self.new.faults) }
        ensures never_falls { self.old.faults ≤ self.new.faults }
    {
        if self.fails_now() {
            return GetAnswer::Failed;
        }
        house.copy_to(page, from, out);
        GetAnswer::Got
    }
}

/// Makes doors that fail by a list for each provider: the first list is that of provider 1.
#[derive(Drop)]
pub struct FlakyMaker {
    failing: Vec<Vec<u64>>,
    alloc: Global,
    faults: u64,
}

impl Model for FlakyMaker {
    ghost use Rattle.std.specs.Prelude.{map};
    ghost use Rattle.page_store.specs.Flaky.{FlakyPlan, flaky_plan_coded};

    ghost Value = { FlakyPlan };

    ghost coded = { flaky_plan_coded };

    ghost view = { λ m. record { failing = map (λ calls. calls.items) m.failing.items; faults = m.faults } };
}

impl FlakyMaker {
    /// A maker whose count is 0. A provider past the lists gets a door that never fails.
    pub fn new(alloc: Global, failing: Vec<Vec<u64>>) -> FlakyMaker
        ensures { result ≡ record { failing = map (λ calls. calls.items) failing.items; faults = 0 } }
    {
        FlakyMaker {
            failing,
            alloc,
            faults: 0,
        }
    }

    /// The faults of the doors that came back.
    pub fn faults(&self) -> u64
        ensures { result ≡ self.now.faults }
    {
        self.faults
    }
}

impl DoorMaker for FlakyMaker {
    ghost use Rattle.std.specs.Prelude.{⊤};

    type Door = FlakyDoor;

    ghost is_true = { λ _. ⊤ };

    ghost faults = { λ m. m.faults };

    ghost makes = { λ m provider door. door ≡ planned_door m provider };

    ghost hands_out = { λ old new. new ≡ old };

    ghost takes_back = { λ old new. new.failing ≡ old.failing };

    fn make(&mut self, provider: u32) -> Result<FlakyDoor, NoMemory>
        requires { 1 ≤ provider }
        ensures planned { IfOk result (λ door. door ≡ planned_door self.old provider) }
        ensures bounded { self.old.faults ≤ 2 ^ 64 - 1 }
        ensures stays { self.new ≡ self.old }
    {
        let _faults = self.faults;
        let list = provider as usize - 1;
        if list >= self.failing.len() {
            return Ok(FlakyDoor::new(Vec::new(self.alloc)));
        }
        let failing = Vec::from_slice(self.alloc, &self.failing[list])?;
        Ok(FlakyDoor::new(failing))
    }

    fn back(&mut self, door: FlakyDoor) {
        self.faults = self.faults.saturating_add(door.faults());
    }
}
