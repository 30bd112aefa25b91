// Doors to providers that lie in the process.
use crate::NoMemory;
use crate::door::{Door, DoorMaker, GetAnswer, PutAnswer};
use crate::house::{PageHouse, PageRef};
use std::sync::Wait;

/// A door that goes straight to the house and never fails.
#[derive(Clone, Copy, Debug)]
pub struct PlainDoor;

impl PlainDoor {
    /// A door to any provider.
    pub fn new() -> PlainDoor {
        PlainDoor
    }
}

impl Door for PlainDoor {
    ghost use Rattle.std.specs.Prelude.{⊤};

    ghost is_true = { λ _. ⊤ };

    ghost faults = { λ _. 0 };

    ghost called = { λ _ _. ⊤ };

    fn put<R: Wait>(&mut self, rt: &R, house: &PageHouse, bytes: &[u8]) -> PutAnswer {
        match house.put(rt, bytes) {
            Ok(page) => PutAnswer::Stored(page),
            Err(NoMemory) => PutAnswer::NoMemory,
        }
    }

    fn get(&mut self, house: &PageHouse, page: &PageRef, from: u32, out: &mut [u8]) -> GetAnswer {
        house.copy_to(page, from, out);
        GetAnswer::Got
    }
}

/// Makes plain doors.
#[derive(Clone, Copy, Debug)]
pub struct PlainMaker;

impl PlainMaker {
    /// A maker whose count is 0.
    pub fn new() -> PlainMaker {
        PlainMaker
    }
}

impl DoorMaker for PlainMaker {
    ghost use Rattle.std.specs.Prelude.{⊤};

    type Door = PlainDoor;

    ghost is_true = { λ _. ⊤ };

    ghost faults = { λ _. 0 };

    ghost makes = { λ _ _ _. ⊤ };

    ghost hands_out = { λ _ _. ⊤ };

    ghost takes_back = { λ _ _. ⊤ };

    fn make(&mut self, _provider: u32) -> Result<PlainDoor, NoMemory> {
        Ok(PlainDoor)
    }

    fn back(&mut self, _door: PlainDoor) {}
}
