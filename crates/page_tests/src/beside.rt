//! Doors that are asked beside each other.
ghost use Rattle.std.specs.Prelude.{◌≡◌, ◌≤◌, length};

use crate::pages::{store_at, three_doors, three_houses};
use page_fan::{BesideDoor, Put, Stand, put_all_groups};
use page_store::{Door, DoorMaker, GetAnswer, Houses, NoMemory, PageHouse, PageRef, PutAnswer};
use std::process::Abort;
use std::sync::Wait;
use std::sync::atomic::{AtomicBool, Ordering};
use std::thread;
use std::thread::Threads;
use tree_geom::PageSize;

// How often a door looks whether the other's flag is up.
const LOOKS: u32 = 100_000_000;

// Waits for the flag, and tells whether it came up.
fn comes_up(flag: &AtomicBool) -> bool {
    for _ in 0..LOOKS {
        if flag.load(Ordering::SeqCst) {
            return true;
        }
        thread::yield_now();
    }
    false
}

// A door that raises its own flag in a put, and fails where the other's doesn't come up.
#[derive(Drop)]
struct MeetingDoor<'a> {
    own: &'a AtomicBool,
    other: &'a AtomicBool,
    faults: u64,
}

impl<'a> Door for MeetingDoor<'a> {
    ghost use Rattle.std.specs.Prelude.{⊤};

    ghost is_true = { λ _. ⊤ };

    ghost faults = { λ d. d.faults };

    ghost called = { λ _ _. ⊤ };

    fn put<R: Wait>(&mut self, rt: &R, house: &PageHouse, bytes: &[u8]) -> PutAnswer {
        self.own.store(true, Ordering::SeqCst);
        if !comes_up(self.other) {
            self.faults = self.faults.saturating_add(1);
            return PutAnswer::Failed;
        }
        match house.put(rt, bytes) {
            Ok(page) => PutAnswer::Stored(page),
            Err(NoMemory) => PutAnswer::NoMemory,
        }
    }

    fn get(&mut self, house: &PageHouse, page: &PageRef, from: u32, out: &mut [u8]) -> GetAnswer {
        house.copy_to(page, from, out);
        GetAnswer::Got
    }
}

impl<'a> BesideDoor for MeetingDoor<'a> {
    fn bytes_a_thread() -> usize
        ensures { 1 ≤ result }
    {
        65_536
    }

    fn put_groups<R: Threads + Wait + Sync>(
        rt: &R,
        stands: &mut [Stand<MeetingDoor<'a>>],
        houses: &Houses,
        p: PageSize,
        buffer: &[u8],
        puts: &[Put],
    ) {
        let worth = MeetingDoor::bytes_a_thread();
        put_all_groups(rt, stands, houses, p, buffer, puts, worth);
    }
}

// Makes a door for provider 1, and the other one.
#[derive(Drop)]
struct MeetingMaker<'a> {
    first: &'a AtomicBool,
    second: &'a AtomicBool,
    faults: u64,
}

impl<'a> DoorMaker for MeetingMaker<'a> {
    ghost use Rattle.std.specs.Prelude.{⊤};

    type Door = MeetingDoor<'a>;

    ghost is_true = { λ _. ⊤ };

    ghost faults = { λ m. m.faults };

    ghost makes = { λ _ _ _. ⊤ };

    ghost hands_out = { λ _ _. ⊤ };

    ghost takes_back = { λ _ _. ⊤ };

    fn make(&mut self, provider: u32) -> Result<MeetingDoor<'a>, NoMemory> {
        let _faults = self.faults;
        let (own, other) = if provider == 1 {
            (self.first, self.second)
        } else {
            (self.second, self.first)
        };
        Ok(MeetingDoor {
            own,
            other,
            faults: 0,
        })
    }

    fn back(&mut self, door: MeetingDoor<'a>) {
        self.faults = self.faults.saturating_add(door.faults);
    }
}

// Stores two pages of which the first goes to both doors, and of which none is lost.
fn check_stored<R: Abort + AllocGlobal + Threads + Wait + Sync>(
    rt: &R,
    maker: &mut MeetingMaker<'_>,
) {
    let houses = three_houses(rt);
    let mut doors = three_doors(rt, maker);
    let bytes = vec![in rt.alloc(); 7u8; 131_072].expect(rt, "memory");
    let stored = store_at(rt, &mut doors, &houses, 65_536, bytes.as_slice(), 2);
    assert!(rt; stored.is_ok(), "a page is lost");
    doors.back(maker);
}

#[test]
fn two_doors_see_each_other(rt: HostRuntime) {
    let first = AtomicBool::new(false);
    let second = AtomicBool::new(false);
    let mut maker = MeetingMaker {
        first: &first,
        second: &second,
        faults: 0,
    };
    check_stored(&rt, &mut maker);
    assert!(rt; maker.faults == 0);
}
