// A session's ways to the providers, which may fail, and their makers.
use crate::house::{PageHouse, PageRef};
use crate::{MAX_PAGE, NoMemory};
use std::sync::Wait;

/// What a put answers.
#[derive(Drop)]
pub enum PutAnswer {
    /// The page was stored.
    Stored(PageRef),
    /// The door failed; no page was stored.
    Failed,
    /// Memory was refused; no page was stored.
    NoMemory,
}

/// What a get answers.
#[derive(Clone, Copy, Debug, PartialEq, Eq)]
pub enum GetAnswer {
    /// The bytes are there.
    Got,
    /// The door failed; the buffer holds any bytes.
    Failed,
}

/// One session's way to one provider. Its count of faults belongs to that session. A door that is to go to another thread is
/// asked to be `Send` where threads are started.
pub trait Door {
    ghost use Rattle.std.specs.Prelude.{◌≡◌, ℕ, ◌+◌, ◌≤◌, ◌↔◌, length, slice_range};
    ghost use Rattle.page_store.specs.Page.{IsIn};
    ghost use Rattle.page_store.specs.Count.{HasRisen};
    ghost use Rattle.page_store.specs.Answers.{IfStored, OnPutFailed, OnGot, OnGetFailed};

    /// It gives back the bytes that were put.
    ghost is_true: { Self → Type 0 };

    /// How many of its calls have failed, up to the greatest u64.
    ghost faults: { Self → ℕ };

    /// One call, a put or a get, leads from the first to the second. `Calls` says it of several.
    ghost called: { Self → Self → Type 0 };

    /// Stores 1 to 1,048,576 bytes in the house. It may wait for another thread's push.
    fn put<R: Wait>(&mut self, rt: &R, house: &PageHouse, bytes: &[u8]) -> PutAnswer
        requires some { 1 ≤ length bytes.now }
        requires small { length bytes.now ≤ MAX_PAGE }
        ensures here { IfStored result (λ page. IsIn house.now page.spot) }
        ensures bytes { IfStored result (λ page. page.bytes ≡ bytes.now) }
        ensures called { called self.old self.new }
        ensures failed { OnPutFailed result (HasRisen (faults self.old) (faults self.new)) }
        ensures never_falls { faults self.old ≤ faults self.new }
        ensures truth_stays { is_true self.old ↔ is_true self.new };

    /// Fills `out` with the page's bytes from byte `from` on. It waits for nobody and takes no memory.
    fn get(&mut self, house: &PageHouse, page: &PageRef, from: u32, out: &mut [u8]) -> GetAnswer
        requires here { IsIn house.now page.now.spot }
        requires room { from + length out.old ≤ length page.now.bytes }
        ensures got { OnGot result (is_true self.old → out.new ≡ slice_range page.now.bytes from (from + length out.old)) }
        ensures called { called self.old self.new }
        ensures failed { OnGetFailed result (HasRisen (faults self.old) (faults self.new)) }
        ensures never_falls { faults self.old ≤ faults self.new }
        ensures truth_stays { is_true self.old ↔ is_true self.new };
}

/// Makes the doors of sessions, takes them back, and counts what they counted.
pub trait DoorMaker {
    ghost use Rattle.std.specs.Prelude.{◌≡◌, ℕ, ◌+◌, ◌-◌, ◌^◌, ◌≤◌, ◌↔◌, min, IfOk, OnOk, OnErr};

    type Door: Door;

    /// The doors that it makes are true.
    ghost is_true: { Self → Type 0 };

    /// The faults of the doors that came back, up to the greatest u64.
    ghost faults: { Self → ℕ };

    /// This is a door that it makes for the provider of that number.
    ghost makes: { Self → ℕ → Self.Door → Type 0 };

    /// One door more that is handed out leads from the first to the second. `Traffic` counts the doors that are.
    ghost hands_out: { Self → Self → Type 0 };

    /// And so does one door more that is taken back.
    ghost takes_back: { Self → Self → Type 0 };

    /// A door to the provider, with no fault counted. Where memory is refused, none is handed out.
    fn make(&mut self, provider: u32) -> Result<Self::Door, NoMemory>
        requires { 1 ≤ provider }
        ensures made { IfOk result (makes self.old provider) }
        ensures true_doors { is_true self.old → IfOk result (λ door. Self.Door.is_true door) }
        ensures fresh { IfOk result (λ door. Self.Door.faults door ≡ 0) }
        ensures handed_out { OnOk result (hands_out self.old self.new) }
        ensures err { OnErr result (self.new ≡ self.old) }
        ensures bounded { faults self.old ≤ 2 ^ 64 - 1 }
        ensures count_stays { faults self.new ≡ faults self.old }
        ensures truth_stays { is_true self.old ↔ is_true self.new }
        ensures plan_stays { (n : ℕ) (door : _) → makes self.old n door ↔ makes self.new n door };

    /// Takes a door back, and adds its count.
    fn back(&mut self, door: Self::Door)
        ensures taken_back { takes_back self.old self.new }
        ensures adds { faults self.new ≡ min (faults self.old + Self.Door.faults door) (2 ^ 64 - 1) }
        ensures truth_stays { is_true self.old ↔ is_true self.new }
        ensures plan_stays { (n : ℕ) (other : _) → makes self.old n other ↔ makes self.new n other };
}
