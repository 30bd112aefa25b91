//! What each client does, drawn by a fixed rule from its number, and what that adds up to.

use blob_model::Place;

/// How many clients there are.
pub(crate) const CLIENTS: u8 = 16;

/// How many steps each goes through.
pub(crate) const STEPS: u32 = 6;

/// The bytes of version 1 of each of the three blobs. No write ends behind them.
pub(crate) const BASE: &[u8] = b"abcdefghijklmnop";

/// The most bytes of an update.
pub(crate) const MOST: usize = 3;

/// How the clients work.
#[derive(Clone, Copy)]
pub(crate) enum Manner {
    /// Each update is finished, and its version read.
    Careful,
    /// Each update is started. Some are finished, some versions are repaired, and the rest is held where the session ends.
    Careless,
}

/// What a client does with an update.
#[derive(Clone, Copy)]
pub(crate) enum Next {
    /// It reads it, branches the blob there, and writes the branch's first byte. A careless client repairs some version up to it.
    Branches,
    /// It reads it, and version 1 of the blob. A careless client finishes it, or leaves it.
    ReadsBase,
}

/// An update of so many bytes, and what comes after it.
#[derive(Clone, Copy)]
pub(crate) struct Step {
    pub(crate) blob: u64,
    pub(crate) place: Place,
    pub(crate) count: usize,
    pub(crate) next: Next,
    lot: u64,
}

impl Step {
    /// One of the versions up to this one, drawn with the step.
    pub(crate) fn version_up_to(&self, version: u64) -> u64 {
        (self.lot % version.max(1)).saturating_add(1)
    }
}

/// Draws the steps of a client, the same at each run.
#[derive(Drop)]
pub(crate) struct Dice {
    state: u64,
}

impl Dice {
    /// The dice of the client of that number.
    pub(crate) fn of(number: u8) -> Dice {
        Dice {
            state: u64::from(number) + 1,
        }
    }

    fn roll(&mut self) -> u64 {
        self.state = self.state.wrapping_mul(75).wrapping_add(74) % 65_537;
        self.state
    }

    /// The next step. Most of them write a part of the first page, so that the blobs that are written most store it anew.
    pub(crate) fn step(&mut self) -> Step {
        let blob = (self.roll() % 5).max(2) - 1;
        let place = match self.roll() % 4 {
            0 => Place::Append,
            _ => Place::WriteAt(self.roll() % 2),
        };
        let count = (self.roll() % 3 + 1) as usize;
        let next = match self.roll() % 3 {
            0 => Next::Branches,
            _ => Next::ReadsBase,
        };
        Step {
            blob,
            place,
            count,
            next,
            lot: self.roll(),
        }
    }
}

/// What all scripts add up to: of one blob the last version and the size, and how many branches are made of it.
#[derive(Drop)]
pub(crate) struct Sum {
    pub(crate) last: u64,
    pub(crate) size: usize,
    pub(crate) branches: u64,
}

impl Sum {
    // Adds a step.
    fn add(&mut self, step: &Step) {
        self.last = self.last.saturating_add(1);
        if matches!(step.place, Place::Append) {
            self.size = self.size.saturating_add(step.count);
        }
        if matches!(step.next, Next::Branches) {
            self.branches = self.branches.saturating_add(1);
        }
    }

    // Adds the steps of a client at that blob.
    fn add_client(&mut self, number: u8, blob: u64) {
        let mut dice = Dice::of(number);
        for _ in 0..STEPS {
            let step = dice.step();
            if step.blob == blob {
                self.add(&step);
            }
        }
    }
}

/// What all scripts add up to at that blob.
pub(crate) fn sum_of(blob: u64) -> Sum {
    let mut sum = Sum {
        last: 1,
        size: BASE.len(),
        branches: 0,
    };
    for number in 0..CLIENTS {
        sum.add_client(number, blob);
    }
    sum
}
