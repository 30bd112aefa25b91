// What is on the board: each blob's last refresh, with the list that it follows from.
ghost use Rattle.std.specs.Prelude.{◌≡◌, ◌≤◌, ◌<◌, length, IfOk, IfSome, OnSome, option_copied};
ghost use Rattle.std.specs.List.{All};
ghost use Rattle.read_board.specs.Refreshes.{place, latest_of, on_board, covering, IsOn, IsRising};

use crate::book::Front;
use crate::refresh::Refresh;
use faults::NoMemory;
use std::alloc::Global;
use std::marker::Model;

// Each blob's last refresh in the list that `front` has seen. Each is of the board's store.
#[derive(Drop)]
pub(crate) struct Chart {
    front: Front,
    on: Vec<Refresh>,
}

impl Model for Chart {
    ghost use Rattle.std.specs.Prelude.{◌≡◌};
    ghost use Rattle.std.specs.List.{All};
    ghost use Rattle.read_board.specs.Refreshes.{latest_of, IsOn};
    ghost use Rattle.read_board.specs.Fronts.{FrontState};

    ghost Value = { FrontState };

    ghost view = { λ c. c.front };

    ghost invariant = { λ c. (c.on.items ≡ latest_of c.front.list) × All (IsOn c.front.board.store) c.on.items };
}

// Where the blob's refresh stands, or the length.
pub(crate) fn place_of(on: &[Refresh], blob: u64) -> usize
    ensures place { result ≡ place blob on.now }
    ensures bound { result ≤ length on.now }
{
    let mut at = 0;
    while at < on.len() && on[at].blob != blob {
        at += 1;
    }
    at
}

// The same refreshes. Their rows are shared.
pub(crate) fn copy(alloc: Global, on: &[Refresh]) -> Result<Vec<Refresh>, NoMemory>
    ensures { IfOk result (λ v. v.items ≡ on.now) }
{
    let mut all: Vec<Refresh> = Vec::new(alloc);
    for r in on.iter() {
        let Ok(snapshot) = r.snapshot.under(r.snapshot.blob()) else {
            return Err(NoMemory);
        };
        let same = Refresh {
            blob: r.blob,
            snapshot,
        };
        if all.push(same).is_err() {
            return Err(NoMemory);
        }
    }
    Ok(all)
}

impl Chart {
    pub(crate) fn new(front: Front, on: Vec<Refresh>) -> Chart
        requires latest { on.items ≡ latest_of front.list }
        requires of_store { All (IsOn front.board.store) on.items }
        ensures { result ≡ front }
    {
        Chart { front, on }
    }

    // What it stands for.
    pub(crate) fn front(&self) -> &Front
        ensures { result.now ≡ self.now }
    {
        &self.front
    }

    // The blob's last refresh, where the version is not past it.
    pub(crate) fn find(&self, blob: u64, version: u64) -> Option<&Refresh>
        ensures found { option_copied result ≡ covering (on_board blob self.now.list) version }
        ensures of_store { IfSome result (λ r. IsOn self.now.board.store r.now) }
    {
        let at = place_of(self.on.as_slice(), blob);
        if at >= self.on.len() {
            return None;
        }
        let on = &self.on[at];
        if version <= on.snapshot.version() {
            Some(on)
        } else {
            None
        }
    }
}
