// The keeper of a board, which alone adds refreshes and publishes them.
ghost use Rattle.std.specs.Prelude.{◌≡◌, ◌≤◌, ◌<◌, ◌↔◌, ◌+◌, ◌^◌, ◌++◌, ◌∷◌, [], length, max, Some, Err, IsNone, IfSome, IfOk, option_copied, MatchResult, MatchBool, vec_len, vec_capacity};
ghost use Rattle.std.specs.List.{All};
ghost use Rattle.std.specs.Arc.{arc_value};
ghost use mathlib.Core.List.{IsPrefix};
ghost use Rattle.left_right.specs.Sides.{view};
ghost use Rattle.read_board.specs.Refreshes.{place, put, on_board, MayFollow, IsFullFor, IsOn};
ghost use Rattle.read_board.specs.Boards.{front_of};

use crate::author::Author;
use crate::book::Front;
use crate::chart::{Chart, copy, place_of};
use crate::refresh::Refresh;
use crate::shown::{BoardWriter, Sees};
use crate::standing::StandingReader;
use core::mem::replace_with;
use faults::NoMemory;
use page_store::Door;
use ports::gate::Gate;
use request_form::Fault;
use std::alloc::Global;
use std::marker::Model;
use std::sync::{Arc, Wait};

// How many blobs a board has at most.
pub(crate) const MOST: usize = 64;

/// Why a refresh wasn't done.
#[derive(Clone, Copy, Debug, PartialEq, Eq)]
pub enum RefreshFault {
    /// `NoBlob` where the blob isn't there, or `NoMemory`. After `NoMemory` the refresh may be pending.
    Fault(Fault),
    /// 64 other blobs are on the board or pending. Nothing has changed.
    BoardFull,
}

/// The keeper of a board: it alone puts refreshes there. A contract sees all refreshes that it made, pending and published, and the
/// published ones, which are a beginning of them. Its end waits until no reader looks at the board.
pub struct Keeper<R: Wait + Drop> {
    pub(crate) writer: BoardWriter,
    pub(crate) rt: R,
    pub(crate) alloc: Global,
    pub(crate) author: Author,
    pub(crate) shown: Front,
    pub(crate) on: Vec<Refresh>,
}

impl<R: Wait + Drop> Model for Keeper<R> {
    ghost use Rattle.read_board.specs.Keeping.{KeeperState};

    ghost Value = { KeeperState };

    ghost use Rattle.read_board.specs.Boards.{front_of};
    ghost use Rattle.read_board.specs.Keeping.{IsKeeping};

    ghost view = { λ k. record { board = k.author.board; all = k.author.list; shown = k.shown.list } };

    ghost invariant = { λ k. IsKeeping k.author k.shown (front_of k.writer.desk.shown.value) k.on.items };
}

/// What was published when it was made, for one reader to learn.
#[derive(Drop)]
pub struct Note {
    pub(crate) chart: Arc<Chart>,
}

impl Model for Note {
    ghost use Rattle.std.specs.Arc.{arc_value};
    ghost use Rattle.read_board.specs.Fronts.{FrontState};

    ghost Value = { FrontState };

    ghost view = { λ n. arc_value n.chart };
}

// Shows readers this chart.
pub(crate) fn show<R: Wait>(rt: &R, writer: BoardWriter, chart: Arc<Chart>) -> (BoardWriter, bool)
    requires { (arc_value chart).board ≡ (front_of writer.desk.shown.value).board }
    ensures { MatchBool result.1
        ((arc_value result.0.desk.shown.value.chart ≡ arc_value chart) × (view result.0.desk.place ≡ Some (arc_value chart)))
        (result.0.desk.shown.value ≡ writer.desk.shown.value) }
{
    let mut writer = writer;
    if writer.append(chart).is_err() {
        return (writer, false);
    }
    let (writer, published) = writer.publish_as::<Sees, R>(rt);
    (writer, published.is_ok())
}

impl<R: Wait + Drop> Keeper<R> {
    // Where a refresh of the blob goes, or `None` where the board is full.
    pub(crate) fn room_for(&self, blob: u64) -> Option<usize>
        ensures full { IsNone result ↔ IsFullFor blob self.now.all }
    {
        let at = place_of(self.on.as_slice(), blob);
        if at == MOST { None } else { Some(at) }
    }

    // A refresh that is pending.
    pub(crate) fn add(&mut self, refresh: Refresh) -> Result<(), NoMemory>
        requires rising { MayFollow self.old.all refresh }
        requires room { ¬ IsFullFor refresh.blob self.old.all }
        requires of_store { IsOn self.old.board.store refresh }
        ensures added { MatchResult result (λ _. self.new.all ≡ self.old.all ++ refresh ∷ []) (λ _. self.new.all ≡ self.old.all) }
        ensures shown { self.new.shown ≡ self.old.shown }
        ensures board { self.new.board ≡ self.old.board }
    {
        let at = place_of(self.on.as_slice(), refresh.blob);
        if self.on.reserve(1).is_err() || !self.author.add(&refresh) {
            return Err(NoMemory);
        }
        lay(&mut self.on, at, refresh);
        Ok(())
    }

    // Publishes all refreshes that are pending at once, or none.
    pub(crate) fn publish(&mut self) -> Result<(), NoMemory>
        ensures published { MatchResult result (λ _. self.new.shown ≡ self.old.all) (λ _. self.new.shown ≡ self.old.shown) }
        ensures all { self.new.all ≡ self.old.all }
        ensures board { self.new.board ≡ self.old.board }
    {
        let on = copy(self.alloc, self.on.as_slice())?;
        let chart = Chart::new(self.author.front().again(), on);
        let Ok(chart) = Arc::new(self.alloc, chart) else {
            return Err(NoMemory);
        };
        let shown = replace_with(&mut self.writer, (&self.rt, chart), |writer, x| {
            show(x.0, writer, x.1)
        });
        if shown {
            self.shown = self.author.front().again();
            Ok(())
        } else {
            Err(NoMemory)
        }
    }

    /// What a reader of its board has seen and learnt is a beginning of what this keeper made, and so is what it published. For proofs: it
    /// changes nothing.
    pub fn meet<'a, D: Door, G: Gate>(&mut self, reader: &StandingReader<'a, D, G>)
        requires { reader.now.board ≡ self.old.board }
        ensures begins { IsPrefix reader.now.list self.new.all }
        ensures published { IsPrefix self.new.shown self.new.all }
        ensures same { self.new ≡ self.old }
    {
        self.author.meet(reader.front());
    }

    /// What is published, for one reader to learn. It takes no turn. Where no memory is found nothing has changed.
    pub fn note(&self) -> Result<Note, NoMemory>
        ensures published { IfOk result (λ n. n ≡ record { board = self.now.board; list = self.now.shown }) }
    {
        match Arc::try_clone(&self.writer.published().chart) {
            Ok(chart) => Ok(Note { chart }),
            Err(_) => Err(NoMemory),
        }
    }
}

impl<R: Wait + Drop> Drop for Keeper<R> {
    fn drop(self) {
        let Keeper {
            writer,
            rt,
            alloc: _,
            author: _author,
            shown: _shown,
            on: _on,
        } = self;
        drop(writer.take(&rt));
    }
}

// Puts the refresh in the place of its blob's.
fn lay(on: &mut Vec<Refresh>, at: usize, refresh: Refresh)
    requires place { at ≡ place refresh.blob on.old.items }
    requires room { vec_len on.old < vec_capacity on.old }
    ensures placed { on.new.items ≡ put on.old.items refresh }
    ensures length { length on.new.items ≤ max (length on.old.items) (at + 1) }
{
    if at < on.len() {
        on[at] = refresh;
    } else {
        let pushed = on.push(refresh);
        let done = pushed.is_ok();
        prove!(done);
    }
}
