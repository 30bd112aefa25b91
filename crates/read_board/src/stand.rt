// A board, with the places that its readers take.
ghost use Rattle.std.specs.Prelude.{◌≡◌, ◌≤◌, ◌<◌, ◌-◌, [], ◌∷◌, Some, IfSome, IfOk};
ghost use Rattle.std.specs.List.{All};
ghost use Rattle.left_right.specs.Sides.{view};
ghost use Rattle.read_board.specs.Boards.{front_of, known};

use crate::author::Author;
use crate::book::Front;
use crate::chart::Chart;
use crate::keeper::{Keeper, MOST, show};
use crate::reader::Reader;
use crate::shown::{BoardWriter, Place, Shown, Whole};
use crate::standing::StandingReader;
use client_session::{Session, Shared};
use faults::NoMemory;
use page_store::Door;
use ports::gate::Gate;
use std::alloc::Global;
use std::marker::Model;
use std::sync::{Arc, Wait};

/// From where a board's readers come. It has the places that `left_right` gave, one for each reader that `Board::new` was told of, or
/// fewer where it found no memory for them. A contract sees the board, and how many readers may still come.
#[derive(Drop)]
pub struct Stand {
    places: Vec<Place>,
    front: Front,
    left: u32,
}

impl Model for Stand {
    ghost use Rattle.std.specs.Prelude.{◌≡◌, Some, []};
    ghost use Rattle.std.specs.List.{All};
    ghost use Rattle.left_right.specs.Sides.{view as seen_there};
    ghost use Rattle.read_board.specs.Boards.{known};
    ghost use Rattle.read_board.specs.Keeping.{StandState};

    ghost Value = { StandState };

    ghost view = { λ s. record { board = s.front.board; left = s.left } };

    ghost invariant = { λ s. (s.front.list ≡ []) × All (λ p. known (seen_there p.place) ≡ Some s.front.board) s.places.items };
}

/// A board of published snapshots.
pub struct Board;

// A place that `left_right` gives, which knows of which board it is.
fn place_at(writer: &mut BoardWriter) -> Option<Place>
    ensures kept { (writer.new.desk.shown ≡ writer.old.desk.shown) × (view writer.new.desk.place ≡ view writer.old.desk.place) }
    ensures known { IfSome result (λ p. view p.place ≡ view writer.old.desk.place) }
{
    let made: Result<Place, _> = writer.factory().reader();
    match made {
        Ok(place) => {
            let mut place = place;
            place.learn::<Whole>(writer.tell::<Whole>());
            Some(place)
        }
        Err(_) => None,
    }
}

// As many places as `left_right` gives.
fn places_at(alloc: Global, writer: &mut BoardWriter, readers: u32) -> Vec<Place>
    ensures kept { (writer.new.desk.shown ≡ writer.old.desk.shown) × (view writer.new.desk.place ≡ view writer.old.desk.place) }
    ensures known { All (λ p. view p.place ≡ view writer.old.desk.place) result.items }
{
    let mut all: Vec<Place> = Vec::new(alloc);
    for _ in 0..readers {
        if let Some(place) = place_at(writer) {
            if all.push(place).is_err() {
                return all;
            }
        }
    }
    all
}

// What shows readers an empty chart, with room for so many places.
fn writer_of<R: Wait>(
    rt: &R,
    alloc: Global,
    front: &Front,
    readers: u32,
) -> Result<BoardWriter, NoMemory>
    requires readers { (1 ≤ readers) × (readers ≤ 16) }
    requires empty { front.now.list ≡ [] }
    ensures shown { IfOk result (λ w. front_of w.desk.shown.value ≡ front.now) }
    ensures known { IfOk result (λ w. view w.desk.place ≡ Some front.now) }
{
    let empty = Chart::new(front.again(), Vec::new(alloc));
    let Ok(first) = Arc::new(alloc, empty) else {
        return Err(NoMemory);
    };
    let Ok(second) = Arc::try_clone(&first) else {
        return Err(NoMemory);
    };
    let Ok(third) = Arc::try_clone(&first) else {
        return Err(NoMemory);
    };
    let made = BoardWriter::new(
        alloc,
        Shown { chart: first },
        Shown { chart: second },
        readers as usize,
    );
    let Ok(writer) = made else {
        return Err(NoMemory);
    };
    let (writer, shown) = show(rt, writer, third);
    if shown {
        Ok(writer)
    } else {
        drop(writer.take(rt));
        Err(NoMemory)
    }
}

impl Board {
    /// A board of this store with nothing on it, its keeper, and the stand from which so many readers come, 1 to 16. Room for 64 blobs
    /// is reserved. The keeper works with this runtime at its end.
    pub fn new<R: Wait + Drop>(
        rt: R,
        alloc: Global,
        shared: &Shared,
        readers: u32,
    ) -> Result<(Keeper<R>, Stand), NoMemory>
        requires readers { (1 ≤ readers) × (readers ≤ 16) }
        ensures empty { IfOk result (λ b. (b.0.all ≡ []) × (b.0.shown ≡ [])) }
        ensures stand { IfOk result (λ b. b.1 ≡ record { board = b.0.board; left = readers }) }
        ensures store { IfOk result (λ b. b.0.board.store ≡ shared.now ∷ []) }
    {
        let Some(author) = Author::new(shared) else {
            return Err(NoMemory);
        };
        let front = author.front().again();
        let Ok(on) = Vec::with_capacity(alloc, MOST) else {
            return Err(NoMemory);
        };
        let mut writer = writer_of(&rt, alloc, &front, readers)?;
        let places = places_at(alloc, &mut writer, readers);
        let stand = Stand {
            places,
            front: front.again(),
            left: readers,
        };
        let keeper = Keeper {
            writer,
            rt,
            alloc,
            author,
            shown: front,
            on,
        };
        Ok((keeper, stand))
    }
}

impl Stand {
    /// The next reader, which works with this session. The session must be of the board's store, and there are no more readers than the
    /// board was made for. It has seen no refresh yet, and has a place as long as the stand has one left: without a place it reads by its
    /// session alone.
    pub fn reader<'a, D: Door, G: Gate>(
        &mut self,
        session: Session<'a, D, G>,
    ) -> StandingReader<'a, D, G>
        requires store { self.old.board.store ≡ session.store ∷ [] }
        requires left { 1 ≤ self.old.left }
        ensures board { result.board ≡ self.old.board }
        ensures empty { result.list ≡ [] }
        ensures session { result.session ≡ session.entry }
        ensures stand { self.new ≡ record self.old { left = self.old.left - 1 } }
    {
        self.left -= 1;
        let reader = Reader::new(self.places.pop(), self.front.again());
        StandingReader::new(reader, session)
    }
}
