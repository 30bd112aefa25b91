// A reader's place and what it has seen and learnt.
ghost use Rattle.std.specs.Prelude.{◌≡◌, ◌<◌, [], length, Some, IsSome, IfSome, is_some, option_copied};
ghost use Rattle.std.specs.Arc.{arc_value};
ghost use mathlib.Core.List.{IsPrefix};
ghost use Rattle.left_right.specs.Sides.{view};
ghost use Rattle.read_board.specs.Refreshes.{IsRising, IsOn, on_board, covering};
ghost use Rattle.read_board.specs.Boards.{known};
ghost use Rattle.read_board.specs.Reads.{goes_by};

use crate::book::Front;
use crate::chart::Chart;
use crate::keeper::Note;
use crate::refresh::Refresh;
use crate::shown::{Place, Sees};
use std::marker::Model;
use std::sync::Arc;

// `front` is all that it has seen and learnt, and `chart` stands for it.
#[derive(Drop)]
pub(crate) struct Reader {
    place: Option<Place>,
    chart: Option<Arc<Chart>>,
    front: Front,
}

impl Model for Reader {
    ghost use Rattle.std.specs.Prelude.{◌≡◌, IfSome, Some, is_some};
    ghost use Rattle.std.specs.Option.{option_map};
    ghost use Rattle.std.specs.Arc.{arc_value};
    ghost use Rattle.left_right.specs.Sides.{view as seen_there};
    ghost use Rattle.read_board.specs.Boards.{known};
    ghost use Rattle.read_board.specs.Keeping.{ReaderState, ShowsFront};

    ghost Value = { ReaderState };

    ghost view = { λ r. record { board = r.front.board; list = r.front.list; has_place = is_some r.place } };

    ghost invariant = { λ r. ShowsFront (option_map arc_value r.chart) r.front × IfSome r.place (λ p. known (seen_there p.place) ≡ Some r.front.board) };
}

// The chart that is shown, if it has more than so many refreshes. Any other is left alone: to share it at each read, all readers would
// write the one count of its owners all the time.
fn newer(shown: &Arc<Chart>, seen: u64) -> Option<Arc<Chart>>
    ensures { IfSome result (λ c. (arc_value c ≡ arc_value shown.now) × (seen < length (arc_value c).list)) }
{
    if seen < shown.front().len() {
        Arc::try_clone(shown).ok()
    } else {
        None
    }
}

// The place, and the chart that is published there, if it has more than so many refreshes.
fn looked(place: Place, seen: u64) -> (Place, Option<Arc<Chart>>)
    requires { IsSome (known (view place.place)) }
    ensures place { known (view result.0.place) ≡ known (view place.place) }
    ensures board { IfSome result.1 (λ c. known (view place.place) ≡ Some (arc_value c).board) }
{
    match place.enter_as::<Sees>() {
        Ok(reading) => {
            let chart = newer(&reading.get().chart, seen);
            (reading.leave(), chart)
        }
        Err(place) => (place, None),
    }
}

impl Reader {
    // A reader that has seen nothing.
    pub(crate) fn new(place: Option<Place>, front: Front) -> Reader
        requires empty { front.list ≡ [] }
        requires known { IfSome place (λ p. known (view p.place) ≡ Some front.board) }
        ensures { result ≡ record { board = front.board; list = []; has_place = is_some place } }
    {
        Reader {
            place,
            chart: None,
            front,
        }
    }

    // What it has seen is rising. For proofs: it does nothing.
    pub(crate) fn stands(&self)
        ensures { IsRising self.now.list }
    {
        self.front.stands();
    }

    // What it has seen and learnt.
    pub(crate) fn front(&self) -> &Front
        ensures { result.now ≡ record { board = self.now.board; list = self.now.list } }
    {
        &self.front
    }

    pub(crate) fn has_place(&self) -> bool
        ensures { result ≡ self.now.has_place }
    {
        self.place.is_some()
    }

    // Takes a chart in, if it has more than what was seen.
    fn take_in(&mut self, chart: Arc<Chart>)
        requires { (arc_value chart).board ≡ self.old.board }
        ensures seen { IsPrefix self.old.list self.new.list }
        ensures taken { IsPrefix (arc_value chart).list self.new.list }
        ensures kept { (self.new.has_place ≡ self.old.has_place) × (self.new.board ≡ self.old.board) }
    {
        self.front.tie(chart.front());
        if self.front.len() < chart.front().len() {
            self.front = chart.front().again();
            self.chart = Some(chart);
        }
    }

    // From now on it answers from no older chart.
    pub(crate) fn learn(&mut self, note: Note)
        requires { note.board ≡ self.old.board }
        ensures seen { IsPrefix self.old.list self.new.list }
        ensures learnt { IsPrefix note.list self.new.list }
        ensures kept { (self.new.has_place ≡ self.old.has_place) × (self.new.board ≡ self.old.board) }
    {
        let Note { chart: learnt } = note;
        self.take_in(learnt);
    }

    // Looks at what is published, where there is a place.
    pub(crate) fn look(&mut self)
        ensures seen { IsPrefix self.old.list self.new.list }
        ensures kept { (self.new.has_place ≡ self.old.has_place) × (self.new.board ≡ self.old.board) }
    {
        let Some(place) = self.place.take() else {
            return;
        };
        let (place, chart) = looked(place, self.front.len());
        self.place = Some(place);
        if let Some(chart) = chart {
            self.take_in(chart);
        }
    }

    // The refresh that a read goes by, or none where it goes by a turn.
    pub(crate) fn find(&self, blob: u64, version: u64) -> Option<&Refresh>
        ensures found { option_copied result ≡ goes_by self.now.has_place self.now.list blob version }
        ensures of_store { IfSome result (λ r. IsOn self.now.board.store r.now) }
    {
        if self.place.is_none() {
            return None;
        }
        let Some(chart) = &self.chart else {
            return None;
        };
        chart.find(blob, version)
    }
}
