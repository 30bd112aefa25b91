// What `left_right` holds twice, and its rule: each chart that is published is of one board.
use crate::book::Front;
use crate::chart::Chart;
use atomic_table::{Join, Split};
use crossbeam_utils::rule::{Outcome, Protocol};
use left_right::Absorb;
use left_right::reader::Reader;
use left_right::writer::Writer;
use std::alloc::AllocError;
use std::sync::Arc;

#[derive(Drop)]
pub(crate) struct Shown {
    pub(crate) chart: Arc<Chart>,
}

impl Absorb<Arc<Chart>> for Shown {
    ghost use Rattle.std.specs.Arc.{arc_value};

    type State = Chart;

    ghost state = { λ s. arc_value s.chart };

    ghost applied = { λ _ chart. arc_value chart };

    fn absorb_first(&mut self, operation: &Arc<Chart>, _other: &Shown) -> Result<(), AllocError> {
        self.chart = Arc::try_clone(operation)?;
        Ok(())
    }
}

// Each chart that is published is of one board. A view is a front of it, or none.
pub(crate) struct OneBoard;

impl Protocol<Shown, Option<Front>> for OneBoard {
    ghost use Rattle.read_board.specs.Boards.{Keeps, newcomer};

    ghost holds = { Keeps };

    ghost first = { newcomer };
}

pub(crate) struct Sees;

impl Outcome<Shown, Option<Front>> for Sees {
    ghost use Rattle.read_board.specs.Boards.{Sees};

    ghost then = { Sees };
}

pub(crate) struct Whole;

impl Split<Option<Front>> for Whole {
    ghost left = { λ v. v };

    ghost right = { λ v. v };
}

impl Join<Option<Front>> for Whole {
    ghost use Rattle.read_board.specs.Boards.{newcomer};

    ghost both = { λ _ w. w };

    ghost spent = { newcomer };
}

pub(crate) type Place = Reader<Shown, Option<Front>, OneBoard>;

pub(crate) type BoardWriter = Writer<Shown, Arc<Chart>, Option<Front>, OneBoard>;
