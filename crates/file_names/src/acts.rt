//! What is done to the names in one turn.
use crate::names::Names;
use crate::path::Path;
use crate::tree::{EnterFault, FindFault, ListFault, Listing, Named, Stat};
use turn_lock::Act;

/// Finds the blob of a file.
pub struct Find<'a> {
    /// Where it stands.
    pub path: &'a Path,
}

impl Act<Names> for Find<'_> {
    ghost use Rattle.file_names.specs.Turns.{Finds};

    type Answer = Result<u64, FindFault>;

    ghost ready = { λ _ _ _. Unit {0} };

    ghost gives = { λ a before f by said after. Finds a.path.now before said after };

    fn act(self, state: &mut Names, _caller: u32) -> Result<u64, FindFault> {
        let Find { path } = self;
        state.find(path)
    }

    ghost stays_ready = { λ _ _ _ _ _. tt };
}

/// Tells what a path names.
pub struct Look<'a> {
    /// The path.
    pub path: &'a Path,
}

impl Act<Names> for Look<'_> {
    ghost use Rattle.file_names.specs.Turns.{Looks};

    type Answer = Option<Stat>;

    ghost ready = { λ _ _ _. Unit {0} };

    ghost gives = { λ a before f by said after. Looks a.path.now before said after };

    fn act(self, state: &mut Names, _caller: u32) -> Option<Stat> {
        let Look { path } = self;
        state.stat(path)
    }

    ghost stays_ready = { λ _ _ _ _ _. tt };
}

/// Lists what is right in a folder.
pub struct List<'a> {
    /// The folder.
    pub path: &'a Path,
}

impl Act<Names> for List<'_> {
    ghost use Rattle.file_names.specs.Turns.{ListsIn};

    type Answer = Result<Listing, ListFault>;

    ghost ready = { λ _ _ _. Unit {0} };

    ghost gives = { λ a before f by said after. ListsIn a.path.now before said after };

    fn act(self, state: &mut Names, _caller: u32) -> Result<Listing, ListFault> {
        let List { path } = self;
        state.list(path)
    }

    ghost stays_ready = { λ _ _ _ _ _. tt };
}

/// Tells why a path can't be entered, if it can't.
pub struct Foresee<'a> {
    /// The path.
    pub path: &'a Path,
}

impl Act<Names> for Foresee<'_> {
    ghost use Rattle.file_names.specs.Turns.{Foresees};

    type Answer = Option<EnterFault>;

    ghost ready = { λ _ _ _. Unit {0} };

    ghost gives = { λ a before f by said after. Foresees a.path.now before said after };

    fn act(self, state: &mut Names, _caller: u32) -> Option<EnterFault> {
        let Foresee { path } = self;
        state.enter_fault(path)
    }

    ghost stays_ready = { λ _ _ _ _ _. tt };
}

/// Enters a path as what it names from then on.
pub struct Enter<'a> {
    /// The path.
    pub path: &'a Path,
    /// What it names.
    pub named: Named,
}

impl Act<Names> for Enter<'_> {
    ghost use Rattle.file_names.specs.Tree.{Enters};

    type Answer = Result<(), EnterFault>;

    ghost ready = { λ _ _ _. Unit {0} };

    ghost gives = { λ a before f by said after. Enters before by a.path.now a.named said after };

    fn act(self, state: &mut Names, caller: u32) -> Result<(), EnterFault> {
        let Enter { path, named } = self;
        state.enter(caller, path, named)
    }

    ghost stays_ready = { λ _ _ _ _ _. tt };
}
