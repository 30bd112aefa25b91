// Which store a board is of. It exists in the proofs alone.
ghost use Rattle.std.specs.Prelude.{◌≡◌, [], ◌∷◌};

use client_session::Shared;
use logbook::{Opening, Rule, Seen, Start};
use std::marker::Model;

// Nothing is asked of the name.
pub(crate) struct Free;

impl Rule<Shared, u64> for Free {
    ghost use Rattle.std.specs.Prelude.{[]};
    ghost use base.Fml.{ftrue};

    ghost holds = { λ cells log. Unit {0} };

    ghost first = { [] };

    ghost hinted = { λ n log. Unit {0} };

    ghost shows = { λ log. [] };

    ghost keeps = { λ names log. ftrue };

    ghost moves = { λ ask before after answer. Unit {0} };
}

// The store is named by the first entry.
pub(crate) struct ByStore;

impl Opening<Shared, Shared> for ByStore {
    ghost use Rattle.std.specs.Prelude.{[], ◌∷◌};

    ghost log = { λ _ store. store ∷ [] };
}

// The store, alone in a list. It has no bytes.
#[derive(Drop)]
pub(crate) struct StoreName {
    seen: Seen<Shared, u64, Free>,
}

impl Model for StoreName {
    ghost use Rattle.std.specs.Prelude.{List};
    ghost use Rattle.client_session.specs.Sessions.{StoreState};

    ghost Value = { List StoreState };

    ghost view = { λ s. s.seen.log };
}

impl StoreName {
    pub(crate) fn of(store: &Shared) -> StoreName
        ensures { result ≡ store.now ∷ [] }
    {
        let start: Start<Shared, u64, Free> = Start::alone();
        let (seen, _pens) = Seen::open_row::<Shared, ByStore>(store, start, 2);
        StoreName { seen }
    }

    pub(crate) fn again(&self) -> StoreName
        ensures { result ≡ self.now }
    {
        StoreName {
            seen: self.seen.again(),
        }
    }
}
