// The pages that an update stores anew.
ghost use Rattle.std.specs.Prelude.{◌≡◌, ◌+◌, ◌<◌, ◌≤◌, [], ◌∷◌, ◌++◌, length, Some, slice_get};

use page_store::StoredPage;
use std::marker::Model;

/// The pages that an update stores anew, whole, in the order of the blob: two at most, since an update leaves valid bytes of
/// its first and its last page alone to older leaves.
pub struct Folds {
    first: Option<StoredPage>,
    second: Option<StoredPage>,
}

// By hand, so that it is one call wherever a row's folds are let go: a derived drop stands, with all its calls, at each such place.
impl Drop for Folds {
    fn drop(self) {
        let Folds {
            first: _,
            second: _,
        } = self;
    }
}

impl Model for Folds {
    ghost use Rattle.std.specs.Prelude.{List, [], None, ◌≡◌};
    ghost use Rattle.std.specs.List.{cons_option};
    ghost use Rattle.page_store.specs.Stored.{Stored};

    ghost Value = { List Stored };

    ghost view = { λ f. cons_option f.first (cons_option f.second []) };

    ghost invariant = { λ f. f.first ≡ None → f.second ≡ None };
}

impl Folds {
    /// No pages. It takes no memory.
    pub fn none() -> Folds
        ensures { result ≡ [] }
    {
        Folds {
            first: None,
            second: None,
        }
    }

    /// Adds a page at the end, after fewer than two. It takes no memory.
    pub fn add(&mut self, page: StoredPage)
        requires { length self.old < 2 }
        ensures { self.new ≡ self.old ++ page ∷ [] }
    {
        if self.first.is_none() {
            self.first = Some(page);
        } else {
            self.second = Some(page);
        }
    }

    /// How many pages there are.
    pub fn count(&self) -> u32
        ensures count { result ≡ length self.now }
        ensures few { result ≤ 2 }
    {
        u32::from(self.first.is_some()) + u32::from(self.second.is_some())
    }

    /// Page number `f`, from 0. There are more than `f`.
    pub fn page(&self, f: u32) -> &StoredPage
        requires { f < length self.now }
        ensures { slice_get self.now f ≡ Some result.now }
    {
        let page = if f == 0 { &self.first } else { &self.second };
        match page {
            Some(page) => page,
            None => unreachable!(),
        }
    }
}
