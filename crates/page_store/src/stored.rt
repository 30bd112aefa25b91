// The pages of one update.
ghost use Rattle.std.specs.Prelude.{◌≡◌, ◌+◌, ◌*◌, ◌<◌, ◌≤◌, length, IfOk, OnOk, OnErr, Some, min};
ghost use Rattle.std.specs.Prelude.{slice_get, slice_range, [], ◌∷◌, ◌++◌};
ghost use Rattle.page_store.specs.Stored.{bytes_of_pages, AllFull, IsCut};

use crate::NoMemory;
use crate::replicas::StoredPage;
use std::alloc::Global;
use std::fmt;
use std::marker::Model;

// The pages of an update. One lies here.
#[derive(Drop)]
enum PageList {
    Empty,
    One(StoredPage),
    Several(Vec<StoredPage>),
}

/// The stored pages of one update, which stand for its bytes: the update's bytes cut at multiples of the page size.
/// All pages but the last have as many bytes as the page size. Where there is room for one page alone, it takes no memory of its own.
pub struct Pages {
    page_size: u32,
    room: u32,
    len: u64,
    pages: PageList,
}

// By hand, so that it is one call wherever pages are let go: a derived drop stands, with all its calls, at each such place.
impl Drop for Pages {
    fn drop(self) {
        let Pages {
            page_size: _,
            room: _,
            len: _,
            pages: _,
        } = self;
    }
}

impl Model for Pages {
    ghost use Rattle.page_store.specs.Stored.{Cut, cut_coded};

    ghost Value = { Cut };

    ghost coded = { cut_coded };

    ghost use Rattle.page_store.specs.PagesInvariant.{KeepsPages, pages_in};

    ghost view = { λ g. record { page_size = g.page_size; room = g.room; pages = pages_in g.pages } };

    ghost invariant = { KeepsPages };
}

// It tells how many pages there are, and not their bytes.
impl fmt::Debug for Pages {
    fn fmt<W: fmt::Write>(&self, f: &mut fmt::Formatter<W>) -> fmt::Result {
        let count = self.count();
        write!(f, "{count} pages")
    }
}

impl Pages {
    /// No pages, of the page size `p` in bytes, with room for `room` pages.
    pub fn start(alloc: Global, p: u64, room: u32) -> Result<Pages, NoMemory>
        requires least { 4 ≤ p }
        requires greatest { p ≤ 1048576 }
        ensures { IfOk result (λ pages. pages ≡ record { page_size = p; room = room; pages = [] }) }
    {
        let pages = if room <= 1 {
            PageList::Empty
        } else {
            PageList::Several(Vec::with_capacity(alloc, room as usize)?)
        };
        Ok(Pages {
            page_size: p as u32,
            room,
            len: 0,
            pages,
        })
    }

    /// Adds a page at the end, after pages that are all full. It takes no memory.
    pub fn add(&mut self, page: StoredPage)
        requires room { length self.old.pages < self.old.room }
        requires full { AllFull self.old.page_size self.old.pages }
        requires some { 1 ≤ length page.bytes }
        requires fits { length page.bytes ≤ self.old.page_size }
        ensures added { self.new ≡ record { page_size = self.old.page_size; room = self.old.room; pages = self.old.pages ++ page ∷ [] } }
        ensures cut { IsCut self.new.page_size self.new.pages }
    {
        self.len += u64::from(page.len());
        match &mut self.pages {
            PageList::Empty => self.pages = PageList::One(page),
            PageList::One(_) => unreachable!(),
            PageList::Several(pages) => pages.push_reserved(page),
        }
    }

    /// The number of pages.
    pub fn count(&self) -> u32
        ensures count { result ≡ length self.now.pages }
        ensures cut { IsCut self.now.page_size self.now.pages }
        ensures enough { length (bytes_of_pages self.now.pages) ≤ result * self.now.page_size }
    {
        let _room = self.room;
        match &self.pages {
            PageList::Empty => 0,
            PageList::One(_) => 1,
            PageList::Several(pages) => pages.len() as u32,
        }
    }

    /// The pages cut an update's bytes, all of the page size but the last. For proofs: it does nothing.
    pub fn stands(&self)
        ensures cut { IsCut self.now.page_size self.now.pages }
        ensures enough { length (bytes_of_pages self.now.pages) ≤ length self.now.pages * self.now.page_size }
    {
        let _count = self.count();
    }

    /// The number of bytes of all pages.
    pub fn len(&self) -> u64
        ensures { result ≡ length (bytes_of_pages self.now.pages) }
    {
        self.len
    }

    /// Page `i`, from 0. Its bytes are those of the update from `i` times the page size on.
    pub fn page(&self, i: u32) -> &StoredPage
        requires { i < length self.now.pages }
        ensures this { slice_get self.now.pages i ≡ Some result.now }
        ensures bytes { result.now.bytes ≡ slice_range (bytes_of_pages self.now.pages) (i * self.now.page_size) (min ((i + 1) * self.now.page_size) (length (bytes_of_pages self.now.pages))) }
    {
        match &self.pages {
            PageList::Empty => unreachable!(),
            PageList::One(page) => page,
            PageList::Several(pages) => &pages[i as usize],
        }
    }

    /// The page of an update that has no other, to be handed on. It takes no memory.
    pub fn into_page(self) -> StoredPage
        requires one { length self.pages ≡ 1 }
        ensures this { self.pages ≡ result ∷ [] }
        ensures bytes { result.bytes ≡ bytes_of_pages self.pages }
    {
        let Pages {
            page_size: _,
            room: _,
            len: _,
            pages,
        } = self;
        match pages {
            PageList::Empty => unreachable!(),
            PageList::One(page) => page,
            PageList::Several(mut pages) => pages.pop().unwrap(),
        }
    }
}
