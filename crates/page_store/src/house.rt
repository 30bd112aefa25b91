// The house of one provider, references to its pages, and the houses of all providers.
ghost use Rattle.std.specs.Prelude.{◌≡◌, ◌+◌, ◌-◌, ◌≤◌, length, IfOk, Some, slice_get, slice_range};
ghost use Rattle.page_store.specs.House.{IsProvider};
ghost use Rattle.page_store.specs.Page.{IsIn};

use crate::{MAX_PAGE, NoMemory};
use boxcar::Pushed;
use std::alloc::Global;
use std::marker::Model;
use std::sync::Wait;

/// The pages of one provider. A page is written once, through a shared reference, and never changes; it is read
/// without a lock while other threads store more.
#[derive(Drop)]
pub struct PageHouse {
    provider: u32,
    pages: boxcar::Vec<Vec<u8>>,
    alloc: Global,
}

impl Model for PageHouse {
    ghost use Rattle.page_store.specs.House.{House, house_coded};

    ghost Value = { House };

    ghost coded = { house_coded };

    ghost view = { λ h. record { provider = h.provider; shelves = h.pages } };
}

/// A page of one house: it stands for the bytes that were put, for all time and in every thread.
#[derive(Drop)]
pub struct PageRef {
    provider: u32,
    len: u32,
    pushed: Pushed<Vec<u8>>,
}

impl Model for PageRef {
    ghost use Rattle.std.specs.Prelude.{◌≡◌, length};
    ghost use Rattle.page_store.specs.Page.{Page, page_coded};

    ghost Value = { Page };

    ghost coded = { page_coded };

    ghost view = { λ p. record { spot = record { provider = p.provider; place = p.pushed.index; shelf = p.pushed.bucket; mark = p.pushed.row }; bytes = p.pushed.value.items } };

    ghost invariant = { λ p. length p.pushed.value.items ≡ p.len };
}

impl PageHouse {
    /// An empty house of the provider of that number.
    pub fn new(alloc: Global, provider: u32) -> Result<PageHouse, NoMemory>
        ensures { IfOk result (λ house. house.provider ≡ provider) }
    {
        Ok(PageHouse {
            provider,
            pages: boxcar::Vec::new(alloc)?,
            alloc,
        })
    }

    /// The number of the provider, from 1.
    pub fn provider(&self) -> u32
        ensures { result ≡ self.now.provider }
    {
        self.provider
    }

    /// Stores a copy of 1 to 1,048,576 bytes as a page of its own. It may wait for another thread's push. Where
    /// memory is refused, no page was stored.
    pub fn put<R: Wait>(&self, rt: &R, bytes: &[u8]) -> Result<PageRef, NoMemory>
        requires some { 1 ≤ length bytes.now }
        requires small { length bytes.now ≤ MAX_PAGE }
        ensures here { IfOk result (λ page. IsIn self.now page.spot) }
        ensures bytes { IfOk result (λ page. page.bytes ≡ bytes.now) }
    {
        let copy = Vec::from_slice(self.alloc, bytes)?;
        let len = copy.len() as u32;
        match self.pages.push_shown(rt, copy) {
            Ok(pushed) => Ok(PageRef {
                provider: self.provider,
                len,
                pushed,
            }),
            Err(_) => Err(NoMemory),
        }
    }

    /// Copies bytes of the page into `out`, from byte `from` on and as many as `out` takes. It waits for nobody.
    pub fn copy_to(&self, page: &PageRef, from: u32, out: &mut [u8])
        requires here { IsIn self.now page.now.spot }
        requires room { from + length out.old ≤ length page.now.bytes }
        ensures { out.new ≡ slice_range page.now.bytes from (from + length out.old) }
    {
        let from = from as usize;
        let kept = self.pages.value(&page.pushed);
        out.copy_from_slice(&kept[from..from + out.len()]);
    }

    /// Two references of this house with the same place stand for the same bytes. For proofs: it does nothing.
    pub fn agrees(&self, a: &PageRef, b: &PageRef)
        requires a_here { IsIn self.now a.now.spot }
        requires b_here { IsIn self.now b.now.spot }
        requires same { a.now.spot.place ≡ b.now.spot.place }
        ensures { a.now.bytes ≡ b.now.bytes }
    {
        self.pages.agrees(&a.pushed, &b.pushed);
    }
}

impl PageRef {
    /// Which page of its house it is, from 0. Two references of one house with the same place stand for the same bytes, as
    /// `PageHouse::agrees` says.
    pub fn place(&self) -> u64
        ensures { result ≡ self.now.spot.place }
    {
        self.pushed.index() as u64
    }

    /// The number of the provider that has the page, from 1.
    pub fn provider(&self) -> u32
        ensures { result ≡ self.now.spot.provider }
    {
        self.provider
    }

    /// The length of the page, in bytes.
    pub fn len(&self) -> u32
        ensures { result ≡ length self.now.bytes }
    {
        self.len
    }
}

/// The houses of the providers 1 to the number of providers.
pub struct Houses {
    houses: Vec<PageHouse>,
}

// By hand, so that it is one call wherever the houses are let go: a derived drop stands, with all its calls, at each such place.
impl Drop for Houses {
    fn drop(self) {
        let Houses { houses: _ } = self;
    }
}

impl Model for Houses {
    ghost use Rattle.std.specs.Prelude.{List};
    ghost use Rattle.std.specs.Coded.{coded_list};
    ghost use Rattle.page_store.specs.House.{House, house_coded, AreNumbered};

    ghost Value = { List House };

    ghost coded = { coded_list house_coded };

    ghost view = { λ h. h.houses.items };

    ghost invariant = { λ h. AreNumbered h.houses.items };
}

impl Houses {
    /// An empty house for each of the providers.
    pub fn new(alloc: Global, providers: u32) -> Result<Houses, NoMemory>
        ensures { IfOk result (λ houses. length houses ≡ providers) }
    {
        let mut houses = Vec::with_capacity(alloc, providers as usize)?;
        for before in 0..providers {
            houses.push_reserved(PageHouse::new(alloc, before + 1)?);
        }
        Ok(Houses { houses })
    }

    /// The house of the provider.
    pub fn house(&self, provider: u32) -> &PageHouse
        requires { IsProvider (length self.now) provider }
        ensures this { slice_get self.now (provider - 1) ≡ Some result.now }
        ensures numbered { result.now.provider ≡ provider }
    {
        &self.houses[provider as usize - 1]
    }
}
