// What an update touches, its version, and the height of its tree and the size of its pages, in few bytes.
ghost use Rattle.std.specs.Prelude.{◌≡◌, ◌≤◌};
ghost use Rattle.tree_geom.specs.Geometry.{IsPageSize};

use std::marker::Model;
use tree_geom::{PageSize, Touch};

/// A touch, a version, a height and a page size. There is one in each row, so that its parts lie where they leave no gaps.
#[derive(Drop)]
pub(crate) struct Shape {
    first: u64,
    last: u64,
    size: u64,
    version: u32,
    height: u8,
    // a page has 2 to this power of bytes
    page_log: u8,
    open_first: bool,
    open_last: bool,
}

impl Model for Shape {
    ghost use Rattle.std.specs.Prelude.{◌^◌, ◌≤◌};
    ghost use Rattle.node_store.specs.Shapes.{RowShape};

    ghost Value = { RowShape };

    ghost view = { λ s. record {
      touch = record { first = s.first; last = s.last; size = s.size; open_first = s.open_first; open_last = s.open_last };
      version = s.version;
      height = s.height;
      page_size = 2 ^ s.page_log;
    } };

    ghost invariant = { λ s. (2 ≤ s.page_log) × (s.page_log ≤ 20) };
}

impl Shape {
    /// The four as one.
    #[inline(always)]
    pub(crate) fn of(touch: Touch, version: u32, height: u32, p: PageSize) -> Shape
        requires { height ≤ 38 }
        ensures { result ≡ record { touch = touch; version = version; height = height; page_size = p } }
    {
        Shape {
            first: touch.first,
            last: touch.last,
            size: touch.size,
            version,
            height: height as u8,
            page_log: p.bytes().ilog2() as u8,
            open_first: touch.open_first,
            open_last: touch.open_last,
        }
    }

    /// The touch.
    #[inline(always)]
    pub(crate) fn touch(&self) -> Touch
        ensures { result ≡ self.now.touch }
    {
        Touch {
            first: self.first,
            last: self.last,
            size: self.size,
            open_first: self.open_first,
            open_last: self.open_last,
        }
    }

    /// The version.
    #[inline(always)]
    pub(crate) fn version(&self) -> u64
        ensures { result ≡ self.now.version }
    {
        u64::from(self.version)
    }

    /// The height.
    #[inline(always)]
    pub(crate) fn height(&self) -> u32
        ensures { result ≡ self.now.height }
    {
        u32::from(self.height)
    }

    /// How many bytes a page has.
    #[inline(always)]
    pub(crate) fn page_size(&self) -> u64
        ensures is { result ≡ self.now.page_size }
        ensures power { IsPageSize result }
    {
        1u64 << u32::from(self.page_log)
    }

    /// Its pages are of a page's size. For proofs: it does nothing.
    #[inline(always)]
    pub(crate) fn stands(&self)
        ensures { IsPageSize self.now.page_size }
    {
        let _size = self.page_size();
    }
}
