// The borders of an update's row, and their newest lower versions.
ghost use Rattle.std.specs.Prelude.{◌≡◌, ◌⊎◌, ℕ, ◌+◌, ◌/◌, ◌^◌, ◌<◌, ◌≤◌, ◌↔◌, List, IsTrue};
ghost use Rattle.tree_geom.specs.declared.touch.Touch.{Touch};
ghost use Rattle.tree_geom.specs.Geometry.{tree_range, page_range, height_of};
ghost use Rattle.range_log.specs.Log.{newest_of, touch_at};
ghost use Rattle.range_log.specs.Depths.{depth_of};
ghost use Rattle.border_hints.specs.Borders.{AreBorders, IsBorder, KnowsEdge, beside, edge_links};

use range_log::deeper;
use std::marker::Model;
use tree_geom::{PageSize, Range, Touch, height};

// The heights of the ranges of a tree, from a page's, 0, to the greatest root's, 38.
const HEIGHTS: usize = 39;

/// The newest lower versions along the path from the root to an edge of the row. No blob has more versions than fit in 32 bits.
#[derive(Drop)]
pub(crate) struct Edge {
    // at each height, that for the range beside the one on the path
    pub besides: [u32; HEIGHTS],
    // that for the page at the end of the path
    pub leaf: u32,
    // how deep the leaf of that version lies, 0 where there is none
    pub depth: u32,
}

impl Edge {
    /// An edge of which nothing is known yet.
    pub(crate) fn blank() -> Edge {
        Edge {
            besides: [0; HEIGHTS],
            leaf: 0,
            depth: 0,
        }
    }
}

/// The newest lower versions for the ranges over the borders of an update's row: the halves of its nodes that it doesn't
/// touch, and its first and its last page. Of these two pages it tells as well how deep the leaves lie: how many backs lead
/// on from a leaf, one after another.
#[derive(Drop)]
pub struct Borders {
    pub(crate) page_size: PageSize,
    pub(crate) touch: Touch,
    pub(crate) first: Edge,
    // none where the first page is the last one
    pub(crate) last: Option<Edge>,
}

impl Model for Borders {
    ghost use Rattle.std.specs.Prelude.{◌^◌, ◌≤◌, unwrap_or};
    ghost use Rattle.tree_geom.specs.Geometry.{span_of};
    ghost use Rattle.border_hints.specs.Borders.{BorderLinks, edge_links};

    ghost Value = { BorderLinks };

    ghost view = { λ b. record {
      page_size = b.page_size;
      touch = b.touch;
      first = edge_links b.first.besides b.first.leaf b.first.depth;
      last = let last = unwrap_or b.last b.first in edge_links last.besides last.leaf last.depth;
    } };

    ghost invariant = { λ b. (b.touch.first ≤ b.touch.last) × (span_of b.page_size b.touch.size ≤ 2 ^ 40)
        × (b.first.depth ≤ 2 ^ 21) × ((unwrap_or b.last b.first).depth ≤ 2 ^ 21) };
}

// Whether the range is that page's, of `size` bytes.
fn is_page(range: Range, size: u64, page: u64) -> bool
    requires { 0 < size }
    ensures { IsTrue result ↔ ((range.size ≡ size) × (range.offset / size ≡ page)) }
{
    range.size == size && range.offset / size == page
}

impl Borders {
    /// The newest lower version that touches the range, or 0. The range is a half that the update doesn't touch, of a node of
    /// its row, or the range of its first or its last page.
    pub fn of(&self, range: Range) -> u64
        requires { IsBorder self.now.page_size self.now.touch range }
        ensures { (log : List Touch) (k : ℕ) → AreBorders log k self.now → result ≡ newest_of self.now.page_size log k range }
    {
        tree_geom::laws::spans_hold();
        tree_geom::laws::ranges_align();
        let size = self.page_size.bytes();
        if is_page(range, size, self.touch.first) {
            return self.leaf(self.touch.first);
        }
        if is_page(range, size, self.touch.last) {
            return self.leaf(self.touch.last);
        }
        let level = height(self.page_size, range.size);
        if range.offset / size < self.touch.first {
            self.below(level)
        } else {
            self.above(level)
        }
    }

    /// The newest lower version that touches the range beside the first page's way down the tree, at a height below the root's, or 0.
    /// Where that range comes before the one on the way, it lies before all pages that the update touches.
    pub fn below(&self, level: u32) -> u64
        requires { level < height_of self.now.page_size self.now.touch.size }
        ensures { (log : List Touch) (k : ℕ) → AreBorders log k self.now
            → result ≡ newest_of self.now.page_size log k (tree_range self.now.page_size level (beside (self.now.touch.first / 2 ^ level))) }
    {
        tree_geom::laws::spans_hold();
        self.page_size.stands();
        u64::from(self.edge(self.touch.first).besides[level as usize])
    }

    /// The same beside the last page's way down. Where that range comes behind the one on the way, it lies behind all pages that
    /// the update touches.
    pub fn above(&self, level: u32) -> u64
        requires { level < height_of self.now.page_size self.now.touch.size }
        ensures { (log : List Touch) (k : ℕ) → AreBorders log k self.now
            → result ≡ newest_of self.now.page_size log k (tree_range self.now.page_size level (beside (self.now.touch.last / 2 ^ level))) }
    {
        tree_geom::laws::spans_hold();
        self.page_size.stands();
        u64::from(self.edge(self.touch.last).besides[level as usize])
    }

    /// The newest lower version with a leaf of the update's first or its last page, or 0.
    pub fn leaf(&self, page: u64) -> u64
        requires edge { (page ≡ self.now.touch.first) ⊎ (page ≡ self.now.touch.last) }
        ensures { (log : List Touch) (k : ℕ) → AreBorders log k self.now
            → result ≡ newest_of self.now.page_size log k (page_range self.now.page_size page) }
    {
        u64::from(self.edge(page).leaf)
    }

    /// How deep the update's own leaf of its first or its last page lies, which is how many backs lead on from it: 0 where
    /// the update covers the page, else one more than from the newest lower leaf of the page, and 0 again where the update
    /// stores the page anew.
    pub fn depth(&self, page: u64) -> u32
        requires edge { (page ≡ self.now.touch.first) ⊎ (page ≡ self.now.touch.last) }
        ensures { (log : List Touch) (k : ℕ) → AreBorders log k self.now → touch_at log (k + 1) ≡ self.now.touch
            → result ≡ depth_of self.now.page_size log (k + 1) page }
    {
        tree_geom::laws::meets_is_decided();
        self.page_size.stands();
        if !self.touch.leaves_open(page) {
            return 0;
        }
        deeper(self.edge(page).depth)
    }

    // The edge of the row at the update's first or its last page.
    fn edge(&self, page: u64) -> &Edge
        requires { (page ≡ self.now.touch.first) ⊎ (page ≡ self.now.touch.last) }
        ensures knows { (log : List Touch) (k : ℕ) → AreBorders log k self.now
            → KnowsEdge self.now.page_size log k (height_of self.now.page_size self.now.touch.size) page
            (edge_links result.now.besides result.now.leaf result.now.depth) }
        ensures few { result.now.depth ≤ 2 ^ 21 }
    {
        if page == self.touch.first {
            return &self.first;
        }
        match &self.last {
            Some(last) => last,
            None => &self.first,
        }
    }
}
