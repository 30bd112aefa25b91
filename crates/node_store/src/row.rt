// The nodes of one update, by range.
ghost use Rattle.std.specs.Prelude.{◌≡◌, ℕ, ◌+◌, ◌*◌, ◌^◌, ◌<◌, ◌≤◌, [], length, IfOk, MatchOption, Some, slice_get};
ghost use Rattle.std.specs.List.{zip};
ghost use Rattle.std.specs.Arc.{arc_value};
ghost use Rattle.tree_geom.specs.Geometry.{tree_range};
ghost use Rattle.range_log.specs.Rows.{levels_of};
ghost use Rattle.node_store.specs.UpdateRows.{bytes_of_page, stored_of, IsNodeFor, HasNoNodeFor, HasRangesOf};
ghost use Rattle.node_store.specs.RowPages.{pages_in, folds_in};
ghost use Rattle.page_store.specs.Stored.{bytes_of_pages};

use crate::NoMemory;
use crate::folds::Folds;
use crate::house::{NodeRef, RowNodes};
use crate::index::index_at_height;
use crate::shape::Shape;
use page_store::{Pages, StoredPage};
use range_log::index_in_row;
use std::alloc::Global;
use std::marker::Model;
use std::sync::Arc;
use std::sync::ledger::Ledger;
use tree_geom::{PageSize, Range, Steps, Touch};

// The update's pages and those of the blob that it stores anew.
#[derive(Drop)]
struct Both {
    pages: Arc<Pages>,
    folds: Folds,
}

// The pages of a row. Most rows store no page of the blob anew.
#[derive(Drop)]
enum Stored {
    Own(Arc<Pages>),
    Folding(Box<Both>),
}

impl Stored {
    // The update's own.
    #[inline(always)]
    fn pages(&self) -> &Pages
        ensures { result.now ≡ pages_in self.now }
    {
        match self {
            Stored::Own(pages) => pages,
            Stored::Folding(both) => &both.pages,
        }
    }
}

/// All nodes of one update, where they lie in the house, the update's pages, and the pages of the blob that it stores anew.
///
/// The nodes stand by the size of their ranges, the largest first, and then by offset, and there is one for each range of a tree of
/// the row's height that the update touches. So a row keeps no range: where a range's node stands follows from what the update
/// touches. The nodes are of the blob and the version under which the update was made.
pub struct Row {
    blob: u64,
    offset: u64,
    stored: Stored,
    // what a look at a node needs stands side by side
    nodes: RowNodes,
    shape: Shape,
}

// By hand, so that it is one call wherever a row is let go: a derived drop stands, with all its calls, at each such place.
impl Drop for Row {
    fn drop(self) {
        let Row {
            blob: _,
            offset: _,
            stored: _,
            nodes: _,
            shape: _,
        } = self;
    }
}

impl Model for Row {
    ghost use Rattle.std.specs.Prelude.{◌+◌};
    ghost use Rattle.std.specs.List.{zip};
    ghost use Rattle.range_log.specs.Rows.{levels_of};
    ghost use Rattle.node_store.specs.UpdateRows.{UpdateRow};
    ghost use Rattle.node_store.specs.RowPages.{pages_in, folds_in};
    ghost use Rattle.node_store.specs.RowKept.{KeepsRow};

    ghost Value = { UpdateRow };

    ghost view = { λ r.
        record {
          blob = r.blob;
          version = r.shape.version;
          offset = r.offset;
          touch = r.shape.touch;
          nodes = zip (levels_of r.shape.page_size r.shape.touch (r.shape.height + 1)) r.nodes.nodes;
          spot = r.nodes.spot;
          pages = pages_in r.stored;
          folds = folds_in r.stored;
        } };

    ghost invariant = { KeepsRow };
}

impl Row {
    /// The row of an update of that version, which begins at byte `offset` of the blob, touches `touch`, has these pages and stores
    /// those pages of the blob anew, in a tree of that height over pages of `p` bytes. Its nodes are of that version: those of the
    /// ranges that it touches, in the order of a row. It takes memory where there are pages that are stored anew, and else none.
    pub fn of(
        alloc: Global,
        blob: u64,
        version: u32,
        offset: u64,
        touch: Touch,
        p: PageSize,
        height: u32,
        pages: Arc<Pages>,
        folds: Folds,
        nodes: RowNodes,
    ) -> Result<Row, NoMemory>
        requires version { version ≡ nodes.version }
        requires height { height ≤ 38 }
        requires ordered { touch.first ≤ touch.last }
        requires fits { touch.last * p ≤ 2 ^ 40 }
        requires whole { length nodes.nodes ≡ length (levels_of p touch (height + 1)) }
        ensures { IfOk result (λ row. row ≡ record {
          blob = blob;
          version = nodes.version;
          offset = offset;
          touch = touch;
          nodes = zip (levels_of p touch (height + 1)) nodes.nodes;
          spot = nodes.spot;
          pages = arc_value pages;
          folds = folds;
        }) }
    {
        let stored = kept(alloc, pages, folds)?;
        Ok(Row {
            blob,
            offset,
            stored,
            nodes,
            shape: Shape::of(touch, version, height, p),
        })
    }

    /// The blob under which the update was made.
    pub fn blob(&self) -> u64
        ensures { result ≡ self.now.blob }
    {
        self.blob
    }

    /// The version of the update.
    pub fn version(&self) -> u64
        ensures { result ≡ self.now.version }
    {
        self.shape.version()
    }

    /// The byte of the blob at which the update begins.
    pub fn offset(&self) -> u64
        ensures { result ≡ self.now.offset }
    {
        self.offset
    }

    /// What the update touches, and the blob's size after it.
    pub fn touch(&self) -> Touch
        ensures { result ≡ self.now.touch }
    {
        self.shape.touch()
    }

    #[inline(always)]
    /// The node of that range, or None where the row has none. In both cases it takes one node step, and beside `at_height`, which
    /// takes as many, there is no other way from a row to a node. The node's index is computed, and no other node is looked at.
    pub fn at<L: Ledger>(&self, range: Range, steps: &mut Steps<L>) -> Option<NodeRef<'_>>
        ensures node { MatchOption result (HasNoNodeFor self.now range) (λ node. IsNodeFor self.now range node) }
        ensures step { steps.new ≡ steps.old + 1 }
    {
        steps.tick(); // found or not
        let count = self.nodes.count();
        let (touch, height) = (self.shape.touch(), self.shape.height());
        let p = self.shape.page_size();
        match index_in_row(p, height, &touch, count, range) {
            Some(index) => Some(self.nodes.node(index)),
            None => None,
        }
    }

    #[inline(always)]
    /// The node of range number `number`, counted from 0, among those of 2 to the power `height` pages, or None where the row has
    /// none. In both cases it takes one node step, and beside `at` there is no other way from a row to a node. The node's index is
    /// computed, from what the update touches alone, and no other node is looked at.
    pub fn at_height<L: Ledger>(
        &self,
        height: u32,
        number: u64,
        steps: &mut Steps<L>,
    ) -> Option<NodeRef<'_>>
        ensures node { (p : ℕ) → HasRangesOf p self.now
            → MatchOption result (HasNoNodeFor self.now (tree_range p height number)) (λ node. IsNodeFor self.now (tree_range p height number) node) }
        ensures step { steps.new ≡ steps.old + 1 }
    {
        steps.tick();
        self.shape.stands();
        let count = self.nodes.count();
        let (touch, top) = (self.shape.touch(), self.shape.height());
        match index_at_height(top, &touch, count, height, number) {
            Some(place) => Some(self.nodes.node(place)),
            None => None,
        }
    }

    /// The stored pages of the update.
    pub fn pages(&self) -> &Pages
        ensures { result.now ≡ self.now.pages }
    {
        self.stored.pages()
    }

    /// The pages of the blob that the update stores anew, or None where there are none.
    pub fn folds(&self) -> Option<&Folds>
        ensures { MatchOption result (self.now.folds ≡ []) (λ folds. folds.now ≡ self.now.folds) }
    {
        match &self.stored {
            Stored::Own(_pages) => None,
            Stored::Folding(both) => Some(&both.folds),
        }
    }

    /// The stored page `q`, counted from 0, to which a piece of that number leads: first come the update's pages, of which page
    /// `q` begins `q` page sizes after the update's first byte, and then those that it stores anew. `q` is below the number of
    /// all of them.
    pub fn page(&self, q: u32) -> &StoredPage
        requires { q < length (stored_of self.now) }
        ensures this { slice_get (stored_of self.now) q ≡ Some result.now }
        ensures bytes { q < length self.now.pages.pages
            → result.now.bytes ≡ bytes_of_page self.now.pages.page_size (bytes_of_pages self.now.pages.pages) q }
    {
        let pages = self.stored.pages();
        let count = pages.count();
        if q < count {
            return pages.page(q);
        }
        match &self.stored {
            Stored::Own(_pages) => unreachable!(),
            Stored::Folding(both) => both.folds.page(q - count),
        }
    }
}

// The pages as a row keeps them.
fn kept(alloc: Global, pages: Arc<Pages>, folds: Folds) -> Result<Stored, NoMemory>
    ensures pages { IfOk result (λ stored. pages_in stored ≡ arc_value pages) }
    ensures folds { IfOk result (λ stored. folds_in stored ≡ folds) }
{
    if folds.count() == 0 {
        return Ok(Stored::Own(pages));
    }
    Ok(Stored::Folding(Box::new(alloc, Both { pages, folds })?))
}
