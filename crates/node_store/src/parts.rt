// The parts of a leaf.
ghost use Rattle.std.specs.Prelude.{◌≡◌, ◌↔◌, ◌+◌, ◌^◌, ◌<◌, ◌≤◌, IsTrue};
ghost use Rattle.node_store.specs.Parts.{piece_with};

use tree_geom::Piece;

/// The parts of a leaf: the byte of its page at which its own bytes begin, their two pieces, its back, and how many backs lead
/// on from it. A leaf that stores its page anew has all valid bytes of the page in its first piece.
#[derive(Clone, Copy)]
pub struct LeafParts {
    pub start: u32,
    pub first: Piece,
    pub second: Piece,
    pub back: u64,
    pub depth: u32,
}

impl LeafParts {
    /// The byte of the page at which the leaf's own bytes end.
    #[inline(always)]
    pub fn end(&self) -> usize
        ensures { result ≡ self.now.start + (self.now.first.len + self.now.second.len) }
    {
        self.start as usize + self.first.len as usize + self.second.len as usize
    }

    /// Whether `count` bytes of the page from its byte `begin` on are all the leaf's own.
    pub fn has_all(&self, begin: usize, count: usize) -> bool
        requires { begin + count < 2 ^ 64 }
        ensures { IsTrue result ↔ (self.now.start ≤ begin) × (begin + count ≤ self.now.start + self.now.first.len + self.now.second.len) }
    {
        self.start as usize <= begin && begin + count <= self.end()
    }

    /// Whether any of `count` bytes of the page from its byte `begin` on is the leaf's own.
    #[inline(always)]
    pub fn meets(&self, begin: usize, count: usize) -> bool
        requires { begin + count < 2 ^ 64 }
        ensures { IsTrue result ↔ (begin < self.now.start + (self.now.first.len + self.now.second.len)) × (self.now.start < begin + count) }
    {
        begin < self.end() && (self.start as usize) < begin + count
    }

    /// The piece that has this byte of the page, which is one of the leaf's own.
    pub fn piece_with(&self, byte: usize) -> Piece
        ensures { result ≡ piece_with self.now.start self.now.first self.now.second byte }
    {
        if byte < self.start as usize + self.first.len as usize {
            self.first
        } else {
            self.second
        }
    }
}
