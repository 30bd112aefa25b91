// Nodes as slots hold them, in few bytes.
ghost use Rattle.std.specs.Prelude.{◌≡◌, IfSome, true, false};
ghost use Rattle.tree_geom.specs.declared.node.Node.TheVariants.{Inner};
ghost use Rattle.tree_geom.specs.Nodes.{is_leaf};
ghost use Rattle.node_store.specs.Parts.{IsPartsOf};

use crate::parts::LeafParts;
use std::marker::Model;
use tree_geom::{Node, Piece};

/// An inner node whose links are below 2^32.
#[derive(Drop)]
pub(crate) struct Links {
    left: u32,
    right: u32,
}

impl Model for Links {
    ghost use Rattle.tree_geom.specs.declared.node.Node.{Node};
    ghost use Rattle.tree_geom.specs.declared.node.Node.TheVariants.{Inner};

    ghost Value = { Node };

    ghost view = { λ l. Inner l.left l.right };
}

impl Links {
    /// No links.
    pub(crate) fn none() -> Links {
        Links { left: 0, right: 0 }
    }

    /// The node in few bytes, or None where it is none of these.
    pub(crate) fn of(node: &Node) -> Option<Links>
        ensures { IfSome result (λ links. links ≡ node.now) }
    {
        match node {
            Node::Inner { left, right } => Some(Links {
                left: u32::try_from(*left).ok()?,
                right: u32::try_from(*right).ok()?,
            }),
            Node::Leaf { .. } => None,
        }
    }

    /// The node.
    #[inline(always)]
    pub(crate) fn node(&self) -> Node
        ensures { result ≡ self.now }
    {
        let (left, right) = self.versions();
        Node::Inner { left, right }
    }

    /// The versions that it links to.
    #[inline(always)]
    pub(crate) fn versions(&self) -> (u64, u64)
        ensures { self.now ≡ Inner result.0 result.1 }
    {
        (u64::from(self.left), u64::from(self.right))
    }

    /// It is no leaf. For proofs: it does nothing.
    #[inline(always)]
    pub(crate) fn stands(&self)
        ensures { is_leaf self.now ≡ false }
    {
        let _left = self.left;
    }
}

/// A leaf whose back is below 2^32, and whose second piece, if it has one, begins the stored page after that of the first.
#[derive(Drop)]
pub(crate) struct PlainLeaf {
    start: u32,
    // the first piece
    page: u32,
    from: u32,
    len: u32,
    // the length of the second piece, or 0 where there is none
    more: u32,
    depth: u32,
    back: u32,
}

impl Model for PlainLeaf {
    ghost use Rattle.std.specs.Prelude.{◌<◌};
    ghost use Rattle.tree_geom.specs.declared.node.Node.{Node};
    ghost use Rattle.node_store.specs.Plain.{plain_leaf};

    ghost Value = { Node };

    ghost view = { λ l. plain_leaf l.start l.page l.from l.len l.more l.depth l.back };

    ghost invariant = { λ l. l.page < 4294967295 };
}

impl PlainLeaf {
    /// A leaf without bytes.
    pub(crate) fn none() -> PlainLeaf {
        PlainLeaf {
            start: 0,
            page: 0,
            from: 0,
            len: 0,
            more: 0,
            depth: 0,
            back: 0,
        }
    }

    /// The node in few bytes, or None where it is none of these.
    pub(crate) fn of(node: &Node) -> Option<PlainLeaf>
        ensures { IfSome result (λ leaf. leaf ≡ node.now) }
    {
        match node {
            Node::Leaf {
                start,
                first,
                second,
                depth,
                back,
                ..
            } if first.page < u32::MAX => {
                let leaf = PlainLeaf {
                    start: *start,
                    page: first.page,
                    from: first.from,
                    len: first.len,
                    more: second.len,
                    depth: *depth,
                    back: u32::try_from(*back).ok()?,
                };
                if leaf.node() == *node {
                    Some(leaf)
                } else {
                    None
                }
            }
            _ => None,
        }
    }

    /// The node.
    #[inline(always)]
    pub(crate) fn node(&self) -> Node
        ensures { result ≡ self.now }
    {
        let LeafParts {
            start,
            first,
            second,
            back,
            depth,
        } = self.parts();
        Node::Leaf {
            start,
            count: if self.more == 0 { 1 } else { 2 },
            first,
            second,
            depth,
            back,
        }
    }

    /// It is a leaf. For proofs: it does nothing.
    #[inline(always)]
    pub(crate) fn stands(&self)
        ensures { is_leaf self.now ≡ true }
    {
        let _start = self.start;
    }

    /// Its parts.
    #[inline(always)]
    pub(crate) fn parts(&self) -> LeafParts
        ensures { IsPartsOf self.now result }
    {
        let first = Piece {
            page: self.page,
            from: self.from,
            len: self.len,
        };
        let second = Piece {
            page: if self.more == 0 { 0 } else { self.page + 1 },
            from: 0,
            len: self.more,
        };
        LeafParts {
            start: self.start,
            first,
            second,
            back: u64::from(self.back),
            depth: self.depth,
        }
    }
}
