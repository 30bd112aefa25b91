//! Lists of steps, and what replaying them gives. Pages have 4 bytes, and the caller is caller 1.
use blob_core::{PageList, ReplayFault, Step, World, replay};
use blob_model::{Bytes, Limits, Place};
use std::process::Abort;
use tree_geom::{Node, NodeKey, PageSize, Range};

/// A step of a script.
#[derive(Clone, Copy)]
pub(crate) enum Act {
    /// A new blob.
    Create,
    /// A page of these bytes is stored.
    Page(u64, &'static [u8]),
    /// An update of a blob with the bytes of these pages is numbered.
    Update(u64, Place, &'static [u64]),
    /// The node of a blob's version is stored for so many bytes from an offset on.
    Put(u64, u64, u64, u64),
    /// A page of a blob's version is stored anew.
    Fold(u64, u64, u64),
    /// A blob's version is reported as stored.
    Finish(u64, u64),
    /// A branch of a blob at a version.
    Branch(u64, u64),
    /// So many bytes of a blob's version are read from an offset on.
    Read(u64, u64, u64, u64),
}

// The key of a blob's version for `size` bytes from `offset`.
fn key(blob: u64, version: u64, offset: u64, size: u64) -> NodeKey {
    NodeKey {
        blob,
        version,
        range: Range { offset, size },
    }
}

// Whoever acts.
const CALLER: u32 = 1;

// The step of the world.
fn step_of<R: Abort + AllocGlobal>(rt: &R, act: Act) -> Step {
    match act {
        Act::Create => Step::Create { caller: CALLER },
        Act::Page(page, bytes) => {
            let bytes = Bytes::of(bytes.to_vec(rt.alloc()).expect(rt, "memory"));
            Step::PagePut { page, bytes }
        }
        Act::Update(blob, place, pages) => {
            let pages = PageList::of(pages.to_vec(rt.alloc()).expect(rt, "memory"));
            Step::Assign {
                caller: CALLER,
                blob,
                place,
                pages,
            }
        }
        Act::Put(blob, version, offset, size) => Step::NodePut {
            key: key(blob, version, offset, size),
        },
        Act::Fold(blob, version, page) => Step::FoldPut {
            blob,
            version,
            page,
        },
        Act::Finish(blob, version) => Step::Finish {
            caller: CALLER,
            blob,
            version,
        },
        Act::Branch(blob, version) => Step::Branch {
            caller: CALLER,
            blob,
            version,
        },
        Act::Read(blob, version, offset, length) => Step::Read {
            blob,
            version,
            offset,
            length,
        },
    }
}

// Adds steps to a list.
fn add<R: Abort + AllocGlobal>(rt: &R, steps: &mut Vec<Step>, acts: &[Act]) {
    for act in acts {
        steps.push(step_of(rt, *act)).ok().expect(rt, "memory");
    }
}

/// The world of two lists of steps, one behind the other, or why there is none.
pub(crate) fn world_of<R: Abort + AllocGlobal>(
    rt: &R,
    first: &[Act],
    then: &[Act],
) -> Result<World, ReplayFault> {
    let mut steps = Vec::new(rt.alloc());
    add(rt, &mut steps, first);
    add(rt, &mut steps, then);
    let p = PageSize::new(4).expect(rt, "4 bytes");
    replay(rt.alloc(), Limits::greatest(), p, steps.as_slice())
}

/// A blob's version, an offset, how many bytes are read from there on, and these bytes, or none where it isn't published.
pub(crate) type Look = (u64, u64, u64, u64, Option<&'static [u8]>);

/// Whether a world reads so.
pub(crate) fn reads<R: Abort + AllocGlobal>(rt: &R, world: &World, look: &Look) -> bool {
    let (blob, version, offset, length, want) = *look;
    let read = world.read(rt.alloc(), blob, version, offset, length);
    match (read.expect(rt, "memory"), want) {
        (Some(bytes), Some(want)) => bytes.into_vec().as_slice() == want,
        (None, None) => true,
        _ => false,
    }
}

/// A blob, a version, an offset and how many bytes from there on a node is for; and the node, or none where it isn't stored.
pub(crate) type Stored = ((u64, u64, u64, u64), Option<Node>);

/// Steps behind a beginning, and what the world is then: which version is published of a blob, what is read, and which nodes are
/// stored.
pub(crate) struct Case {
    pub(crate) steps: &'static [Act],
    pub(crate) published: &'static [(u64, Option<u64>)],
    pub(crate) looks: &'static [Look],
    pub(crate) nodes: &'static [Stored],
}

// Whether the world is as the case says.
fn is_so<R: Abort + AllocGlobal>(rt: &R, world: &World, case: &Case) -> bool {
    for (blob, version) in case.published {
        if world.published(*blob) != *version {
            return false;
        }
    }
    for ((blob, version, offset, size), node) in case.nodes {
        if world.node(key(*blob, *version, *offset, *size)) != *node {
            return false;
        }
    }
    for look in case.looks {
        if !reads(rt, world, look) {
            return false;
        }
    }
    true
}

/// Checks what the world is behind a beginning.
pub(crate) fn check_case<R: Abort + AllocGlobal>(rt: &R, first: &[Act], case: &Case) {
    let world = world_of(rt, first, case.steps).expect(rt, "steps that are allowed");
    assert!(rt; is_so(rt, &world, case));
}

/// Checks that the step of this number, from 1, is the first that isn't allowed.
pub(crate) fn check_fault<R: Abort + AllocGlobal>(
    rt: &R,
    first: &[Act],
    then: &[Act],
    step: usize,
) {
    let fault = world_of(rt, first, then).err();
    assert!(rt; fault == Some(ReplayFault::NotPossible(step)));
}
