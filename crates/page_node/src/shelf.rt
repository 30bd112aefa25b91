//! What a node keeps.
ghost use Rattle.std.specs.Prelude.{◌≡◌, ℕ, ◌≤◌, List, [], ◌∷◌, ◌++◌, length, IfOk, IfErr};
ghost use Rattle.page_node.specs.Node.{NodeAnswers, IsPut, put_reply, put_result, get_reply, page_reply};
ghost use Rattle.page_node.specs.declared.form.NodeHeard.TheVariants.{Asked};
ghost use Rattle.page_node.specs.declared.form.NodeRequest.TheVariants as Requests;
ghost use Rattle.page_node.specs.declared.form.NodeReply.TheVariants as Replies;

use crate::form::{NodeFault, NodeHeard, NodeReply, NodeRequest};
use blob_model::Bytes;
use faults::NoMemory;
use std::alloc::Global;
use std::marker::Model;
use std::mem;
use tree_geom::PageSize;

// How many pages there is room for at first.
const ROOM: usize = 16;

// A page: at most 1,048,576 bytes.
#[derive(Drop)]
struct KeptPage {
    bytes: Vec<u8>,
}

impl Model for KeptPage {
    ghost use Rattle.std.specs.Prelude.{ℕ, ◌≤◌, List, length};

    ghost Value = { List ℕ };

    ghost view = { λ p. p.bytes.items };

    ghost invariant = { λ p. length p.bytes.items ≤ 1048576 };
}

impl KeptPage {
    // The page's bytes.
    fn as_slice(&self) -> &[u8]
        ensures bytes { result.now ≡ self.now }
        ensures few { length result.now ≤ 1048576 }
    {
        self.bytes.as_slice()
    }
}

/// The pages of a node, in the order in which they were put. A page has 1 byte up to the page size.
#[derive(Drop)]
pub struct Shelf {
    alloc: Global,
    page_size: PageSize,
    pages: Vec<KeptPage>,
}

impl Model for Shelf {
    ghost use Rattle.page_node.specs.Node.{Node};

    ghost Value = { Node };

    ghost view = { λ s. record { page_size = s.page_size; pages = s.pages.items } };
}

impl Shelf {
    /// A shelf without pages, for pages of at most `p` bytes.
    pub fn new(alloc: Global, p: PageSize) -> Result<Shelf, NoMemory>
        ensures { IfOk result (λ shelf. shelf ≡ record { page_size = p; pages = [] }) }
    {
        Ok(Shelf {
            alloc,
            page_size: p,
            pages: Vec::with_capacity(alloc, ROOM)?,
        })
    }

    /// What its memory is taken from.
    pub(crate) fn allocator(&self) -> Global {
        self.alloc
    }

    // Takes all pages out. It takes no memory.
    pub(crate) fn take(&mut self) -> Shelf
        ensures { result ≡ self.old }
    {
        let pages = mem::replace(&mut self.pages, Vec::new(self.alloc));
        Shelf {
            alloc: self.alloc,
            page_size: self.page_size,
            pages,
        }
    }

    /// How many pages there are.
    pub fn count(&self) -> u64
        ensures { result ≡ length self.now.pages }
    {
        self.pages.len() as u64
    }

    /// The id that a put of so many bytes gets, or why it is refused, but for want of memory.
    pub fn next_id(&self, count: usize) -> Result<u64, NodeFault>
        ensures id { (bytes : List ℕ) → length bytes ≡ count → put_result result ≡ put_reply self.now bytes }
        ensures few { IfOk result (λ id. count ≤ 1048576) }
    {
        if count == 0 {
            return Err(NodeFault::EmptyUpdate);
        }
        let length = count as u64;
        if length > self.page_size.bytes() {
            return Err(NodeFault::UpdateTooLong { length });
        }
        Ok(self.count())
    }

    /// Keeps a page, and answers its id, which is its place from 0. A refused put leaves all as it was.
    pub fn put(&mut self, bytes: Vec<u8>) -> Result<u64, NodeFault>
        ensures { IsPut self.old bytes.items result self.new }
    {
        let id = self.next_id(bytes.len())?;
        match self.pages.push(KeptPage { bytes }) {
            Ok(()) => Ok(id),
            Err(_) => Err(NodeFault::NoMemory),
        }
    }

    /// The same of a copy of these bytes, which is made only where the put isn't refused.
    pub fn put_copy(&mut self, bytes: &[u8]) -> Result<u64, NodeFault>
        ensures { IsPut self.old bytes.now result self.new }
    {
        let _id = self.next_id(bytes.len())?;
        match Vec::from_slice(self.alloc, bytes) {
            Ok(copy) => self.put(copy),
            Err(_) => Err(NodeFault::NoMemory),
        }
    }

    /// `count` bytes of the page with that id, from byte `from` on.
    pub fn get(&self, id: u64, from: u64, count: u64) -> Result<&[u8], NodeFault>
        ensures given { IfOk result (λ bytes. get_reply self.now id from count ≡ Replies.Given bytes.now) }
        ensures refused { IfErr result (λ fault. get_reply self.now id from count ≡ Replies.Refused fault) }
        ensures few { IfOk result (λ bytes. length bytes.now ≤ 1048576) }
    {
        match self.pages.get(id as usize) {
            Some(page) => part_of(page.as_slice(), from, count),
            None => Err(NodeFault::NoPage { id }),
        }
    }

    // The reply to a get.
    fn give(&self, id: u64, from: u64, length: u64) -> NodeReply
        ensures { NodeAnswers self.now (Asked (Requests.Get id from length)) result self.now }
    {
        match self.get(id, from, length) {
            Ok(bytes) => match Vec::from_slice(self.alloc, bytes) {
                Ok(copy) => NodeReply::Given {
                    bytes: Bytes::of(copy),
                },
                Err(_) => NodeReply::Refused(NodeFault::NoMemory),
            },
            Err(fault) => NodeReply::Refused(fault),
        }
    }

    /// The reply to one frame.
    pub fn answer(&mut self, heard: NodeHeard) -> NodeReply
        ensures { NodeAnswers self.old heard result self.new }
    {
        match heard {
            NodeHeard::Asked(NodeRequest::Put { bytes }) => match self.put(bytes.into_vec()) {
                Ok(id) => NodeReply::Kept { id },
                Err(fault) => NodeReply::Refused(fault),
            },
            NodeHeard::Asked(NodeRequest::Get { id, from, length }) => self.give(id, from, length),
            NodeHeard::Asked(NodeRequest::Quit) => NodeReply::Bye,
            NodeHeard::Wrong(fault) => NodeReply::Refused(fault),
        }
    }
}

// `count` bytes of a page, from byte `from` on.
fn part_of(page: &[u8], from: u64, count: u64) -> Result<&[u8], NodeFault>
    ensures given { IfOk result (λ bytes. page_reply page.now from count ≡ Replies.Given bytes.now) }
    ensures refused { IfErr result (λ fault. page_reply page.now from count ≡ Replies.Refused fault) }
    ensures few { IfOk result (λ bytes. length bytes.now ≤ length page.now) }
{
    let end = u128::from(from) + u128::from(count);
    let there = page.len() as u64;
    if end > u128::from(there) {
        return Err(NodeFault::PastPage { end, length: there });
    }
    Ok(&page[from as usize..end as usize])
}
