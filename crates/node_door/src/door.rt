//! A door to a node at the other end of a stream.
ghost use Rattle.std.specs.Prelude.{◌≡◌, ℕ, ◌+◌, ◌≤◌, ◌++◌, ◌↔◌, [], ⊤, true, false, IfOk, length, slice_range};
ghost use Rattle.faults.specs.Counts.{count_after};
ghost use Rattle.page_store.specs.Page.{IsIn};
ghost use Rattle.page_store.specs.Count.{HasRisen};
ghost use Rattle.page_store.specs.Answers.{IfStored, OnPutFailed, OnGot, OnGetFailed};
ghost use Rattle.node_door.specs.declared.wire.Exchanged.TheVariants as Exchange;
ghost use Rattle.node_door.specs.Door.{IsTalked, id_of, DoorCalled, PutCalled, OwnGetCalled, GetCalled};

use crate::own::OwnPages;
use crate::wire::{Exchanged, Wire};
use faults::count_up;
use page_node::saying::{get_frame, put_front};
use page_store::{Door, GetAnswer, MAX_PAGE, NoMemory, PageHouse, PageRef, PutAnswer};
use ports::stream::{Sink, Source};
use std::alloc::Global;
use std::marker::Model;
use std::sync::Wait;
use tree_geom::PageSize;

// A link, with room for the bytes of a reply, and whether it is used no more.
#[derive(Drop)]
struct Way<I: Source + Sink> {
    wire: Wire<I>,
    room: Vec<u8>,
    spent: bool,
}

impl<I: Source + Sink> Model for Way<I> {
    ghost use Rattle.std.specs.Prelude.{◌<◌, length};
    ghost use Rattle.node_door.specs.Door.{WayAt};

    ghost Value = { WayAt };

    ghost view = { λ w. record { link = w.wire; room = length w.room.items; spent = w.spent } };

    ghost invariant = { λ w. 0 < length w.room.items };
}

impl<I: Source + Sink> Way<I> {
    // A way over a link, with room for a page.
    fn new(alloc: Global, p: PageSize, io: I) -> Result<Way<I>, NoMemory>
    where
        I: Drop,
        ensures { IfOk result (λ way. way ≡ record {
          link = record {
            given = I.given io;
            left = I.left io;
            written = I.written io;
            read_faults = I.read_faults io;
            write_faults = I.write_faults io;
            ends = I.ends io;
          };
          room = p;
          spent = false;
        }) }
    {
        let size = p.bytes() as usize;
        Ok(Way {
            wire: Wire::new(io),
            room: vec![in alloc; 0u8; size]?,
            spent: false,
        })
    }

    // The link.
    fn into_link(self) -> I
        ensures { self.link ≡ record {
          given = I.given result;
          left = I.left result;
          written = I.written result;
          read_faults = I.read_faults result;
          write_faults = I.write_faults result;
          ends = I.ends result;
        } }
    {
        let Way { wire, .. } = self;
        wire.into_io()
    }

    // Whether it is used no more.
    fn is_spent(&self) -> bool
        ensures { result ≡ self.now.spent }
    {
        self.spent
    }

    // Writes a frame in two parts and reads the reply. Where there is none, the way is used no more.
    fn talk(&mut self, front: &[u8], bytes: &[u8], want: &[u8]) -> Exchanged
        ensures { IsTalked (front.now ++ bytes.now) want.now self.old self.new result }
    {
        let room = self.room.as_mut_slice();
        let exchanged = self.wire.exchange(room, front, bytes, want);
        if exchanged == Exchanged::Broken {
            self.spent = true;
        }
        exchanged
    }
}

/// A session's way to a node, over a link that is a source and a sink.
///
/// A page that it stored is at the node and in the provider's house too. A get of such a page asks the node for the bytes and
/// compares them with the house's; one of a page that another door stored is answered from the house alone. So what it gives is
/// right over every link. A page counts as this door's own by its place in the house.
///
/// It fails, and counts that, where the link fails or ends, and where the link gives another reply than the one that is asked for.
/// After a fault of the link, its end, or bytes that are no reply of a node, the door is spent: it doesn't use the link again, and
/// each call that needs the link fails.
#[derive(Drop)]
pub struct StreamDoor<I: Source + Sink> {
    provider: u32,
    way: Way<I>,
    own: OwnPages,
    faults: u64,
}

impl<I: Source + Sink> Model for StreamDoor<I> {
    ghost use Rattle.node_door.specs.Door.{DoorAt};

    ghost Value = { DoorAt };

    ghost view = { λ d. record { provider = d.provider; link = d.way.link; room = d.way.room; own = d.own.pages; spent = d.way.spent; faults = d.faults } };
}

impl<I: Source + Sink> StreamDoor<I> {
    /// A door to the node at the other end of a link, for the provider of that number, with no fault counted. It makes room for
    /// the bytes of one page of that size, and reads what is longer in pieces.
    pub fn new(alloc: Global, provider: u32, p: PageSize, io: I) -> Result<StreamDoor<I>, NoMemory>
    where
        I: Drop,
        ensures { IfOk result (λ door. door ≡ record {
          provider = provider;
          link = record {
            given = I.given io;
            left = I.left io;
            written = I.written io;
            read_faults = I.read_faults io;
            write_faults = I.write_faults io;
            ends = I.ends io;
          };
          room = p;
          own = [];
          spent = false;
          faults = 0;
        }) }
    {
        Ok(StreamDoor {
            provider,
            way: Way::new(alloc, p, io)?,
            own: OwnPages::new(alloc),
            faults: 0,
        })
    }

    /// The number of its provider.
    pub fn provider(&self) -> u32
        ensures { result ≡ self.now.provider }
    {
        self.provider
    }

    /// How many calls have failed, up to the greatest u64.
    pub fn faults(&self) -> u64
        ensures { result ≡ self.now.faults }
    {
        self.faults
    }

    /// Whether it doesn't use the link any more.
    pub fn is_spent(&self) -> bool
        ensures { result ≡ self.now.spent }
    {
        self.way.is_spent()
    }

    /// The link.
    pub fn into_link(self) -> I
        ensures { self.link ≡ record {
          given = I.given result;
          left = I.left result;
          written = I.written result;
          read_faults = I.read_faults result;
          write_faults = I.write_faults result;
          ends = I.ends result;
        } }
    {
        let StreamDoor { way, .. } = self;
        way.into_link()
    }

    // Counts a fault.
    fn fail(&mut self)
        ensures { self.new ≡ record {
          provider = self.old.provider;
          link = self.old.link;
          room = self.old.room;
          own = self.old.own;
          spent = self.old.spent;
          faults = count_after 1 self.old.faults;
        } }
    {
        self.faults = count_up(self.faults);
    }
}

// Whether the wanted bytes came.
fn is_same(exchanged: Exchanged) -> bool
    ensures same { result ≡ true → exchanged ≡ Exchange.Same }
    ensures other { result ≡ false → (exchanged ≡ Exchange.Same) → ⊥ }
{
    matches!(exchanged, Exchanged::Same)
}

impl<I: Source + Sink> StreamDoor<I> {
    // Gets bytes of a page that this door stored, and that the node has under that id.
    fn get_own(
        &mut self,
        house: &PageHouse,
        page: &PageRef,
        id: u64,
        from: u32,
        out: &mut [u8],
    ) -> GetAnswer
        requires here { IsIn house.now page.now.spot }
        requires room { from + length out.old ≤ length page.now.bytes }
        ensures copied { out.new ≡ slice_range page.now.bytes from (from + length out.old) }
        ensures asked { OwnGetCalled self.old id from (slice_range page.now.bytes from (from + length out.old)) result self.new }
    {
        house.copy_to(page, from, out);
        if self.way.is_spent() {
            self.fail();
            return GetAnswer::Failed;
        }
        let front = get_frame(id, u64::from(from), out.len() as u64);
        let exchanged = self.way.talk(front.as_slice(), &[], out);
        if is_same(exchanged) {
            return GetAnswer::Got;
        }
        self.fail();
        GetAnswer::Failed
    }

    // Puts a page, as `put` says.
    fn put_page<R: Wait>(&mut self, rt: &R, house: &PageHouse, bytes: &[u8]) -> PutAnswer
        requires some { 1 ≤ length bytes.now }
        requires small { length bytes.now ≤ MAX_PAGE }
        ensures put { PutCalled self.old bytes.now result self.new }
        ensures here { IfStored result (λ page. IsIn house.now page.spot) }
        ensures bytes { IfStored result (λ page. page.bytes ≡ bytes.now) }
    {
        if self.way.is_spent() {
            self.fail();
            return PutAnswer::Failed;
        }
        if self.own.reserve().is_err() {
            return PutAnswer::NoMemory;
        }
        let front = put_front(bytes.len() as u32);
        match self.way.talk(front.as_slice(), bytes, &[]) {
            Exchanged::Kept(id) => match house.put(rt, bytes) {
                Ok(page) => {
                    self.own.add(page.place(), id);
                    PutAnswer::Stored(page)
                }
                Err(NoMemory) => PutAnswer::NoMemory,
            },
            Exchanged::NoMemory => PutAnswer::NoMemory,
            Exchanged::Same | Exchanged::Other | Exchanged::Broken => {
                self.fail();
                PutAnswer::Failed
            }
        }
    }

    // Gets bytes of a page, as `get` says.
    fn get_page(
        &mut self,
        house: &PageHouse,
        page: &PageRef,
        from: u32,
        out: &mut [u8],
    ) -> GetAnswer
        requires here { IsIn house.now page.now.spot }
        requires room { from + length out.old ≤ length page.now.bytes }
        ensures copied { out.new ≡ slice_range page.now.bytes from (from + length out.old) }
        ensures get { GetCalled (id_of self.old.own page.now.spot.place) self.old from (slice_range page.now.bytes from (from + length out.old)) result self.new }
    {
        match self.own.id(page.place()) {
            Some(id) => self.get_own(house, page, id, from, out),
            None => {
                house.copy_to(page, from, out);
                GetAnswer::Got
            }
        }
    }
}

impl<I: Source + Sink> Door for StreamDoor<I> {
    ghost use Rattle.std.specs.Prelude.{⊤};
    ghost use Rattle.node_door.specs.Door.{DoorCalled};

    ghost is_true = { λ _. ⊤ };

    ghost faults = { λ d. d.faults };

    ghost called = { DoorCalled };

    /// Stores the page at the node and in the house. It answers that the page is stored only where the node's reply to this put came
    /// in this call. Where memory is refused for the page's id, at the node or in the house, it answers that, and the node's page may
    /// lie unused. No contract sees what lies in a house unused.
    fn put<R: Wait>(&mut self, rt: &R, house: &PageHouse, bytes: &[u8]) -> PutAnswer
        requires some { 1 ≤ length bytes.now }
        requires small { length bytes.now ≤ MAX_PAGE }
        ensures put { PutCalled self.old bytes.now result self.new }
        ensures here { IfStored result (λ page. IsIn house.now page.spot) }
        ensures bytes { IfStored result (λ page. page.bytes ≡ bytes.now) }
        ensures called { DoorCalled self.old self.new }
        ensures failed { OnPutFailed result (HasRisen self.old.faults self.new.faults) }
        ensures never_falls { self.old.faults ≤ self.new.faults }
        ensures truth_stays { ⊤ ↔ ⊤ }
    {
        let _faults = self.faults();
        self.put_page(rt, house, bytes)
    }

    /// Asks the node for a page that this door stored, and compares what it gives with the house's bytes. A page that another door
    /// stored comes from the house, and nothing is written to the link. `out` holds the house's bytes in each case.
    fn get(&mut self, house: &PageHouse, page: &PageRef, from: u32, out: &mut [u8]) -> GetAnswer
        requires here { IsIn house.now page.now.spot }
        requires room { from + length out.old ≤ length page.now.bytes }
        ensures get { GetCalled (id_of self.old.own page.now.spot.place) self.old from (slice_range page.now.bytes from (from + length out.old)) result self.new }
        ensures copied { out.new ≡ slice_range page.now.bytes from (from + length out.old) }
        ensures got { OnGot result (⊤ → out.new ≡ slice_range page.now.bytes from (from + length out.old)) }
        ensures called { DoorCalled self.old self.new }
        ensures failed { OnGetFailed result (HasRisen self.old.faults self.new.faults) }
        ensures never_falls { self.old.faults ≤ self.new.faults }
        ensures truth_stays { ⊤ ↔ ⊤ }
    {
        let _faults = self.faults();
        self.get_page(house, page, from, out)
    }
}
