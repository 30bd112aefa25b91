//! A blob whose updates are numbered, planned and finished as in a store, at whichever version was published.
ghost use Rattle.std.specs.Prelude.{◌≡◌, ◌+◌, ◌-◌, ◌<◌, ◌≤◌, [], length, take, drop, IfOk};
ghost use Rattle.tree_geom.specs.declared.touch.Touch.{Touch};
ghost use Rattle.page_store.specs.Stored.{bytes_of_pages};
ghost use Rattle.publisher.specs.Windows.{opens_from};
ghost use Rattle.std.specs.Arc.{arc_value};
ghost use Rattle.snapshot.specs.Versions.{older_version};
ghost use Rattle.border_hints.specs.Numbered.{own_touch};
ghost use Rattle.node_store.specs.House.{IsIn};
ghost use Rattle.tree_weaver.specs.Planned.{own_ranges, ranges_of};

use crate::pages::store;
use crate::plain::{Bytes, plain_bound, plain_row};
use border_hints::{Hints, Ticket};
use node_store::{Folds, NodeHouse, Row};
use page_store::{NoMemory, PageHouse, Pages};
use publisher::{FinishFault, Window};
use range_log::{OpenCopy, OpenList, OpenTouch};
use range_reader::{ReadFault, holder, stated};
use snapshot::Snapshot;
use std::marker::{Brand, Model};
use std::process::Abort;
use std::sync::ledger::{Blank, Ledger};
use std::sync::{Arc, Wait};
use tree_geom::{Node, PageSize, Range, Steps, Touch, touched};
use tree_weaver::{PlannedRow, plan, put_row};

/// How many bytes a blob may have.
pub const MAX_SIZE: u64 = 1 << 40;

/// What a window answers to a finish.
pub type Finished = Result<u64, (FinishFault, Arc<Row>)>;

/// Where an update begins, and its pages.
#[derive(Drop)]
pub struct Begun {
    at: u64,
    pages: Arc<Pages>,
}

impl Model for Begun {
    ghost use Rattle.std.specs.Arc.{arc_value};
    ghost use Rattle.tree_tests.specs.Blobs.{Start};

    ghost Value = { Start };

    ghost view = { λ b. record { at = b.at; pages = arc_value b.pages } };
}

impl Begun {
    /// The bytes that the update writes.
    pub fn bytes(&self) -> Bytes {
        Bytes {
            at: self.at,
            end: self.at.saturating_add(self.pages.len()),
        }
    }
}

/// A blob with the house of its nodes and its window, and what its updates touch, where they begin and which pages they have.
#[derive(Drop)]
pub struct Blob {
    nodes: NodeHouse,
    window: Window<()>,
    touches: Vec<Touch>,
    begun: Vec<Begun>,
}

impl Model for Blob {
    ghost use Rattle.tree_tests.specs.Blobs.{OneBlob, IsOneBlob};

    ghost Value = { OneBlob };

    ghost view = { λ b. record { nodes = b.nodes; window = b.window.numbered; touches = b.touches.items; starts = b.begun.items } };

    ghost invariant = { λ b. IsOneBlob (record { nodes = b.nodes; window = b.window.numbered; touches = b.touches.items; starts = b.begun.items }) };
}

// The touches from number `from` to the one before `upto`, as those of waiting updates.
fn open_between<R: Abort + AllocGlobal>(
    rt: &R,
    touches: &[Touch],
    from: usize,
    upto: usize,
) -> OpenCopy
    requires order { from ≤ upto }
    requires within { upto ≤ length touches.now }
    requires few { upto - from ≤ 64 }
    ensures { result ≡ opens_from (from + 1) (take (upto - from) (drop from touches.now)) }
{
    let mut list = OpenList::new(rt.alloc()).expect(rt, "memory");
    for i in from..upto {
        list.add(OpenTouch {
            version: i as u64 + 1,
            touch: touches[i],
        });
    }
    list.copied(rt.alloc()).expect(rt, "memory")
}

// The pages, to be shared.
fn shared<R: Abort + AllocGlobal>(rt: &R, pages: Pages) -> Arc<Pages>
    ensures { arc_value result ≡ pages }
{
    Arc::new(rt.alloc(), pages).ok().expect(rt, "memory")
}

// The same pages once more.
fn shared_again<R: Abort>(rt: &R, pages: &Arc<Pages>) -> Arc<Pages>
    ensures { arc_value result ≡ arc_value pages.now }
{
    Arc::try_clone(pages).expect(rt, "memory")
}

// The snapshot of an older version, or of the same.
fn older<R: Abort>(rt: &R, snapshot: &Snapshot, version: u64) -> Snapshot
    requires { version ≤ length snapshot.now.rows }
    ensures { result ≡ older_version snapshot.now version }
{
    snapshot.at(version).expect(rt, "memory")
}

// The plan stores no page anew.
fn check_none_anew<R: Abort>(rt: &R, planned: &PlannedRow)
    ensures { planned.now.folded ≡ [] }
{
    let [first, second] = planned.folded();
    if first.is_some() || second.is_some() {
        panic!(rt; "a page is stored anew");
    }
}

// The row of a ticket's update, stored in the house.
fn put<R: Wait + Abort + AllocGlobal>(
    rt: &R,
    nodes: &NodeHouse,
    ticket: &Ticket,
    planned: &PlannedRow,
) -> Arc<Row>
    requires { ranges_of planned.now.nodes ≡ own_ranges ticket.now }
    ensures version { (arc_value result).version ≡ ticket.now.version }
    ensures offset { (arc_value result).offset ≡ ticket.now.at }
    ensures touch { (arc_value result).touch ≡ own_touch ticket.now }
    ensures nodes { (arc_value result).nodes ≡ planned.now.nodes }
    ensures here { IsIn nodes.now (arc_value result).spot }
    ensures folds { (arc_value result).folds ≡ [] }
    ensures pages { (arc_value result).pages ≡ ticket.now.pages }
{
    put_row(rt, rt.alloc(), ticket, planned, Folds::none(), nodes).expect(rt, "memory")
}

impl Blob {
    ghost use Rattle.tree_tests.specs.Blobs.{IsTicketOf, IsPlanOf};
    ghost use Rattle.range_log.specs.Log.{size_at};

    /// A blob without updates.
    pub fn new<R: Abort + AllocGlobal>(rt: &R, p: PageSize) -> Blob {
        publisher::laws::windows_stand();
        let base = Snapshot::empty(rt.alloc(), 1, p).expect(rt, "memory");
        Blob {
            nodes: NodeHouse::new(rt.alloc()).expect(rt, "memory"),
            window: Window::new(rt.alloc(), base).expect(rt, "memory"),
            touches: Vec::new(rt.alloc()),
            begun: Vec::new(rt.alloc()),
        }
    }

    /// The blob's window.
    pub fn window(&self) -> &Window<()> {
        &self.window
    }

    /// The size after all numbered updates.
    pub fn size(&self) -> u64
        ensures { result ≡ size_at self.now.touches (length self.now.touches) }
    {
        let count = self.touches.len();
        if count == 0 {
            return 0;
        }
        self.touches[count - 1].size
    }

    /// Numbers the update that begins at byte `at` and has these pages.
    fn number<R: Abort + AllocGlobal>(&mut self, rt: &R, at: u64, pages: Pages) -> u64
        requires page_size { pages.page_size ≡ self.old.window.page_size }
        requires some { 1 ≤ length (bytes_of_pages pages.pages) }
    {
        range_log::laws::logs_are_grown();
        range_log::laws::page_bytes_stay();
        publisher::laws::windows_stand();
        let size = self.size();
        let len = pages.len();
        if at > size || size > MAX_SIZE || len > MAX_SIZE - at {
            panic!(rt; "past the end");
        }
        let assigned = self.window.assigned();
        if assigned >= 1_048_576 || assigned.saturating_sub(self.window.published()) >= 64 {
            panic!(rt; "too many updates");
        }
        self.touches.reserve(1).expect(rt, "memory");
        self.begun.reserve(1).expect(rt, "memory");
        let pages = shared(rt, pages);
        let p = self.window.snapshot().page_size();
        let touch = touched(p, at, len, size.max(at + len));
        self.touches.push_reserved(touch);
        self.begun.push_reserved(Begun { at, pages });
        self.window.number(touch, ())
    }

    /// Numbers the update of these bytes at byte `at`, and gives its version.
    pub fn start<R: Wait + Abort + AllocGlobal>(&mut self, rt: &R, at: u64, bytes: &[u8]) -> u64 {
        assert!(rt;
            !bytes.is_empty() && bytes.len() <= 1_048_576,
            "no such update"
        );
        let house = PageHouse::new(rt.alloc(), 1).expect(rt, "memory");
        let p = self.window.snapshot().page_size();
        let pages = store(rt, &house, p, bytes);
        self.number(rt, at, pages)
    }

    /// The ticket of a numbered update, had version `published` been published at its numbering.
    pub fn ticket<R: Abort + AllocGlobal>(&self, rt: &R, version: u64, published: u64) -> Ticket
        ensures { IsTicketOf self.now result }
    {
        range_log::laws::logs_are_grown();
        range_log::laws::older_versions_stay();
        range_log::laws::page_bytes_stay();
        publisher::laws::windows_stand();
        let latest = self.window.snapshot();
        if version == 0 || version > self.begun.len() as u64 {
            panic!(rt; "no such version");
        }
        if published >= version || version - published > 65 || published > latest.version() {
            panic!(rt; "not published, or too long ago");
        }
        let index = version as usize - 1;
        let snapshot = older(rt, latest, published);
        let waiting = open_between(rt, &self.touches, published as usize, index);
        let begun = &self.begun[index];
        let pages = shared_again(rt, &begun.pages);
        let len = pages.len();
        let size = self.touches[index].size;
        let hints = Hints { snapshot, waiting };
        Ticket::of(1, 1, version, begun.at, len, size, hints, pages)
    }

    /// The plan of a ticket's update, and the node steps that it took.
    pub fn plan<'a, R: Abort>(&self, rt: &R, ticket: &'a Ticket) -> (PlannedRow<'a>, u64)
        requires { IsTicketOf self.now ticket.now }
        ensures { IsPlanOf self.now ticket.now result.0 }
    {
        self.plan_counted::<Brand>(ticket, Blank::new(1))
            .expect(rt, "memory")
    }

    // The same, counted in the blank.
    fn plan_counted<'a, L: Ledger>(
        &self,
        ticket: &'a Ticket,
        blank: Blank,
    ) -> Result<(PlannedRow<'a>, u64), NoMemory>
        requires own { IsTicketOf self.now ticket.now }
        requires name { blank.name ≡ L.name }
        requires parts { blank.parts ≡ L.parts }
        requires some { 0 < blank.parts }
        ensures { IfOk result (λ r. IsPlanOf self.now ticket.now r.0) }
    {
        let mut steps = Steps::<L>::open(blank);
        let planned = plan(ticket, &self.nodes, &mut steps)?;
        Ok((planned, steps.taken()))
    }

    /// The visit bound of a read of the version that was published for the ticket, as it is told before the read, and the node
    /// steps that this took.
    pub fn stated<R: Abort>(&self, rt: &R, ticket: &Ticket, offset: u64, count: u64) -> (u64, u64)
        requires { IsTicketOf self.now ticket.now }
    {
        self.stated_counted::<Brand>(ticket, offset, count, Blank::new(1))
            .expect(rt, "a read within the size")
    }

    // The same, counted in the blank.
    fn stated_counted<L: Ledger>(
        &self,
        ticket: &Ticket,
        offset: u64,
        count: u64,
        blank: Blank,
    ) -> Result<(u64, u64), ReadFault>
        requires own { IsTicketOf self.now ticket.now }
        requires name { blank.name ≡ L.name }
        requires parts { blank.parts ≡ L.parts }
        requires some { 0 < blank.parts }
    {
        let mut steps = Steps::<L>::open(blank);
        let snapshot = &ticket.hints().snapshot;
        let most = stated(snapshot, &self.nodes, offset, count, &mut steps)?;
        Ok((most, steps.taken()))
    }

    /// How many bytes the stored page has that holds byte `at` of the version that was published for the ticket. None past its
    /// end.
    pub fn holder_len(&self, ticket: &Ticket, at: u64) -> Option<u32>
        requires { IsTicketOf self.now ticket.now }
    {
        self.holder_len_counted::<Brand>(ticket, at, Blank::new(1))
    }

    // The same, counted in the blank.
    fn holder_len_counted<L: Ledger>(&self, ticket: &Ticket, at: u64, blank: Blank) -> Option<u32>
        requires own { IsTicketOf self.now ticket.now }
        requires name { blank.name ≡ L.name }
        requires parts { blank.parts ≡ L.parts }
        requires some { 0 < blank.parts }
    {
        let mut steps = Steps::<L>::open(blank);
        let stored = holder(&ticket.hints().snapshot, &self.nodes, at, &mut steps)?;
        Some(stored.len())
    }

    /// The visit bound of a read of a version, computed plainly from what all updates touch and write.
    pub fn plain_bound<R: Abort>(&self, rt: &R, version: u64, offset: u64, count: u64) -> u64 {
        assert!(rt;
            version != 0 && version <= self.begun.len() as u64,
            "no such version"
        );
        let p = self.window.snapshot().page_size();
        let k = version as usize;
        plain_bound(p, &self.touches, &self.begun, k, offset, count).expect(
            rt,
            "a read within the size",
        )
    }

    /// The row of a numbered update, made plainly from what all updates touch and write.
    pub fn plain<R: Abort + AllocGlobal>(&self, rt: &R, version: u64) -> Vec<(Range, Node)> {
        range_log::laws::page_bytes_stay();
        assert!(rt;
            version != 0 && version <= self.begun.len() as u64,
            "no such version"
        );
        let p = self.window.snapshot().page_size();
        plain_row(rt, p, &self.touches, &self.begun, version as usize)
    }

    /// Plans and stores the row of a numbered update, had version `published` been published at its numbering, and finishes
    /// the update, which stores no page anew.
    pub fn finish<R: Wait + Abort + AllocGlobal>(
        &mut self,
        rt: &R,
        version: u64,
        published: u64,
    ) -> Finished {
        snapshot::laws::rows_stay();
        publisher::laws::windows_stand();
        tree_weaver::laws::stored_rows_are_rows();
        let ticket = self.ticket(rt, version, published);
        let (planned, _) = self.plan(rt, &ticket);
        check_none_anew(rt, &planned);
        let row = put(rt, &self.nodes, &ticket, &planned);
        let version = ticket.version();
        self.window.finish(version, row)
    }
}
