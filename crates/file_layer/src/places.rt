// Where the pages of a range lie.
ghost use Rattle.std.specs.Prelude.{◌≡◌, ◌+◌, ◌*◌, ◌^◌, ◌/◌, ◌<◌, ◌≤◌, ◌++◌, ◌∷◌, [], max, ℕ, List, length, map, OnOk, IfOk};
ghost use Rattle.std.specs.List.{All};
ghost use Rattle.page_store.specs.House.{House};
ghost use Rattle.page_store.specs.Page.{Spot, IsAmong};
ghost use Rattle.snapshot.specs.Versions.{NodesLieIn, PagesLieIn, size_now};
ghost use Rattle.range_log.specs.Visits.{pages_met};
ghost use Rattle.file_names.specs.declared.form.PageHolders.{PageHolders};
ghost use Rattle.file_layer.specs.Files.{LieAt, pages_of};
ghost use Rattle.file_layer.specs.Places.{AddsPage};

use faults::NoMemory;
use file_names::{Holders, PageHolders, Providers};
use node_store::NodeHouse;
use page_store::StoredPage;
use range_reader::holder;
use snapshot::Snapshot;
use std::alloc::Global;
use std::sync::ledger::{Blank, Ledger};
use tree_geom::Steps;

// The providers of a stored page's replicas.
fn providers_of(alloc: Global, stored: &StoredPage) -> Result<Providers, NoMemory>
    ensures { IfOk result (λ providers. providers ≡ map (λ (spot : Spot). spot.provider) stored.now.spots) }
{
    let mut numbers = Vec::new(alloc);
    for i in 0..stored.replica_count() {
        if numbers.push(stored.replica(i).provider()).is_err() {
            return Err(NoMemory);
        }
    }
    Ok(Providers::of(numbers))
}

// The place of a page, by one of its bytes.
fn place_of<L: Ledger>(
    alloc: Global,
    snapshot: &Snapshot,
    nodes: &NodeHouse,
    page: u64,
    at: u64,
    steps: &mut Steps<L>,
) -> Result<PageHolders, NoMemory>
    requires here { NodesLieIn nodes.now snapshot.now }
    requires within { at < size_now snapshot.now }
    ensures page { IfOk result (λ place. place.page ≡ page) }
    ensures lies { (houses : List House) → PagesLieIn houses snapshot.now → IfOk result (LieAt (length houses)) }
{
    match holder(snapshot, nodes, at, steps) {
        Some(stored) => {
            let _few = stored.replica_count();
            let providers = providers_of(alloc, stored)?;
            Ok(PageHolders { page, providers })
        }
        None => unreachable!(),
    }
}

// One more place.
fn add_place(places: &mut Vec<PageHolders>, place: PageHolders) -> Result<(), NoMemory>
    ensures { OnOk result (places.new.items ≡ places.old.items ++ place ∷ []) }
{
    Ok(places.push(place)?)
}

// The byte of a page by which it is asked for: the first of the page that a range has, which ends with byte `end`.
#[tactic(auto, using(crate::proofs::Lying::page_start))]
fn first_byte(offset: u64, end: u64, page: u64, bytes: u64) -> u64
    requires begins { offset ≤ end }
    requires page { page ≤ end / bytes }
    ensures first { result ≡ max offset (page * bytes) }
    ensures within { result ≤ end }
{
    match page.checked_mul(bytes) {
        Some(start) => offset.max(start),
        None => unreachable!(),
    }
}

// The page that has a byte.
fn page_of(at: u64, bytes: u64) -> u64
    requires { 0 < bytes }
    ensures page { result ≡ at / bytes }
    ensures within { result ≤ at }
{
    at / bytes
}

// One more page, by one of its bytes.
fn add_page<L: Ledger>(
    alloc: Global,
    snapshot: &Snapshot,
    nodes: &NodeHouse,
    places: &mut Vec<PageHolders>,
    page: u64,
    at: u64,
    steps: &mut Steps<L>,
) -> Result<(), NoMemory>
    requires here { NodesLieIn nodes.now snapshot.now }
    requires within { at < size_now snapshot.now }
    ensures { OnOk result (AddsPage snapshot.now places.old.items page places.new.items) }
{
    let place = place_of(alloc, snapshot, nodes, page, at, steps)?;
    add_place(places, place)
}

// The last byte of a range of at least one byte, which lies within the version.
fn last_byte(snapshot: &Snapshot, offset: u64, count: u64) -> u64
    requires some { 1 ≤ count }
    requires within { offset + count ≤ size_now snapshot.now }
    ensures last { result + 1 ≡ offset + count }
    ensures within { result < size_now snapshot.now }
{
    let size = snapshot.size();
    prove!(count <= size);
    offset + (count - 1)
}

// The places of the pages that a range of at least one byte meets, which lies within the version.
fn places_met<L: Ledger>(
    alloc: Global,
    snapshot: &Snapshot,
    nodes: &NodeHouse,
    offset: u64,
    count: u64,
    steps: &mut Steps<L>,
) -> Result<Holders, NoMemory>
    requires here { NodesLieIn nodes.now snapshot.now }
    requires some { 1 ≤ count }
    requires within { offset + count ≤ size_now snapshot.now }
    ensures which { IfOk result (λ places. map (λ (p : PageHolders). p.page) places ≡ pages_met snapshot.now.page_size offset count) }
    ensures lie { (houses : List House) → PagesLieIn houses snapshot.now → IfOk result (λ places. All (LieAt (length houses)) places) }
{
    let bytes = snapshot.page_size().bytes();
    let end = last_byte(snapshot, offset, count);
    let first = page_of(offset, bytes);
    let last = page_of(end, bytes);
    let mut places = Vec::new(alloc);
    for page in first..last + 1 {
        let at = first_byte(offset, end, page, bytes);
        add_page(alloc, snapshot, nodes, &mut places, page, at, steps)?;
    }
    Ok(Holders::of(places))
}

// The places of the pages that a range meets, which lies within the version.
fn places_in<L: Ledger>(
    alloc: Global,
    snapshot: &Snapshot,
    nodes: &NodeHouse,
    offset: u64,
    count: u64,
    steps: &mut Steps<L>,
) -> Result<Holders, NoMemory>
    requires here { NodesLieIn nodes.now snapshot.now }
    requires within { offset + count ≤ size_now snapshot.now }
    ensures which { IfOk result (λ places. map (λ (p : PageHolders). p.page) places ≡ pages_of snapshot.now.page_size offset count) }
    ensures lie { (houses : List House) → PagesLieIn houses snapshot.now → IfOk result (λ places. All (LieAt (length houses)) places) }
{
    if count == 0 {
        return Ok(Holders::of(Vec::new(alloc)));
    }
    places_met(alloc, snapshot, nodes, offset, count, steps)
}

// The places of the pages that a range meets, which lies within the version. Nobody counts the node steps.
pub(crate) fn places_uncounted<L: Ledger>(
    alloc: Global,
    snapshot: &Snapshot,
    nodes: &NodeHouse,
    offset: u64,
    count: u64,
    blank: Blank,
) -> Result<Holders, NoMemory>
    requires name { blank.name ≡ L.name }
    requires parts { blank.parts ≡ L.parts }
    requires some { 0 < blank.parts }
    requires here { NodesLieIn nodes.now snapshot.now }
    requires within { offset + count ≤ size_now snapshot.now }
    ensures which { IfOk result (λ places. map (λ (p : PageHolders). p.page) places ≡ pages_of snapshot.now.page_size offset count) }
    ensures lie { (houses : List House) → PagesLieIn houses snapshot.now → IfOk result (λ places. All (LieAt (length houses)) places) }
{
    let mut steps = Steps::<L>::open(blank);
    places_in(alloc, snapshot, nodes, offset, count, &mut steps)
}
