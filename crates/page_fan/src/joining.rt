// What the doors answered is joined, in the order of the pages and of their placements.
ghost use Rattle.std.specs.Prelude.{◌≡◌, ℕ, ◌+◌, ◌*◌, ◌^◌, ◌<◌, ◌≤◌, List, length, IfOk, OnOk, OnErr, IfSome, Some, All};
ghost use Rattle.std.specs.Prelude.{[], ◌∷◌, ◌++◌, take, drop, vec_capacity};
ghost use Rattle.page_store.specs.House.{IsProvider};
ghost use Rattle.replica_place.specs.Chosen.{chosen};
ghost use Rattle.page_fan.specs.Answer.{AreAnswered, IsPageAnswer, with_replica};
ghost use Rattle.page_fan.specs.Counts.{NoneFell, count_at};
ghost use Rattle.page_fan.specs.Groups.{CanBePut, IsAnswerTo};
ghost use Rattle.page_fan.specs.Listed.{HasPages, puts_at, puts_from};
ghost use Rattle.page_fan.specs.Stands.{counts_of, AreReplied, EachOwed, EachPut};
ghost use Rattle.page_fan.specs.declared.stand.Put.{Put};
ghost use Rattle.page_fan.specs.declared.stand.Stand.{Stand};

use crate::stand::{Put, Stand};
use page_store::{Door, Houses, NoMemory, PageRef, PutAnswer, StoredPage};
use provider_manager::Placements;
use replica_place::Placement;
use std::alloc::Global;
use std::sync::Wait;
use tree_geom::PageSize;

// The answers to all pages of the buffer, in order. There is room for them.
pub(crate) fn join_pages<D: Door, R: Wait>(
    rt: &R,
    alloc: Global,
    stands: &mut [Stand<D>],
    houses: &Houses,
    p: PageSize,
    buffer: &[u8],
    placements: &Placements,
    mut answer: Vec<Option<StoredPage>>,
) -> Result<Vec<Option<StoredPage>>, NoMemory>
    ghost before: { List ℕ }
    requires fresh { answer.items ≡ [] }
    requires room { length placements.now ≤ vec_capacity answer }
    requires few { length placements.now < 2 ^ 32 }
    requires enough { length buffer.now ≤ length placements.now * p }
    requires housed { length stands.old ≤ length houses.now }
    requires served { All (All (IsProvider (length stands.old))) placements.now }
    requires replies { AreReplied houses.now p buffer.now before D.faults stands.old }
    ensures answered { IfOk result (λ answer.
        AreAnswered houses.now p buffer.now placements.now before (counts_of D.faults stands.new) answer.items) }
    ensures put_once { (pages : ℕ) (first : List (Stand D)) → HasPages p (length buffer.now) pages
        → let puts = puts_from p 0 (take pages placements.now) in
        EachOwed D.called [] puts first stands.old → OnOk result (EachPut D.called puts first stands.new) }
    ensures none_fell { NoneFell (counts_of D.faults stands.old) (counts_of D.faults stands.new) }
    ensures truth_stays { All (λ s. D.is_true s.door) stands.old → All (λ s. D.is_true s.door) stands.new }
{
    let page_size = p.bytes() as usize;
    let mut at = 0;
    let mut i = 0;
    while at < buffer.len() {
        let placement = placements.of(i);
        answer.push_reserved(join_page(rt, alloc, stands, houses, p, buffer, placement, at)?);
        at += page_size;
        i += 1;
    }
    Ok(answer)
}

// The answer to the page that begins at byte `at`, by those of its doors, in the order of its placement.
fn join_page<D: Door, R: Wait>(
    rt: &R,
    alloc: Global,
    stands: &mut [Stand<D>],
    houses: &Houses,
    p: PageSize,
    buffer: &[u8],
    placement: &Placement,
    at: usize,
) -> Result<Option<StoredPage>, NoMemory>
    ghost before: { List ℕ }
    requires within { at < length buffer.now }
    requires housed { length stands.old ≤ length houses.now }
    requires served { All (IsProvider (length stands.old)) (chosen placement.now) }
    requires replies { AreReplied houses.now p buffer.now before D.faults stands.old }
    ensures answered { let page = take p (drop at buffer.now) in
        IfOk result (IsPageAnswer houses.now page (chosen placement.now) before (counts_of D.faults stands.new)) }
    ensures replies { AreReplied houses.now p buffer.now before D.faults stands.new }
    ensures owed { (done rest : List Put) (first : List (Stand D)) → let puts = puts_at at (chosen placement.now) in
        EachOwed D.called done (puts ++ rest) first stands.old
        → OnOk result (EachOwed D.called (done ++ puts) rest first stands.new) }
    ensures none_fell { NoneFell (counts_of D.faults stands.old) (counts_of D.faults stands.new) }
    ensures truth_stays { All (λ s. D.is_true s.door) stands.old → All (λ s. D.is_true s.door) stands.new }
{
    let mut stored: Option<StoredPage> = None;
    let providers = &placement.providers[..placement.count as usize];
    for (i, provider) in providers.iter().enumerate() {
        let behind = placement.count - i as u32 - 1;
        let put = Put {
            provider: *provider,
            at,
        };
        match answer_at(rt, stands, houses, p, buffer, put) {
            PutAnswer::Stored(page) => add_replica(alloc, &mut stored, page, behind)?,
            PutAnswer::Failed => {}
            PutAnswer::NoMemory => return Err(NoMemory),
        }
    }
    Ok(stored)
}

// The answer of the put's own door to it.
fn answer_at<D: Door, R: Wait>(
    rt: &R,
    stands: &mut [Stand<D>],
    houses: &Houses,
    p: PageSize,
    buffer: &[u8],
    put: Put,
) -> PutAnswer
    requires within { put.at < length buffer.now }
    requires housed { length stands.old ≤ length houses.now }
    requires served { IsProvider (length stands.old) put.provider }
    ensures answer { (before : List ℕ) → AreReplied houses.now p buffer.now before D.faults stands.old
        → let now = count_at (counts_of D.faults stands.new) put.provider in
        IsAnswerTo houses.now p buffer.now put (count_at before put.provider) now result }
    ensures replies { (before : List ℕ) → AreReplied houses.now p buffer.now before D.faults stands.old
        → AreReplied houses.now p buffer.now before D.faults stands.new }
    ensures owed { (done rest : List Put) (first : List (Stand D)) → EachOwed D.called done (put ∷ rest) first stands.old
        → EachOwed D.called (done ++ put ∷ []) rest first stands.new }
    ensures none_fell { NoneFell (counts_of D.faults stands.old) (counts_of D.faults stands.new) }
    ensures truth_stays { All (λ s. D.is_true s.door) stands.old → All (λ s. D.is_true s.door) stands.new }
{
    let stand = &mut stands[put.provider as usize - 1];
    stand.answer(rt, houses, p, buffer, put)
}

// Adds a replica to the page, or begins the page with it. So many replicas may still follow. Where memory is refused, the page
// stays as it was.
pub(crate) fn add_replica(
    alloc: Global,
    stored: &mut Option<StoredPage>,
    page: PageRef,
    behind: u32,
) -> Result<(), NoMemory>
    requires same { IfSome stored.old (λ s. s.bytes ≡ page.bytes) }
    requires room { IfSome stored.old (λ s. length s.spots < 8) }
    ensures added { OnOk result (stored.new ≡ Some (with_replica stored.old page)) }
    ensures err { OnErr result (stored.new ≡ stored.old) }
{
    match stored {
        None => {
            *stored = Some(StoredPage::of(alloc, page));
            Ok(())
        }
        Some(replicas) => replicas.add(page, behind),
    }
}
