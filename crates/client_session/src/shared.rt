// A store that sessions share.
ghost use Rattle.std.specs.Prelude.{◌≡◌, ◌≤◌, ◌<◌, ◌+◌, ◌++◌, [], ◌∷◌, ℕ, length, Some, IfOk, IfErr, OnOk, OnErr, IsErr, ◌↔◌, Contains};
ghost use Rattle.std.specs.Arc.{arc_value};
ghost use Rattle.turn_lock.specs.History.{entries_by, Begins, longer, LacksUngiven};
ghost use Rattle.provider_manager.specs.Book.{AreCounts};
ghost use Rattle.version_manager.specs.Desks.{empty_desk};
ghost use Rattle.version_manager.specs.Log.{tagged, fixed_of};
ghost use Rattle.client_session.specs.Sessions.{IsPassOf, IsOwnerOf};

use crate::waking::Notices;
use blob_model::Limits;
use node_store::NodeHouse;
use page_store::Houses;
use provider_manager::{LoadBook, SharedLoads};
use request_form::NoMemory;
use std::alloc::Global;
use std::marker::Model;
use std::sync::Arc;
use tree_geom::PageSize;
use turn_lock::PassFault;
use version_manager::{Desk, DeskOut, Owner, Pass, SharedDesk};

/// What the sessions of a store share: the desk under its lock, the houses of the pages and of the nodes, and the book of the
/// providers' loads. It is lent to every session, and may be lent to many threads.
pub struct Shared {
    desk: SharedDesk,
    houses: Arc<Houses>,
    nodes: Arc<NodeHouse>,
    loads: SharedLoads,
    notices: Notices,
    limits: Limits,
    page_size: PageSize,
    providers: u32,
}

// By hand, so that it is one call wherever a store is let go: a derived drop stands, with all its calls, at each such place.
impl Drop for Shared {
    fn drop(self) {
        let Shared {
            desk: _,
            houses: _,
            nodes: _,
            loads: _,
            notices: _,
            limits: _,
            page_size: _,
            providers: _,
        } = self;
    }
}

impl Model for Shared {
    ghost use Rattle.std.specs.Prelude.{◌≡◌, length};
    ghost use Rattle.std.specs.Arc.{arc_value};
    ghost use Rattle.client_session.specs.Sessions.{StoreState};

    ghost Value = { StoreState };

    ghost view = { λ s.
        record {
          lock = s.desk;
          fixed = record { limits = s.limits; page_size = s.page_size; houses = arc_value s.houses; nodes = arc_value s.nodes };
          providers = s.providers;
          replicas = s.loads.replicas;
        } };

    ghost invariant = { λ s. (length (arc_value s.houses) ≡ s.providers) × (s.loads.providers ≡ s.providers) };
}

/// The store is shared still: passes are out. It comes back with its owner, as they were.
#[derive(Drop)]
pub struct SharedOut {
    /// The store.
    pub shared: Shared,
    /// Its owner.
    pub owner: Owner,
    /// How many passes are out, at least one.
    pub out: u32,
}

// The houses of the pages and of the nodes, and a desk over them that accepted nothing.
fn housed_desk(
    alloc: Global,
    limits: Limits,
    p: PageSize,
    providers: u32,
) -> Result<(Arc<Houses>, Arc<NodeHouse>, Desk), NoMemory>
    ensures empty { IfOk result (λ r. r.2 ≡ empty_desk limits p (arc_value r.0) (arc_value r.1)) }
    ensures houses { IfOk result (λ r. length (arc_value r.0) ≡ providers) }
{
    let houses = Houses::new(alloc, providers)?;
    let nodes = NodeHouse::new(alloc)?;
    let houses = Arc::new(alloc, houses)?;
    let nodes = Arc::new(alloc, nodes)?;
    let desk = Desk::new(alloc, limits, p, &houses, &nodes)?;
    Ok((houses, nodes, desk))
}

impl Shared {
    /// A store with no blobs, over so many providers, which places so many replicas of each page, and the owner of its passes.
    pub fn new(
        alloc: Global,
        limits: Limits,
        p: PageSize,
        providers: u32,
        replicas: u32,
    ) -> Result<(Shared, Owner), NoMemory>
        requires { AreCounts providers replicas }
        ensures owner { IfOk result (λ r. IsOwnerOf r.0 r.1) }
        ensures new { IfOk result (λ r. r.1 ≡ record { lock = r.0.lock; made = 0; out = 0; seen = []; fixed = Some r.0.fixed; kept = [] }) }
        ensures limits { IfOk result (λ r. r.0.fixed.limits ≡ limits) }
        ensures page_size { IfOk result (λ r. r.0.fixed.page_size ≡ p) }
        ensures providers { IfOk result (λ r. r.0.providers ≡ providers) }
        ensures replicas { IfOk result (λ r. r.0.replicas ≡ replicas) }
    {
        let (houses, nodes, desk) = housed_desk(alloc, limits, p, providers)?;
        let book = LoadBook::new(alloc, providers, replicas)?;
        let (desk, owner) = SharedDesk::new(alloc, desk)?;
        let shared = Shared {
            desk,
            houses,
            nodes,
            loads: SharedLoads::new(book),
            notices: Notices::new(),
            limits,
            page_size: p,
            providers,
        };
        Ok((shared, owner))
    }

    /// How many providers there are.
    pub fn providers(&self) -> u32
        ensures { result ≡ self.now.providers }
    {
        self.providers
    }

    /// There are as many houses of pages as providers. For proofs: it does nothing.
    pub fn is_housed(&self)
        ensures { length self.now.fixed.houses ≡ self.now.providers }
    {
        let _houses = self.houses();
    }

    /// The desk under its lock.
    pub(crate) fn desk(&self) -> &SharedDesk
        ensures { result.now ≡ self.now.lock }
    {
        &self.desk
    }

    /// The houses of the providers' pages.
    pub(crate) fn houses(&self) -> &Houses
        ensures houses { result.now ≡ self.now.fixed.houses }
        ensures count { length result.now ≡ self.now.providers }
    {
        &self.houses
    }

    /// The house of the nodes.
    pub(crate) fn nodes(&self) -> &NodeHouse
        ensures { result.now ≡ self.now.fixed.nodes }
    {
        &self.nodes
    }

    /// The loads of the providers.
    pub(crate) fn loads(&self) -> &SharedLoads
        ensures providers { result.now.providers ≡ self.now.providers }
        ensures replicas { result.now.replicas ≡ self.now.replicas }
    {
        &self.loads
    }

    /// The page size of all blobs.
    pub(crate) fn page_size(&self) -> PageSize
        ensures { result ≡ self.now.fixed.page_size }
    {
        self.page_size
    }

    /// Where finishes are told to those that wait for a publication.
    pub(crate) fn notices(&self) -> &Notices {
        &self.notices
    }

    /// A new pass, which has seen what the owner has. Its caller is how many passes were made up to now, this one too.
    /// `TooManyPasses` exactly where 1,024 were made.
    pub fn pass(&self, owner: &mut Owner) -> Result<Pass, PassFault>
        requires { IsOwnerOf self.now owner.old }
        ensures too_many { IsErr result ↔ (owner.old.made ≡ 1024) }
        ensures pass { IfOk result (λ p. p ≡ record { lock = self.now.lock; caller = owner.old.made + 1; seen = owner.old.seen; fixed = Some self.now.fixed; turns = 0 }) }
        ensures pass_is { IfOk result (λ p. IsPassOf self.now p) }
        ensures own { IfOk result (λ p. entries_by p.caller p.seen ≡ []) }
        ensures counts { OnOk result (owner.new ≡ record owner.old { made = owner.old.made + 1; out = owner.old.out + 1 }) }
        ensures refused { OnErr result (owner.new ≡ owner.old) }
        ensures owner { IsOwnerOf self.now owner.new }
    {
        self.desk.pass(owner)
    }

    /// Takes a pass back. The owner has then seen the longer of what both had seen, which begins with the other, and of the
    /// pass's caller exactly the entries that the pass had seen.
    pub fn take_back(&self, owner: &mut Owner, pass: Pass)
        requires owner { IsOwnerOf self.now owner.old }
        requires pass { IsPassOf self.now pass }
        ensures counts { (owner.old.out ≡ owner.new.out + 1) × (owner.new ≡ record owner.old { out = owner.new.out; seen = owner.new.seen; kept = owner.old.kept ++ pass.caller ∷ [] }) }
        ensures seen { owner.new.seen ≡ longer owner.old.seen pass.seen }
        ensures begins { Begins owner.old.seen owner.new.seen × Begins pass.seen owner.new.seen }
        ensures own { entries_by pass.caller owner.new.seen ≡ entries_by pass.caller pass.seen }
        ensures before { (c : ℕ) → Contains owner.old.kept c → entries_by c owner.new.seen ≡ entries_by c owner.old.seen }
        ensures owner { IsOwnerOf self.now owner.new }
    {
        self.desk.take_back(owner, pass);
    }

    /// Ends the store, and gives its desk. Its history is what the owner has seen: for each pass exactly its entries, in order, and
    /// no entry of another caller. Refused exactly where passes are out.
    pub fn close(self, owner: Owner) -> Result<Desk, SharedOut>
        requires { IsOwnerOf self owner }
        ensures refused { IsErr result ↔ (1 ≤ owner.out) }
        ensures same { IfErr result (λ e. (e.shared ≡ self) × (e.owner ≡ owner) × (e.out ≡ owner.out)) }
        ensures history { IfOk result (λ desk. tagged desk.history ≡ owner.seen) }
        ensures fixed { IfOk result (λ desk. fixed_of desk ≡ self.fixed) }
        ensures all_kept { OnOk result ((c : ℕ) → 0 < c → c ≤ owner.made → Contains owner.kept c) }
        ensures no_other { IfOk result (λ desk. LacksUngiven owner.made (tagged desk.history)) }
    {
        let Shared {
            desk,
            houses,
            nodes,
            loads,
            notices,
            limits,
            page_size,
            providers,
        } = self;
        match desk.close(owner) {
            Ok(desk) => Ok(desk),
            Err(DeskOut { desk, owner, out }) => Err(SharedOut {
                shared: Shared {
                    desk,
                    houses,
                    nodes,
                    loads,
                    notices,
                    limits,
                    page_size,
                    providers,
                },
                owner,
                out,
            }),
        }
    }
}
