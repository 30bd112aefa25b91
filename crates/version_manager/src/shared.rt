//! A desk that threads share: each call is one turn of one lock.
ghost use Rattle.std.specs.Prelude.{◌≡◌, ◌≤◌, ◌<◌, ◌+◌, ◌++◌, [], ◌∷◌, ℕ, length, Some, IfOk, IfErr, IfSome, OnOk, OnErr, IsErr, ◌↔◌, Contains};
ghost use Rattle.std.specs.Arc.{arc_value};
ghost use Rattle.page_store.specs.Stored.{bytes_of_pages};
ghost use Rattle.blob_model.specs.declared.call.Call.TheVariants as Calls;
ghost use Rattle.blob_model.specs.declared.call.Event.TheVariants as Events;
ghost use Rattle.blob_model.specs.declared.call.Outcome.TheVariants as Outcomes;
ghost use Rattle.turn_lock.specs.History.{entries_by, Begins, longer, LacksUngiven};
ghost use Rattle.turn_lock.specs.Shown.{Turned};
ghost use Rattle.version_manager.specs.Log.{Looked, Changed, MayAssign, IsNewTicket, MayFinish, Finishes, Opened, Reissued, Foreseen, tagged, fixed_of};
ghost use Rattle.version_manager.specs.Desks.{most_bytes};
ghost use Rattle.version_manager.specs.Looks.{look_call};

use crate::acts::{Assign, Branch, Create, Finish, Foresee, LookAt, Open, Reissue};
use crate::desk::Desk;
use crate::fault::{DeskFault, OpenFault};
use crate::look::Look;
use blob_model::{Outcome, Place, Refusal};
use border_hints::Ticket;
use node_store::Row;
use page_store::Pages;
use publisher::NoMemory;
use snapshot::Snapshot;
use std::alloc::Global;
use std::marker::Model;
use std::sync::{Arc, Wait};
use turn_lock::{CloseRefused, PassFault, Turn};

/// The right to take turns on a desk as one caller. A contract sees the history that it has seen.
pub type Pass = turn_lock::Pass<Desk>;

/// Makes the passes of a desk, and takes them back.
pub type Owner = turn_lock::Owner<Desk>;

/// A desk that threads share. Each call with a pass is one turn: no other call comes between what it looks at and what it enters.
///
/// The history that a call finds is what the pass has seen, and then a gap of other callers' entries. The call's outcome is the
/// desk's on the store of that history. Its event is entered at the end, under the pass's caller, exactly where it is done.
/// Then the pass has seen all of it.
pub struct SharedDesk {
    turn: Turn<Desk>,
}

// By hand, so that it is one call wherever a shared desk is let go: a derived drop stands, with all its calls, at each such place.
impl Drop for SharedDesk {
    fn drop(self) {
        let SharedDesk { turn: _ } = self;
    }
}

impl Model for SharedDesk {
    ghost use Rattle.atomic_table.specs.Seated.{TableId, table_id_coded};

    ghost Value = { TableId };

    ghost coded = { table_id_coded };

    ghost view = { λ s. s.turn };
}

/// The desk is shared still: passes are out. It comes back with its owner, as they were.
#[derive(Drop)]
pub struct DeskOut {
    /// The desk.
    pub desk: SharedDesk,
    /// Its owner.
    pub owner: Owner,
    /// How many passes are out, at least one.
    pub out: u32,
}

impl SharedDesk {
    /// Shares a desk whose history is empty. Where there is no memory the desk is dropped.
    pub fn new(alloc: Global, desk: Desk) -> Result<(SharedDesk, Owner), NoMemory>
        requires { desk.history ≡ [] }
        ensures { IfOk result (λ s. s.1 ≡ record { lock = s.0; made = 0; out = 0; seen = []; fixed = Some (fixed_of desk); kept = [] }) }
    {
        let (turn, owner) = Turn::new(alloc, desk)?;
        Ok((SharedDesk { turn }, owner))
    }

    /// A new pass, which has seen what the owner has. Its caller is how many passes were made up to now, this one too.
    /// `TooManyPasses` exactly where 1,024 were made.
    pub fn pass(&self, owner: &mut Owner) -> Result<Pass, PassFault>
        requires { owner.old.lock ≡ self.now }
        ensures too_many { IsErr result ↔ (owner.old.made ≡ 1024) }
        ensures pass { IfOk result (λ p. p ≡ record { lock = self.now; caller = owner.old.made + 1; seen = owner.old.seen; fixed = owner.old.fixed; turns = 0 }) }
        ensures own { IfOk result (λ p. entries_by p.caller p.seen ≡ []) }
        ensures counts { OnOk result (owner.new ≡ record owner.old { made = owner.old.made + 1; out = owner.old.out + 1 }) }
        ensures refused { OnErr result (owner.new ≡ owner.old) }
    {
        owner.pass(&self.turn)
    }

    /// Takes a pass back. The owner has then seen the longer of what both had seen, which begins with the other, and of the
    /// pass's caller exactly the entries that the pass had seen.
    pub fn take_back(&self, owner: &mut Owner, pass: Pass)
        requires { (owner.old.lock ≡ self.now) × (pass.lock ≡ self.now) }
        ensures counts { (owner.old.out ≡ owner.new.out + 1) × (owner.new ≡ record owner.old { out = owner.new.out; seen = owner.new.seen; kept = owner.old.kept ++ pass.caller ∷ [] }) }
        ensures seen { owner.new.seen ≡ longer owner.old.seen pass.seen }
        ensures begins { Begins owner.old.seen owner.new.seen × Begins pass.seen owner.new.seen }
        ensures own { entries_by pass.caller owner.new.seen ≡ entries_by pass.caller pass.seen }
        ensures before { (c : ℕ) → Contains owner.old.kept c → entries_by c owner.new.seen ≡ entries_by c owner.old.seen }
    {
        owner.take_back(&self.turn, pass);
    }

    /// Gives the desk back. Its history is what the owner has seen: for each pass exactly its entries, in order, and no entry of
    /// another caller. Refused exactly where passes are out.
    pub fn close(self, owner: Owner) -> Result<Desk, DeskOut>
        requires { owner.lock ≡ self }
        ensures refused { IsErr result ↔ (1 ≤ owner.out) }
        ensures same { IfErr result (λ e. (e.desk ≡ self) × (e.owner ≡ owner) × (e.out ≡ owner.out)) }
        ensures history { IfOk result (λ desk. tagged desk.history ≡ owner.seen) }
        ensures fixed { IfOk result (λ desk. owner.fixed ≡ Some (fixed_of desk)) }
        ensures all_kept { OnOk result ((c : ℕ) → 0 < c → c ≤ owner.made → Contains owner.kept c) }
        ensures no_other { IfOk result (λ desk. LacksUngiven owner.made (tagged desk.history)) }
    {
        let SharedDesk { turn } = self;
        match owner.close(turn) {
            Ok(desk) => Ok(desk),
            Err(CloseRefused { turn, owner, out }) => Err(DeskOut {
                desk: SharedDesk { turn },
                owner,
                out,
            }),
        }
    }

    /// Makes an empty blob, in one turn, and gives its id.
    pub fn create<R: Wait>(&self, rt: &R, pass: &mut Pass) -> Result<u64, DeskFault>
        requires { pass.old.lock ≡ self.now }
        ensures pass { pass.new ≡ record pass.old { seen = pass.new.seen; turns = pass.new.turns } }
        ensures one_turn { pass.new.turns ≡ pass.old.turns + 1 }
        ensures turned { let by = pass.old.caller in
            Turned (λ before f after. Changed f Calls.Create (Events.Create by) (λ blob. Outcomes.Blob blob) (λ fault. fault) before by result after) pass.old pass.new }
    {
        self.turn.with_turn(rt, pass, Create)
    }

    /// Numbers an update of the bytes of these pages, in one turn, and gives its ticket. Its hints are of the history that the
    /// call found, and it is a ticket of what the pass has seen then.
    pub fn assign<R: Wait>(
        &self,
        rt: &R,
        pass: &mut Pass,
        blob: u64,
        place: Place,
        pages: &Arc<Pages>,
    ) -> Result<Ticket, DeskFault>
        requires pass { pass.old.lock ≡ self.now }
        requires ready { IfSome pass.old.fixed (λ f. MayAssign (arc_value pages.now) f) }
        ensures pass { pass.new ≡ record pass.old { seen = pass.new.seen; turns = pass.new.turns } }
        ensures one_turn { pass.new.turns ≡ pass.old.turns + 1 }
        ensures turned { let bytes = bytes_of_pages (arc_value pages.now).pages in let by = pass.old.caller in
            Turned (λ before f after.
            Changed f (Calls.Assign blob place bytes) (Events.Assign by blob place bytes) (λ t. Outcomes.Assigned t.version t.at t.size) (λ fault. fault) before by result after
            × IfOk result (λ t. IsNewTicket f blob by (arc_value pages.now) before after t)) pass.old pass.new }
    {
        self.turn.with_turn(rt, pass, Assign { blob, place, pages })
    }

    /// Finishes a ticket's update by its row, in one turn, and gives the version that is published then. On an error the row
    /// comes back. The ticket is of what the pass has seen; and there the version before it is published, if the update stores pages
    /// of its blob anew.
    pub fn finish<R: Wait>(
        &self,
        rt: &R,
        pass: &mut Pass,
        ticket: &Ticket,
        row: Arc<Row>,
    ) -> Result<u64, (DeskFault, Arc<Row>)>
        requires pass { pass.old.lock ≡ self.now }
        requires ready { IfSome pass.old.fixed (λ f. MayFinish ticket.now (arc_value row) pass.old.seen f) }
        ensures pass { pass.new ≡ record pass.old { seen = pass.new.seen; turns = pass.new.turns } }
        ensures one_turn { pass.new.turns ≡ pass.old.turns + 1 }
        ensures turned { let t = ticket.now in let by = pass.old.caller in
            Turned (λ before f after. Changed f (Calls.Finish t.blob t.version) (Events.Finish by t.blob t.version) (λ published. Outcomes.Published published) (λ e. e.0) before by result after
            × Finishes f t row before after result) pass.old pass.new }
    {
        self.turn.with_turn(rt, pass, Finish { ticket, row })
    }

    /// Makes a blob that shares the versions of this one up to a published one, in one turn, and gives its id.
    pub fn branch<R: Wait>(
        &self,
        rt: &R,
        pass: &mut Pass,
        blob: u64,
        version: u64,
    ) -> Result<u64, DeskFault>
        requires { pass.old.lock ≡ self.now }
        ensures pass { pass.new ≡ record pass.old { seen = pass.new.seen; turns = pass.new.turns } }
        ensures one_turn { pass.new.turns ≡ pass.old.turns + 1 }
        ensures turned { let by = pass.old.caller in
            Turned (λ before f after. Changed f (Calls.Branch blob version) (Events.Branch by blob version) (λ id. Outcomes.Blob id) (λ fault. fault) before by result after) pass.old pass.new }
    {
        self.turn.with_turn(rt, pass, Branch { blob, version })
    }

    /// The snapshot of a published version, in one turn. `Refused` as the size of the version is; `NoMemory` tells the version's size.
    pub fn snapshot_of<R: Wait>(
        &self,
        rt: &R,
        pass: &mut Pass,
        blob: u64,
        version: u64,
    ) -> Result<Snapshot, OpenFault>
        requires { pass.old.lock ≡ self.now }
        ensures pass { pass.new ≡ record pass.old { seen = pass.new.seen; turns = pass.new.turns } }
        ensures one_turn { pass.new.turns ≡ pass.old.turns + 1 }
        ensures turned { Turned (λ before f after. Opened f blob version before pass.old.caller result after) pass.old pass.new }
    {
        self.turn.with_turn(rt, pass, Open { blob, version })
    }

    /// The ticket of a waiting version, in one turn, whichever pass numbered it. Its hints are of the history that the call found,
    /// which the pass has seen then, and it is a ticket of that history: the pass may finish by it.
    pub fn ticket_of<R: Wait>(
        &self,
        rt: &R,
        pass: &mut Pass,
        blob: u64,
        version: u64,
    ) -> Result<Ticket, DeskFault>
        requires { pass.old.lock ≡ self.now }
        ensures pass { pass.new ≡ record pass.old { seen = pass.new.seen; turns = pass.new.turns } }
        ensures one_turn { pass.new.turns ≡ pass.old.turns + 1 }
        ensures turned { Turned (λ before f after. Reissued f blob version before result after) pass.old pass.new }
    {
        self.turn.with_turn(rt, pass, Reissue { blob, version })
    }

    /// What the store would refuse of an update of `len` bytes at that place, or `None`, in one turn.
    pub fn refusal_of<R: Wait>(
        &self,
        rt: &R,
        pass: &mut Pass,
        blob: u64,
        place: Place,
        len: u64,
    ) -> Option<Refusal>
        requires lock { pass.old.lock ≡ self.now }
        requires some { 1 ≤ len }
        requires few { len ≤ most_bytes }
        ensures pass { pass.new ≡ record pass.old { seen = pass.new.seen; turns = pass.new.turns } }
        ensures one_turn { pass.new.turns ≡ pass.old.turns + 1 }
        ensures turned { Turned (λ before f after. Foreseen f blob place len before pass.old.caller result after) pass.old pass.new }
    {
        self.turn.with_turn(rt, pass, Foresee { blob, place, len })
    }

    /// A look at the blob, in one turn.
    pub fn look<R: Wait>(&self, rt: &R, pass: &mut Pass, blob: u64, look: Look) -> Outcome
        requires { pass.old.lock ≡ self.now }
        ensures pass { pass.new ≡ record pass.old { seen = pass.new.seen; turns = pass.new.turns } }
        ensures one_turn { pass.new.turns ≡ pass.old.turns + 1 }
        ensures turned { Turned (λ before f after. Looked f (look_call look blob) before pass.old.caller result after) pass.old pass.new }
    {
        self.turn.with_turn(rt, pass, LookAt { blob, look })
    }

    /// The greatest published version of the blob and its size, in one turn.
    pub fn recent<R: Wait>(&self, rt: &R, pass: &mut Pass, blob: u64) -> Outcome
        requires { pass.old.lock ≡ self.now }
        ensures pass { pass.new ≡ record pass.old { seen = pass.new.seen; turns = pass.new.turns } }
        ensures one_turn { pass.new.turns ≡ pass.old.turns + 1 }
        ensures turned { Turned (λ before f after. Looked f (Calls.Recent blob) before pass.old.caller result after) pass.old pass.new }
    {
        self.look(rt, pass, blob, Look::Recent)
    }

    /// The size of a published version, in one turn.
    pub fn size<R: Wait>(&self, rt: &R, pass: &mut Pass, blob: u64, version: u64) -> Outcome
        requires { pass.old.lock ≡ self.now }
        ensures pass { pass.new ≡ record pass.old { seen = pass.new.seen; turns = pass.new.turns } }
        ensures one_turn { pass.new.turns ≡ pass.old.turns + 1 }
        ensures turned { Turned (λ before f after. Looked f (Calls.Size blob version) before pass.old.caller result after) pass.old pass.new }
    {
        self.look(rt, pass, blob, Look::Size { version })
    }

    /// Whether a numbered version is published, in one turn.
    pub fn sync<R: Wait>(&self, rt: &R, pass: &mut Pass, blob: u64, version: u64) -> Outcome
        requires { pass.old.lock ≡ self.now }
        ensures pass { pass.new ≡ record pass.old { seen = pass.new.seen; turns = pass.new.turns } }
        ensures one_turn { pass.new.turns ≡ pass.old.turns + 1 }
        ensures turned { Turned (λ before f after. Looked f (Calls.Sync blob version) before pass.old.caller result after) pass.old pass.new }
    {
        self.look(rt, pass, blob, Look::Sync { version })
    }

    /// How far the blob's updates are, in one turn.
    pub fn status<R: Wait>(&self, rt: &R, pass: &mut Pass, blob: u64) -> Outcome
        requires { pass.old.lock ≡ self.now }
        ensures pass { pass.new ≡ record pass.old { seen = pass.new.seen; turns = pass.new.turns } }
        ensures one_turn { pass.new.turns ≡ pass.old.turns + 1 }
        ensures turned { Turned (λ before f after. Looked f (Calls.Status blob) before pass.old.caller result after) pass.old pass.new }
    {
        self.look(rt, pass, blob, Look::Status)
    }
}
