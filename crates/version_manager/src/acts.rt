// What is done to a desk in one turn. An act adds the entry of its change where it is done, or none.
ghost use Rattle.std.specs.Prelude.{◌≡◌, ℕ};
ghost use Rattle.blob_model.specs.declared.call.Call.TheVariants as Calls;
ghost use Rattle.blob_model.specs.declared.call.Event.TheVariants as Events;
ghost use Rattle.blob_model.specs.declared.call.Outcome.TheVariants as Outcomes;

use crate::desk::Desk;
use crate::fault::{DeskFault, OpenFault};
use crate::look::Look;
use blob_model::{Outcome, Place, Refusal};
use border_hints::Ticket;
use node_store::Row;
use page_store::Pages;
use snapshot::Snapshot;
use std::sync::Arc;
use turn_lock::Act;

/// Makes an empty blob.
pub struct Create;

impl Act<Desk> for Create {
    ghost use Rattle.blob_model.specs.declared.call.Call.TheVariants as Calls;
    ghost use Rattle.blob_model.specs.declared.call.Event.TheVariants as Events;
    ghost use Rattle.blob_model.specs.declared.call.Outcome.TheVariants as Outcomes;
    ghost use Rattle.version_manager.specs.Log.{Changed};

    type Answer = Result<u64, DeskFault>;

    ghost ready = { λ _ _ _. Unit {0} };

    ghost gives = { λ _ before f by said after. Changed f Calls.Create (Events.Create by) (λ blob. Outcomes.Blob blob) (λ fault. fault) before by said after };

    fn act(self, state: &mut Desk, caller: u32) -> Result<u64, DeskFault> {
        let Create = self;
        state.stands();
        let created = state.create(caller);
        state.stands();
        created
    }

    ghost stays_ready = { λ _ _ _ _ _. tt };
}

/// Numbers an update of the bytes of these pages.
pub struct Assign<'a> {
    pub blob: u64,
    pub place: Place,
    pub pages: &'a Arc<Pages>,
}

impl Act<Desk> for Assign<'_> {
    ghost use Rattle.std.specs.Prelude.{IfOk};
    ghost use Rattle.std.specs.Arc.{arc_value};
    ghost use Rattle.page_store.specs.Stored.{bytes_of_pages};
    ghost use Rattle.blob_model.specs.declared.call.Call.TheVariants as Calls;
    ghost use Rattle.blob_model.specs.declared.call.Event.TheVariants as Events;
    ghost use Rattle.blob_model.specs.declared.call.Outcome.TheVariants as Outcomes;
    ghost use Rattle.version_manager.specs.Log.{Changed, MayAssign, IsNewTicket};

    type Answer = Result<Ticket, DeskFault>;

    ghost ready = { λ a _ f. MayAssign (arc_value a.pages.now) f };

    ghost gives = { λ a before f by said after. let bytes = bytes_of_pages (arc_value a.pages.now).pages in
        Changed f (Calls.Assign a.blob a.place bytes) (Events.Assign by a.blob a.place bytes) (λ t. Outcomes.Assigned t.version t.at t.size) (λ fault. fault) before by said after
        × IfOk said (λ t. IsNewTicket f a.blob by (arc_value a.pages.now) before after t) };

    fn act(self, state: &mut Desk, caller: u32) -> Result<Ticket, DeskFault> {
        let Assign { blob, place, pages } = self;
        state.stands();
        let assigned = state.assign(caller, blob, place, pages);
        state.stands();
        assigned
    }

    ghost stays_ready = { λ _ _ _ _ h. h };
}

/// Finishes a ticket's update by its row.
pub struct Finish<'a> {
    pub ticket: &'a Ticket,
    pub row: Arc<Row>,
}

impl Act<Desk> for Finish<'_> {
    ghost use Rattle.std.specs.Arc.{arc_value};
    ghost use Rattle.blob_model.specs.declared.call.Call.TheVariants as Calls;
    ghost use Rattle.blob_model.specs.declared.call.Event.TheVariants as Events;
    ghost use Rattle.blob_model.specs.declared.call.Outcome.TheVariants as Outcomes;
    ghost use Rattle.version_manager.specs.Log.{Changed, MayFinish, Finishes};
    ghost use Rattle.version_manager.specs.Stays.{finish_stays};

    type Answer = Result<u64, (DeskFault, Arc<Row>)>;

    ghost ready = { λ a log f. MayFinish a.ticket.now (arc_value a.row) log f };

    ghost gives = { λ a before f by said after. let t = a.ticket.now in
        Changed f (Calls.Finish t.blob t.version) (Events.Finish by t.blob t.version) (λ published. Outcomes.Published published) (λ e. e.0) before by said after
        × Finishes f t a.row before after said };

    fn act(self, state: &mut Desk, caller: u32) -> Result<u64, (DeskFault, Arc<Row>)> {
        let Finish { ticket, row } = self;
        state.stands();
        let finished = state.finish(caller, ticket, row);
        state.stands();
        ticket.stands();
        finished
    }

    ghost stays_ready = { λ a xs ys f h. finish_stays a.ticket.now (arc_value a.row) xs ys f h };
}

/// Makes a blob that shares the versions of this one up to a published one.
pub struct Branch {
    pub blob: u64,
    pub version: u64,
}

impl Act<Desk> for Branch {
    ghost use Rattle.blob_model.specs.declared.call.Call.TheVariants as Calls;
    ghost use Rattle.blob_model.specs.declared.call.Event.TheVariants as Events;
    ghost use Rattle.blob_model.specs.declared.call.Outcome.TheVariants as Outcomes;
    ghost use Rattle.version_manager.specs.Log.{Changed};

    type Answer = Result<u64, DeskFault>;

    ghost ready = { λ _ _ _. Unit {0} };

    ghost gives = { λ a before f by said after. Changed f (Calls.Branch a.blob a.version) (Events.Branch by a.blob a.version) (λ blob. Outcomes.Blob blob) (λ fault. fault) before by said after };

    fn act(self, state: &mut Desk, caller: u32) -> Result<u64, DeskFault> {
        let Branch { blob, version } = self;
        state.stands();
        let branched = state.branch(caller, blob, version);
        state.stands();
        branched
    }

    ghost stays_ready = { λ _ _ _ _ _. tt };
}

/// Hands out the snapshot of a published version.
pub struct Open {
    pub blob: u64,
    pub version: u64,
}

impl Act<Desk> for Open {
    ghost use Rattle.version_manager.specs.Log.{Opened};

    type Answer = Result<Snapshot, OpenFault>;

    ghost ready = { λ _ _ _. Unit {0} };

    ghost gives = { λ a before f by said after. Opened f a.blob a.version before by said after };

    fn act(self, state: &mut Desk, _caller: u32) -> Result<Snapshot, OpenFault> {
        let Open { blob, version } = self;
        state.stands();
        state.snapshot_of(blob, version)
    }

    ghost stays_ready = { λ _ _ _ _ _. tt };
}

/// Hands out the ticket of a waiting version.
pub struct Reissue {
    pub blob: u64,
    pub version: u64,
}

impl Act<Desk> for Reissue {
    ghost use Rattle.version_manager.specs.Log.{Reissued};

    type Answer = Result<Ticket, DeskFault>;

    ghost ready = { λ _ _ _. Unit {0} };

    ghost gives = { λ a before f by said after. Reissued f a.blob a.version before said after };

    fn act(self, state: &mut Desk, _caller: u32) -> Result<Ticket, DeskFault> {
        let Reissue { blob, version } = self;
        state.stands();
        state.ticket_of(blob, version)
    }

    ghost stays_ready = { λ _ _ _ _ _. tt };
}

/// What would be refused of an update of so many bytes at that place.
pub struct Foresee {
    pub blob: u64,
    pub place: Place,
    pub len: u64,
}

impl Act<Desk> for Foresee {
    ghost use Rattle.std.specs.Prelude.{◌≤◌};
    ghost use Rattle.version_manager.specs.Desks.{most_bytes};
    ghost use Rattle.version_manager.specs.Log.{Foreseen};

    type Answer = Option<Refusal>;

    ghost ready = { λ a _ _. (1 ≤ a.len) × (a.len ≤ most_bytes) };

    ghost gives = { λ a before f by said after. Foreseen f a.blob a.place a.len before by said after };

    fn act(self, state: &mut Desk, _caller: u32) -> Option<Refusal> {
        let Foresee { blob, place, len } = self;
        state.stands();
        state.refusal_of(blob, place, len)
    }

    ghost stays_ready = { λ _ _ _ _ h. h };
}

/// Looks at a blob.
pub struct LookAt {
    pub blob: u64,
    pub look: Look,
}

impl Act<Desk> for LookAt {
    ghost use Rattle.version_manager.specs.Log.{Looked};
    ghost use Rattle.version_manager.specs.Looks.{look_call};

    type Answer = Outcome;

    ghost ready = { λ _ _ _. Unit {0} };

    ghost gives = { λ a before f by said after. Looked f (look_call a.look a.blob) before by said after };

    fn act(self, state: &mut Desk, _caller: u32) -> Outcome {
        let LookAt { blob, look } = self;
        state.stands();
        state.look(blob, look)
    }

    ghost stays_ready = { λ _ _ _ _ _. tt };
}
