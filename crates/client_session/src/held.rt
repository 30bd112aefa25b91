// The updates that a session holds: numbered, and not yet finished.
ghost use Rattle.std.specs.Prelude.{◌≡◌, ℕ, ◌<◌, ◌≤◌, List, [], ◌∷◌, ◌++◌, length, None, Some, IfOk, IfSome, MatchOption, option_map, remove, slice_get};
ghost use Rattle.std.specs.Arc.{arc_value};
ghost use Rattle.request_form.specs.Session.{ticket_at};
ghost use Rattle.client_session.specs.Tickets.{OpenUpdate, tickets_of, IsHeldAt, HoldsNone, IsVersionAt};

use border_hints::Ticket;
use node_store::Row;
use request_form::NoMemory;
use std::alloc::Global;
use std::marker::Model;
use std::sync::Arc;

/// The most tickets that a session holds.
pub const MAX_TICKETS: usize = 64;

/// An update that is held under a number: it is numbered and waits for its finish. Its row is beside it, where it is woven.
pub struct OpenTicket {
    number: u64,
    ticket: Ticket,
    row: Option<Arc<Row>>,
}

// By hand, so that it is one call wherever a held update is let go: a derived drop stands, with all its calls, at each such place.
impl Drop for OpenTicket {
    fn drop(self) {
        let OpenTicket {
            number: _,
            ticket: _,
            row: _,
        } = self;
    }
}

impl Model for OpenTicket {
    ghost use Rattle.std.specs.Prelude.{option_map};
    ghost use Rattle.std.specs.Arc.{arc_value};
    ghost use Rattle.client_session.specs.Tickets.{OpenUpdate};

    ghost Value = { OpenUpdate };

    ghost view = { λ o. record { number = o.number; ticket = o.ticket; row = option_map arc_value o.row } };
}

impl OpenTicket {
    /// The ticket's update, held under that number.
    pub fn new(number: u64, ticket: Ticket, row: Option<Arc<Row>>) -> OpenTicket
        ensures { result ≡ record { number = number; ticket = ticket; row = option_map arc_value row } }
    {
        OpenTicket {
            number,
            ticket,
            row,
        }
    }

    /// The number that it is held under.
    pub fn number(&self) -> u64
        ensures { result ≡ self.now.number }
    {
        self.number
    }

    /// The ticket of its numbering.
    pub fn ticket(&self) -> &Ticket
        ensures { result.now ≡ self.now.ticket }
    {
        &self.ticket
    }

    /// A share of the row, where it is woven.
    pub fn row(&self) -> Result<Option<Arc<Row>>, NoMemory>
        ensures { IfOk result (λ row. option_map arc_value row ≡ self.now.row) }
    {
        match &self.row {
            None => Ok(None),
            Some(row) => match Arc::try_clone(row) {
                Ok(row) => Ok(Some(row)),
                Err(_) => Err(NoMemory),
            },
        }
    }
}

/// At most 64 held updates, in the order in which they were added. The room is made once, and all calls but `new` take no memory.
pub struct Tickets {
    open: Vec<OpenTicket>,
}

// By hand, for the same.
impl Drop for Tickets {
    fn drop(self) {
        let Tickets { open: _ } = self;
    }
}

impl Model for Tickets {
    ghost use Rattle.std.specs.Prelude.{List, ◌≤◌, vec_capacity, vec_len};
    ghost use Rattle.client_session.specs.Tickets.{OpenUpdate};

    ghost Value = { List OpenUpdate };

    ghost view = { λ t. t.open.items };

    ghost invariant = { λ t. (vec_len t.open ≤ 64) × (64 ≤ vec_capacity t.open) };
}

impl Tickets {
    /// None yet, with room for 64.
    pub fn new(alloc: Global) -> Result<Tickets, NoMemory>
        ensures { IfOk result (λ tickets. tickets ≡ []) }
    {
        match Vec::with_capacity(alloc, MAX_TICKETS) {
            Ok(open) => Ok(Tickets { open }),
            Err(_) => Err(NoMemory),
        }
    }

    /// How many are held.
    pub fn count(&self) -> usize
        ensures count { result ≡ length self.now }
        ensures few { result ≤ 64 }
    {
        self.open.len()
    }

    /// The index of the first update of that number, or none where there is no such update.
    pub fn find(&self, number: u64) -> Option<usize>
        ensures { MatchOption result (ticket_at (tickets_of self.now) number ≡ None) (λ index. IsHeldAt self.now number index) }
    {
        for (index, open) in self.open.iter().enumerate() {
            if open.number() == number {
                return Some(index);
            }
        }
        None
    }

    /// The index of the first update of that version of the blob, or none where there is no such update.
    pub fn find_version(&self, blob: u64, version: u64) -> Option<usize>
        ensures { MatchOption result (HoldsNone self.now blob version) (λ index. IsVersionAt self.now blob version index) }
    {
        for (index, open) in self.open.iter().enumerate() {
            let ticket = open.ticket();
            if ticket.blob() == blob && ticket.version() == version {
                return Some(index);
            }
        }
        None
    }

    /// The update at that index.
    pub fn at(&self, index: usize) -> &OpenTicket
        requires { index < length self.now }
        ensures { slice_get self.now index ≡ Some result.now }
    {
        &self.open[index]
    }

    /// Holds one more, behind the others.
    pub fn add(&mut self, update: OpenTicket)
        requires { length self.old < 64 }
        ensures { self.new ≡ self.old ++ update ∷ [] }
    {
        self.open.push_reserved(update);
    }

    /// Gives up the update at that index. Those behind it move up.
    pub fn remove(&mut self, index: usize)
        requires { index < length self.old }
        ensures { self.new ≡ remove self.old index }
    {
        let _open = self.open.remove(index);
    }
}
