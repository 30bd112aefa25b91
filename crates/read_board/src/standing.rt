// A session that reads from the board where it can.
ghost use Rattle.std.specs.Prelude.{◌≡◌, ◌+◌, ◌≤◌, [], ◌∷◌, None, Some, IfErr, map, sum_by, length};
ghost use mathlib.Core.List.{IsPrefix};
ghost use Rattle.faults.specs.Counts.{RoseBy};
ghost use Rattle.request_form.specs.Replies.{fault_count};
ghost use Rattle.client_session.specs.Results.{read_reply};
ghost use Rattle.client_session.specs.Opening.{IsOfStore};
ghost use Rattle.client_session.specs.Sessions.{Continues};
ghost use Rattle.read_board.specs.Refreshes.{IsRising, version_of};
ghost use Rattle.read_board.specs.Reads.{Goes, ByBoard, ByTurn, LostBy, goes_by, bytes_said, said_by};

use crate::book::Front;
use crate::keeper::Note;
use crate::reader::Reader;
use crate::refresh::Refresh;
use blob_model::Bytes;
use client_session::Session;
use page_store::Door;
use ports::gate::Gate;
use request_form::Fault;
use std::marker::Model;
use std::sync::Wait;
use std::sync::ledger::Ledger;
use tree_geom::Steps;

/// Which way a read took.
#[derive(Clone, Copy, Debug, PartialEq, Eq)]
pub enum Way {
    /// By the board, with no turn.
    Board,
    /// By the session, with a turn unless it keeps a snapshot that reaches the version.
    Turn,
}

/// A reader that stands at a board, and works with a session. A contract sees its board, the beginning of the board's refreshes that it
/// has seen or learnt, whether it has a place, and its session.
#[derive(Drop)]
pub struct StandingReader<'a, D: Door, G: Gate> {
    reader: Reader,
    session: Session<'a, D, G>,
}

impl<'a, D: Door, G: Gate> Model for StandingReader<'a, D, G> {
    ghost use Rattle.std.specs.Prelude.{◌≡◌, [], ◌∷◌};
    ghost use Rattle.read_board.specs.Keeping.{StandingState};

    ghost Value = { StandingState D };

    ghost view = { λ s. record { board = s.reader.board; list = s.reader.list; has_place = s.reader.has_place; session = s.session } };

    ghost invariant = { λ s. s.reader.board.store ≡ s.session.store ∷ [] };
}

// What was read, with the way that it came.
fn by(way: Way, read: Result<Bytes, Fault>) -> Result<(Bytes, Way), Fault>
    ensures { result ≡ said_by way read }
{
    match read {
        Ok(bytes) => Ok((bytes, way)),
        Err(fault) => Err(fault),
    }
}

// A read of the refresh, at that version.
fn read_refresh<'a, D: Door, G: Gate, L: Ledger>(
    session: &mut Session<'a, D, G>,
    on: &Refresh,
    blob: u64,
    version: u64,
    offset: u64,
    count: u64,
    steps: &mut Steps<L>,
) -> Result<(Bytes, Way), Fault>
    requires of_store { IsOfStore session.old.store on.now.snapshot }
    requires within { version ≤ version_of on.now }
    ensures board { ByBoard on.now session.old version offset count result session.new steps.old steps.new }
    ensures failed { IfErr result (LostBy (Some on.now) session.new blob version offset count (map D.faults session.old.doors) (map D.faults session.new.doors)) }
    ensures faults { RoseBy (fault_count (read_reply (bytes_said result))) (sum_by D.faults session.old.doors) (sum_by D.faults session.new.doors) }
    ensures goes_on { Continues session.old session.new }
{
    snapshot::laws::rows_tell();
    on.snapshot.stands();
    let older = on.snapshot.view_at(version);
    by(Way::Board, session.read_view(&older, offset, count, steps))
}

// The session's own read.
fn read_in_turn<'a, D: Door, G: Gate, R: Wait, L: Ledger>(
    session: &mut Session<'a, D, G>,
    rt: &R,
    blob: u64,
    version: u64,
    offset: u64,
    count: u64,
    steps: &mut Steps<L>,
) -> Result<(Bytes, Way), Fault>
    ensures turn { ByTurn session.old blob version offset count result session.new steps.old steps.new }
    ensures failed { IfErr result (LostBy None session.new blob version offset count (map D.faults session.old.doors) (map D.faults session.new.doors)) }
    ensures rest { session.new ≡ record session.old { log = session.new.log; doors = session.new.doors; turns = session.new.turns; opened = session.new.opened } }
    ensures faults { RoseBy (fault_count (read_reply (bytes_said result))) (sum_by D.faults session.old.doors) (sum_by D.faults session.new.doors) }
    ensures goes_on { Continues session.old session.new }
{
    by(
        Way::Turn,
        session.read(rt, blob, version, offset, count, steps),
    )
}

impl<'a, D: Door, G: Gate> StandingReader<'a, D, G> {
    // A reader with this session.
    pub(crate) fn new(reader: Reader, session: Session<'a, D, G>) -> StandingReader<'a, D, G>
        requires { reader.board.store ≡ session.store ∷ [] }
        ensures { result ≡ record { board = reader.board; list = reader.list; has_place = reader.has_place; session = session.entry } }
    {
        StandingReader { reader, session }
    }

    // What it has seen and learnt.
    pub(crate) fn front(&self) -> &Front
        ensures { result.now ≡ record { board = self.now.board; list = self.now.list } }
    {
        self.reader.front()
    }

    /// Whether it has a place at the board.
    pub fn has_place(&self) -> bool
        ensures { result ≡ self.now.has_place }
    {
        self.reader.has_place()
    }

    /// Ends the reader, and gives its session back.
    pub fn into_session(self) -> Session<'a, D, G>
        ensures { result ≡ self.entry.session }
    {
        let StandingReader {
            reader: _reader,
            session,
        } = self;
        session
    }

    /// Learns what was published when the note was made: from now on it reads from no older refresh. The note must be of its board.
    pub fn learn(&mut self, note: Note)
        requires { note.board ≡ self.old.board }
        ensures seen { IsPrefix self.old.list self.new.list }
        ensures learnt { IsPrefix note.list self.new.list }
        ensures kept { (self.new.board ≡ self.old.board) × (self.new.has_place ≡ self.old.has_place) × (self.new.session ≡ self.old.session) }
    {
        self.reader.learn(note);
    }

    /// `count` bytes of a published version from byte `offset` on, and which way they took.
    ///
    /// It looks at the board first. Where it has a place, and the version is at most that of the blob's last refresh that it then knows,
    /// it reads by the board: it takes no turn and waits for nobody, so what its session has seen stays. The bytes are those of the
    /// refresh's updates up to the version, and the refusals those of `Session::read_at`, in that order. Any other read is
    /// `Session::read`, with its refusals and one turn at most. The count of the doors' faults and the number of nodes that are met are
    /// bounded as there, none where it is refused, and a lost page has the same cause. Nothing is entered, and but for what it saw, its
    /// turns, its doors and what it keeps the session stays.
    pub fn read<R: Wait, L: Ledger>(
        &mut self,
        rt: &R,
        blob: u64,
        version: u64,
        offset: u64,
        count: u64,
        steps: &mut Steps<L>,
    ) -> Result<(Bytes, Way), Fault>
        ensures seen { IsPrefix self.old.list self.new.list }
        ensures rising { IsRising self.new.list }
        ensures goes { Goes (goes_by self.new.has_place self.new.list blob version) self.old.session blob version offset count result self.new.session steps.old steps.new }
        ensures failed { IfErr result (LostBy (goes_by self.new.has_place self.new.list blob version) self.new.session blob version offset count
            (map D.faults self.old.session.doors) (map D.faults self.new.session.doors)) }
        ensures faults { RoseBy (fault_count (read_reply (bytes_said result))) (sum_by D.faults self.old.session.doors) (sum_by D.faults self.new.session.doors) }
        ensures goes_on { Continues self.old.session self.new.session }
        ensures rest { self.new.session ≡ record self.old.session { log = self.new.session.log; doors = self.new.session.doors; turns = self.new.session.turns; opened = self.new.session.opened } }
        ensures kept { (self.new.board ≡ self.old.board) × (self.new.has_place ≡ self.old.has_place) }
    {
        self.reader.look();
        self.reader.stands();
        match self.reader.find(blob, version) {
            Some(on) => read_refresh(&mut self.session, on, blob, version, offset, count, steps),
            None => read_in_turn(&mut self.session, rt, blob, version, offset, count, steps),
        }
    }
}
