// What ends a watch: each reader reads what the last session read.
ghost use Rattle.std.specs.Prelude.{◌≡◌, ◌<◌, true, IfOk, IfErr, sum_by};
ghost use Rattle.faults.specs.Counts.{RoseBy};
ghost use Rattle.workload_law.specs.Ends.{IsOutside};
ghost use Rattle.workload_run.specs.Updates.{told_faults};
ghost use Rattle.workload_run.specs.Agreeing.{IsPageOfLast, IsToldBy, IsSeenBy};
ghost use Rattle.workload_run.specs.Idling.{Idles};
ghost use Rattle.workload_run.specs.Readers.{HasRead};

use crate::last::Last;
use crate::writing::BLOB;
use client_session::Session;
use page_store::Door;
use ports::gate::Gate;
use read_board::{Note, StandingReader};
use request_form::Fault;
use std::sync::Wait;
use std::sync::ledger::{Blank, Ledger};
use tree_geom::Steps;
use workload_law::laws::sessions_own;

/// Whether a reader with a place, once it has learnt the note, reads the last version's bytes. Nobody counts its node steps.
pub(crate) fn compare_by_place<R: Wait, D: Door, G: Gate, L: Ledger>(
    rt: &R,
    reader: &mut StandingReader<'_, D, G>,
    note: Note,
    last: &Last,
    blank: Blank,
) -> Result<bool, Fault>
    requires name { blank.name ≡ L.name }
    requires parts { blank.parts ≡ L.parts }
    requires some { 0 < blank.parts }
    requires board { note.board ≡ reader.old.board }
    requires place { reader.old.has_place ≡ true }
    requires told { IsToldBy note.list last.now }
    ensures agrees { IfOk result (λ same. same ≡ true) }
    ensures stop { IfErr result (IsOutside (IsPageOfLast reader.old.session.store.fixed.page_size last.now)) }
    ensures read { HasRead D.faults (told_faults result) reader.old reader.new }
{
    sessions_own();
    read_board::laws::reads_agree();
    reader.learn(note);
    let mut steps = Steps::<L>::open(blank);
    let count = last.bytes.len() as u64;
    match reader.read(rt, BLOB, last.version, 0, count, &mut steps) {
        Ok((bytes, _way)) => Ok(bytes.as_slice() == last.bytes.as_slice()),
        Err(fault) => Err(fault),
    }
}

/// Whether a session reads the last version's bytes. Nobody counts its node steps.
pub(crate) fn compare_by_turn<R: Wait, D: Door, G: Gate, L: Ledger>(
    rt: &R,
    session: &mut Session<'_, D, G>,
    last: &Last,
    blank: Blank,
) -> Result<bool, Fault>
    requires name { blank.name ≡ L.name }
    requires parts { blank.parts ≡ L.parts }
    requires some { 0 < blank.parts }
    requires seen { IsSeenBy session.old last.now }
    ensures agrees { IfOk result (λ same. same ≡ true) }
    ensures stop { IfErr result (IsOutside (IsPageOfLast session.old.store.fixed.page_size last.now)) }
    ensures idles { Idles session.old session.new }
    ensures rose { RoseBy (told_faults result) (sum_by D.faults session.old.doors) (sum_by D.faults session.new.doors) }
{
    sessions_own();
    let mut steps = Steps::<L>::open(blank);
    let count = last.bytes.len() as u64;
    match session.read(rt, BLOB, last.version, 0, count, &mut steps) {
        Ok(bytes) => Ok(bytes.as_slice() == last.bytes.as_slice()),
        Err(fault) => Err(fault),
    }
}
