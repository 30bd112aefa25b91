//! What is stated of a read before it.
ghost use Rattle.std.specs.Prelude.{◌≡◌, ◌<◌, IfOk};
ghost use Rattle.client_session.specs.Opening.{IsOfStore};

use crate::store::{Member, check};
use crate::visits::Part;
use range_reader::stated;
use request_form::Fault;
use snapshot::Snapshot;
use std::marker::Brand;
use std::process::Abort;
use std::sync::Wait;
use std::sync::ledger::{Blank, Ledger};
use tree_geom::Steps;

/// A version of blob 1.
pub(crate) fn opened<R: Wait>(
    rt: &R,
    session: &mut Member<'_>,
    version: u64,
) -> Result<Snapshot, Fault>
    ensures of_store { IfOk result (IsOfStore session.new.store) }
{
    session.open(rt, 1, version)
}

// The most node steps of a read of the range, and how many it took to tell that.
fn stated_by<R: Abort, L: Ledger>(
    rt: &R,
    session: &Member<'_>,
    snapshot: &Snapshot,
    part: Part,
    blank: Blank,
) -> (u64, u64)
    requires name { blank.name ≡ L.name }
    requires parts { blank.parts ≡ L.parts }
    requires some { 0 < blank.parts }
    requires of_store { IsOfStore session.now.store snapshot.now }
{
    let mut steps = Steps::<L>::open(blank);
    let nodes = session.nodes();
    let most = stated(snapshot, nodes, part.offset, part.count, &mut steps);
    (most.ok().expect(rt, "a range"), steps.taken())
}

/// The most node steps of a read of the range, as it is stated before the read. It takes no more of them to state it.
pub(crate) fn told<R: Wait + Abort>(rt: &R, session: &mut Member<'_>, part: Part) -> u64 {
    let snapshot = opened(rt, session, part.version).expect(rt, "a version");
    let (most, steps) = stated_by::<R, Brand>(rt, session, &snapshot, part, Blank::new(1));
    check(rt, steps <= most, true, "steps of stating a bound");
    most
}
