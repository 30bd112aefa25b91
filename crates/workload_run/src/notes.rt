// What the keeper and the readers of a watch did.
ghost use Rattle.std.specs.Prelude.{◌≡◌, ◌≢◌, ◌<◌, ◌+◌, ◌^◌, [], ◌++◌, ℕ, Some, None, IfErr, OnOk, OnErr, map};
ghost use mathlib.Core.List.{IsPrefix};
ghost use Rattle.request_form.specs.Replies.{page_faults};
ghost use Rattle.request_form.specs.declared.form.Fault.TheVariants.{NotPublished};
ghost use Rattle.workload_run.specs.Updates.{told_faults};
ghost use Rattle.read_board.specs.Refreshes.{version_of};
ghost use Rattle.workload_law.specs.WatchNotes.{noted};
ghost use Rattle.workload_run.specs.Readers.{ReadHindered, HasRead};
ghost use Rattle.workload_run.specs.Noting.{ReadIsNoted};

use crate::writing::BLOB;
use boxcar::tag::{Names, Tag};
use page_store::Door;
use ports::gate::Gate;
use read_board::{Keeper, StandingReader};
use request_form::Fault;
use std::marker::Model;
use std::mem::size_of;
use std::sync::Wait;
use std::sync::ledger::{Blank, Ledger};
use tree_geom::Steps;
use workload_law::laws::sessions_own;

// How many bytes an update has, and a read.
const PIECE: u64 = 16;

/// The reads of readers, oldest first: of each its version, and the bytes that it gave, or that the version wasn't published yet. Contracts
/// alone see it: at run time it has no bytes. Nothing but a read gets into it, by `read_noted`.
#[derive(Drop)]
pub(crate) struct Readings {
    tag: Tag,
}

impl Model for Readings {
    ghost use Rattle.std.specs.Prelude.{ℕ, List};

    ghost Value = { List ℕ };

    ghost view = { λ r. r.tag.numbers };
}

// Reads, and one more of that version, with the bytes that it gave.
#[derive(Drop)]
struct Longer<'a> {
    before: &'a Tag,
    version: u64,
    bytes: &'a [u8],
}

struct GaveBytes;

impl<'a> Names<Longer<'a>> for GaveBytes {
    ghost use Rattle.std.specs.Prelude.{◌++◌, Some};
    ghost use Rattle.workload_law.specs.WatchNotes.{noted};

    ghost numbers = { λ l. l.before.now.numbers ++ noted l.version (Some l.bytes.now) };
}

// One more that gave none, as the version wasn't published yet.
#[derive(Drop)]
struct PassedOver<'a> {
    before: &'a Tag,
    version: u64,
}

struct GaveNone;

impl<'a> Names<PassedOver<'a>> for GaveNone {
    ghost use Rattle.std.specs.Prelude.{◌++◌, None};
    ghost use Rattle.workload_law.specs.WatchNotes.{noted};

    ghost numbers = { λ l. l.before.now.numbers ++ noted l.version None };
}

// The reads of a reader, and then those of the readers after it.
#[derive(Drop)]
struct Both<'a> {
    own: &'a Tag,
    rest: &'a Tag,
}

struct Joined;

impl<'a> Names<Both<'a>> for Joined {
    ghost use Rattle.std.specs.Prelude.{◌++◌};

    ghost numbers = { λ b. b.own.now.numbers ++ b.rest.now.numbers };
}

// It takes no room in what holds it.
const _: () = prove!(size_of::<Readings>() == 0 && size_of::<WatchNotes>() == 0);

impl Readings {
    /// Of no read.
    pub(crate) fn none() -> Readings
        ensures { result ≡ [] }
    {
        Readings { tag: Tag::empty() }
    }

    /// Puts a reader's reads before these, which are those of the readers after it.
    pub(crate) fn put_before(&mut self, own: &Readings)
        ensures { self.new ≡ own.now ++ self.old }
    {
        self.tag = Tag::of::<Both, Joined>(&Both {
            own: &own.tag,
            rest: &self.tag,
        });
    }

    // A read of that version gave these bytes.
    fn add(&mut self, version: u64, bytes: &[u8])
        ensures { self.new ≡ self.old ++ noted version (Some bytes.now) }
    {
        self.tag = Tag::of::<Longer, GaveBytes>(&Longer {
            before: &self.tag,
            version,
            bytes,
        });
    }

    // A read of that version gave none, as it isn't published yet.
    fn pass_over(&mut self, version: u64)
        ensures { self.new ≡ self.old ++ noted version None }
    {
        self.tag = Tag::of::<PassedOver, GaveNone>(&PassedOver {
            before: &self.tag,
            version,
        });
    }
}

// A version that isn't published yet is passed over, and that is noted. Whatever else a reader is refused stops it.
fn stop_of(fault: Fault, op: u64, readings: &mut Readings) -> Result<(), Fault>
    requires few { op < 2 ^ 32 }
    ensures same { IfErr result (λ stop. stop ≡ fault) }
    ensures other { IfErr result (λ stop. (version last : ℕ) → stop ≢ NotPublished version last) }
    ensures passes { OnOk result ((version : ℕ) × ((last : ℕ) × (fault ≡ NotPublished version last))) }
    ensures noted { OnOk result (readings.new ≡ readings.old ++ noted (op + 1) None) }
    ensures unnoted { OnErr result (readings.new ≡ readings.old) }
    ensures faults { told_faults result ≡ page_faults fault }
{
    match fault {
        Fault::NotPublished { .. } => {
            readings.pass_over(op + 1);
            Ok(())
        }
        _ => Err(fault),
    }
}

/// Reads the bytes of one update, and notes what it read: the bytes, or that their version isn't published yet. Nobody counts its node
/// steps.
pub(crate) fn read_noted<R: Wait, D: Door, G: Gate, L: Ledger>(
    rt: &R,
    reader: &mut StandingReader<'_, D, G>,
    op: u64,
    blank: Blank,
    readings: &mut Readings,
) -> Result<(), Fault>
    requires name { blank.name ≡ L.name }
    requires parts { blank.parts ≡ L.parts }
    requires some { 0 < blank.parts }
    requires few { op < 2 ^ 32 }
    ensures read { HasRead D.faults (told_faults result) reader.old reader.new }
    ensures stop { IfErr result (ReadHindered reader.new) }
    ensures seen { IsPrefix reader.old.list reader.new.list }
    ensures noted { OnOk result (ReadIsNoted reader.old reader.new op readings.old readings.new) }
    ensures unnoted { OnErr result (readings.new ≡ readings.old) }
{
    sessions_own();
    let mut steps = Steps::<L>::open(blank);
    match reader.read(rt, BLOB, op + 1, PIECE * op, PIECE, &mut steps) {
        Ok((bytes, _way)) => {
            readings.add(op + 1, bytes.as_slice());
            Ok(())
        }
        Err(fault) => stop_of(fault, op, readings),
    }
}

/// What the keeper and the readers of a watch did. Contracts alone see it: at run time it has no bytes. They see the versions of the
/// keeper's refreshes in order, and the reads of the readers, one reader's after another's.
#[derive(Drop)]
pub struct WatchNotes {
    refreshes: Tag,
    readings: Readings,
}

impl Model for WatchNotes {
    ghost use Rattle.workload_law.specs.WatchNotes.{NotesState};

    ghost Value = { NotesState };

    ghost view = { λ n. record { refreshes = n.refreshes.numbers; readings = n.readings } };
}

// The versions of a keeper's refreshes.
struct Versions;

impl<W: Wait + Drop> Names<Keeper<W>> for Versions {
    ghost use Rattle.std.specs.Prelude.{map};
    ghost use Rattle.read_board.specs.Refreshes.{version_of};

    ghost numbers = { λ k. map version_of k.all };
}

impl WatchNotes {
    /// Of that keeper, and of readers that read this.
    pub(crate) fn new<W: Wait + Drop>(keeper: &Keeper<W>, readings: Readings) -> WatchNotes
        ensures { result ≡ record { refreshes = map version_of keeper.now.all; readings = readings } }
    {
        WatchNotes {
            refreshes: Tag::of::<Keeper<W>, Versions>(keeper),
            readings,
        }
    }
}
