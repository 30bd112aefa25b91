//! Calls of keepers, readers and sessions, and the bytes that they write and read: what a store of one blob has, spelled naively.
ghost use Rattle.std.specs.Prelude.{◌≡◌, ◌+◌, ◌<◌, ◌^◌};
ghost use Rattle.standing_tests.specs.Boards.{MayRefresh};

use crate::store::Client;
use page_store::Door;
use ports::gate::FreeGate;
use read_board::{Keeper, RefreshFault, StandingReader, Way};
use std::marker::Brand;
use std::process::Abort;
use std::sync::Wait;
use std::sync::ledger::{Blank, Ledger};
use std::thread::Threads;
use tree_geom::Steps;

/// How many bytes an update has.
pub(crate) const PIECE: u64 = 16;

/// The byte of the blob at that place, whatever its version.
pub(crate) fn byte_at(place: u64) -> u8 {
    (place % 251) as u8
}

/// The bytes of the update that makes the version after this one.
fn piece_after(version: u64) -> [u8; 16]
    requires { version < 2 ^ 32 }
{
    let mut piece = [0u8; 16];
    let start = version * PIECE;
    for index in 0..16 {
        piece[index] = byte_at(start + index as u64);
    }
    piece
}

/// Whether these are the blob's bytes from that place on.
pub(crate) fn are_bytes_from(bytes: &[u8], offset: u64) -> bool {
    let mut place = offset;
    for byte in bytes {
        if *byte != byte_at(place) {
            return false;
        }
        place = place.wrapping_add(1);
    }
    true
}

/// Appends to blob 1 what its next version has, and tells whether it did.
pub(crate) fn append_after<R: Threads + Wait + Sync>(
    rt: &R,
    session: &mut Client<'_>,
    version: u64,
) -> bool
    requires { version < 2 ^ 32 }
{
    session.append(rt, 1, &piece_after(version)).is_ok()
}

/// How a read went: whether it gave the blob's bytes, which way it took, and how many nodes it visited. None where it was refused.
pub(crate) type Told = Option<(bool, Way, u64)>;

// Reads, and counts the node steps in the blank.
fn read_counted<R: Wait, D: Door, L: Ledger>(
    rt: &R,
    reader: &mut StandingReader<'_, D, FreeGate>,
    version: u64,
    offset: u64,
    count: u64,
    blank: Blank,
) -> Told
    requires name { blank.name ≡ L.name }
    requires parts { blank.parts ≡ L.parts }
    requires some { 0 < blank.parts }
    ensures { reader.new.board ≡ reader.old.board }
{
    let mut steps = Steps::<L>::open(blank);
    match reader.read(rt, 1, version, offset, count, &mut steps) {
        Ok((bytes, way)) => {
            let same = bytes.len() as u64 == count && are_bytes_from(bytes.as_slice(), offset);
            Some((same, way, steps.taken()))
        }
        Err(_) => None,
    }
}

/// Reads a range of a version of blob 1.
pub(crate) fn read<R: Wait, D: Door>(
    rt: &R,
    reader: &mut StandingReader<'_, D, FreeGate>,
    version: u64,
    offset: u64,
    count: u64,
) -> Told
    ensures { reader.new.board ≡ reader.old.board }
{
    read_counted::<R, D, Brand>(rt, reader, version, offset, count, Blank::new(1))
}

/// The reader learns what the keeper has published.
pub(crate) fn learn<W: Wait + Drop, D: Door, R: Abort>(
    rt: &R,
    keeper: &Keeper<W>,
    reader: &mut StandingReader<'_, D, FreeGate>,
)
    requires { reader.old.board ≡ keeper.now.board }
    ensures { reader.new.board ≡ reader.old.board }
{
    let note = keeper.note().expect(rt, "memory");
    reader.learn(note);
}

/// The keeper refreshes a blob by this session.
pub(crate) fn refresh<W: Wait + Drop, R: Wait>(
    rt: &R,
    keeper: &mut Keeper<W>,
    session: &mut Client<'_>,
    blob: u64,
) -> Result<u64, RefreshFault>
    requires { MayRefresh keeper.old session.old }
    ensures may { MayRefresh keeper.new session.new }
    ensures board { keeper.new.board ≡ keeper.old.board }
{
    keeper.refresh(rt, session, blob)
}

/// Makes a blob by the session that refreshes, and gives its number.
pub(crate) fn create<W: Wait + Drop, R: Wait>(
    rt: &R,
    keeper: &Keeper<W>,
    session: &mut Client<'_>,
) -> Option<u64>
    requires { MayRefresh keeper.now session.old }
    ensures { MayRefresh keeper.now session.new }
{
    read_board::laws::refreshes_stay();
    session.create(rt).ok()
}

/// Makes blob 1 and writes so many versions of it, which the keeper puts on the board at once.
pub(crate) fn begin<R: Threads + Wait + Sync + Abort, W: Wait + Drop>(
    rt: &R,
    writer: &mut Client<'_>,
    keeper: &mut Keeper<W>,
    session: &mut Client<'_>,
    versions: u64,
)
    requires keeper { MayRefresh keeper.old session.old }
    requires few { versions < 2 ^ 32 }
    ensures may { MayRefresh keeper.new session.new }
    ensures board { keeper.new.board ≡ keeper.old.board }
{
    assert!(rt; create(rt, keeper, session) == Some(1));
    for version in 0..versions {
        assert!(rt; append_after(rt, writer, version));
    }
    assert!(rt; refresh(rt, keeper, session, 1) == Ok(versions));
}
