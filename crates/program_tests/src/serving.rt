//! What peers get, what the program writes, and how serving ends.

use crate::peers::{Peer, run_peers};
use ports::gate::FreeGate;
use std::alloc::Global;
use std::process::Abort;
use std::sync::Wait;
use std::thread::Threads;

// What a peer gives, and what it gets.
type Exchange = (&'static [u8], &'static [u8]);

// A command line, the peers that come, the number of the accept that fails (0 is none), how many bytes the output takes, what both
// outputs get, and how the program ends.
#[derive(Clone, Copy)]
struct Serving {
    line: &'static str,
    peers: &'static [Exchange],
    failing: usize,
    room: usize,
    out: &'static str,
    err: &'static str,
    status: u8,
}

// A peer for each exchange, which gives its bytes three at a time.
fn peers_of<R: Abort>(rt: &R, alloc: Global, exchanges: &[Exchange]) -> Vec<Peer> {
    let mut peers = Vec::new(alloc);
    for (gives, _) in exchanges {
        let peer = Peer::giving(rt, alloc, gives, 3);
        peers.push(peer).expect(rt, "memory");
    }
    peers
}

// Whether the peers got what is theirs.
fn got_theirs(peers: &[Peer], exchanges: &[Exchange]) -> bool {
    for at in 0..peers.len().min(exchanges.len()) {
        if peers[at].got() != exchanges[at].1 {
            return false;
        }
    }
    peers.len() == exchanges.len()
}

fn check_row<R: Threads + Wait + Sync + Abort>(
    rt: &R,
    alloc: Global,
    number: usize,
    row: &Serving,
) {
    let mut peers = peers_of(rt, alloc, row.peers);
    let ends = peers.as_mut_slice();
    let ran = run_peers(rt, alloc, row.line, ends, row.failing, row.room, &FreeGate);
    let is_so = ran.is_so(row.out.as_bytes(), row.err, row.status)
        && got_theirs(peers.as_slice(), row.peers);
    assert!(rt; is_so, "row {number}");
}

fn check_rows<R: Threads + Wait + Sync + Abort>(rt: &R, alloc: Global, rows: &[Serving]) {
    for number in 0..rows.len() {
        check_row(rt, alloc, number, &rows[number]);
    }
}

// A peer that is refused an unknown blob at any time, by whichever worker; one that isn't served; and one that is refused a frame.
const SIZE_OF_9: &[u8] = b"\0\0\0\x09\x08\0\0\0\0\0\0\0\x09";

const SERVED: Exchange = (
    SIZE_OF_9,
    b"\0\0\0\x11\xff\0\0\0\0\0\0\0\x01\0\0\0\0\0\0\0\x09",
);

const UNSERVED: Exchange = (SIZE_OF_9, b"");

const REFUSED: Exchange = (
    b"\0\0\0\x01\x01\0\0\0\x01\x32\0\0\0\x01\x01",
    b"\0\0\0\x09\x81\0\0\0\0\0\0\0\x01\0\0\0\x09\xff\0\0\0\0\0\0\0\x13\0\0\0\x09\x81\0\0\0\0\0\0\0\x02",
);

// Three peers, of which no accept fails.
static LISTENINGS: [Serving; 4] = [
    Serving {
        line: "serve --listen x:1 --connections 3",
        peers: &[SERVED, SERVED, SERVED],
        failing: 4,
        room: 64,
        out: "served 3\n",
        err: "",
        status: 0,
    },
    Serving {
        line: "serve --listen x:1 --connections 2",
        peers: &[SERVED, SERVED, UNSERVED],
        failing: 0,
        room: 64,
        out: "served 2\n",
        err: "",
        status: 0,
    },
    Serving {
        line: "serve --listen x:1 --workers 1 --connections 9",
        peers: &[SERVED, SERVED, SERVED],
        failing: 0,
        room: 64,
        out: "served 3\n",
        err: "",
        status: 0,
    },
    Serving {
        line: "serve --listen x:1 --workers 16 --connections 9",
        peers: &[SERVED, SERVED, SERVED],
        failing: 0,
        room: 64,
        out: "served 3\n",
        err: "",
        status: 0,
    },
];

#[test]
fn serving_ends_as_the_listener_does(rt: HostRuntime) {
    check_rows(&rt, rt.alloc(), LISTENINGS.as_slice());
}

// The peers that came before the accept that fails are served.
static ACCEPTS: [Serving; 6] = [
    Serving {
        line: "serve --listen x:1 --workers 1",
        peers: &[UNSERVED, UNSERVED, UNSERVED],
        failing: 1,
        room: 64,
        out: "",
        err: "blobseer: listener fault\n",
        status: 6,
    },
    Serving {
        line: "serve --listen x:1 --workers 1",
        peers: &[SERVED, UNSERVED, UNSERVED],
        failing: 2,
        room: 64,
        out: "",
        err: "blobseer: listener fault\n",
        status: 6,
    },
    Serving {
        line: "serve --listen x:1 --workers 1",
        peers: &[SERVED, SERVED, UNSERVED],
        failing: 3,
        room: 64,
        out: "",
        err: "blobseer: listener fault\n",
        status: 6,
    },
    Serving {
        line: "serve --listen x:1 --workers 3 --connections 3",
        peers: &[UNSERVED, UNSERVED, UNSERVED],
        failing: 1,
        room: 64,
        out: "",
        err: "blobseer: listener fault\n",
        status: 6,
    },
    Serving {
        line: "serve --listen x:1 --workers 3 --connections 3",
        peers: &[SERVED, UNSERVED, UNSERVED],
        failing: 2,
        room: 64,
        out: "",
        err: "blobseer: listener fault\n",
        status: 6,
    },
    Serving {
        line: "serve --listen x:1 --workers 3 --connections 3",
        peers: &[SERVED, SERVED, UNSERVED],
        failing: 3,
        room: 64,
        out: "",
        err: "blobseer: listener fault\n",
        status: 6,
    },
];

#[test]
fn each_accept_fails_once(rt: HostRuntime) {
    check_rows(&rt, rt.alloc(), ACCEPTS.as_slice());
}

// Two peers, and what the program tells of them.
static PROGRAMS: [Serving; 5] = [
    Serving {
        line: "serve --connections=1 --listen=x:1",
        peers: &[SERVED, UNSERVED],
        failing: 0,
        room: 64,
        out: "served 1\n",
        err: "",
        status: 0,
    },
    // The listener has no more than two peers, of which the first is refused a frame too.
    Serving {
        line: "serve --listen x:1",
        peers: &[REFUSED, SERVED],
        failing: 0,
        room: 64,
        out: "served 2\n",
        err: "",
        status: 0,
    },
    Serving {
        line: "serve --listen x:1 --workers 1",
        peers: &[REFUSED, SERVED],
        failing: 0,
        room: 7,
        out: "served ",
        err: "blobseer: write fault\n",
        status: 4,
    },
    // It can't listen at another address.
    Serving {
        line: "serve --listen y:1",
        peers: &[UNSERVED, UNSERVED],
        failing: 0,
        room: 64,
        out: "",
        err: "blobseer: listener fault\n",
        status: 6,
    },
    Serving {
        line: "serve --workers 1",
        peers: &[UNSERVED, UNSERVED],
        failing: 0,
        room: 64,
        out: "",
        err: "blobseer: words refused\n",
        status: 1,
    },
];

#[test]
fn the_program_serves_and_tells_how_many(rt: HostRuntime) {
    check_rows(&rt, rt.alloc(), PROGRAMS.as_slice());
}
