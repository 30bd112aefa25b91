//! Ports over a network that the test plays.
ghost use Rattle.std.specs.Prelude.{◌≡◌, true};
ghost use Rattle.std.specs.Bool.{OnTrue};

use crate::played::{Answer, PlayedNet, Seen};
use ports::listener::{Accepted, Listener};
use ports::patience::Patience;
use ports::stream::{Sink, Source, Taken, Written};
use ports::tcp::TcpPorts;
use std::io::ErrorKind;
use std::net::Net;
use std::process::Abort;
use std::sync::Wait;
use std::time::{Clock, Duration};

// What a peer answers to two reads of four bytes over dots and a write of three, and the buffer after the first read.
#[derive(Clone, Copy)]
struct Talk {
    first: Taken,
    bytes: [u8; 4],
    second: Taken,
    wrote: Written,
}

// A peer that gives two bytes and its end.
const PROMPT: Talk = Talk {
    first: Taken::Got(2),
    bytes: *b"hh..",
    second: Taken::End,
    wrote: Written::Whole,
};

// A peer that keeps its worker waiting too long is at fault, and goes on being a peer.
const LATE: Talk = Talk {
    first: Taken::Failed,
    bytes: *b"....",
    second: Taken::Got(2),
    wrote: Written::Failed(1),
};

// Whether a peer answers so.
fn talks<P: Source + Sink + Drop>(peer: P, want: &Talk) -> bool {
    let mut peer = peer;
    let mut buf = [b'.'; 4];
    let first = peer.read(&mut buf);
    let bytes = buf;
    let second = peer.read(&mut buf);
    let wrote = peer.write(b"abc");
    first == want.first && bytes == want.bytes && second == want.second && wrote == want.wrote
}

// Whether ports listen at the network's one port alone.
fn listens<L: Listener>(ports: &mut L) -> bool
    ensures { OnTrue result (L.listens ports.new ≡ true) }
{
    !ports.listen("127.0.0.1:7001") && !ports.listen("nowhere") && ports.listen("127.0.0.1:7000")
}

// How many peers ports hand out before they fail, up to three. None where a peer doesn't talk so.
fn peers_of<L: Listener, R: Wait>(rt: &R, ports: &mut L, want: &Talk) -> Option<u32>
where
    L::Peer: Drop,
    requires { L.listens ports.old ≡ true }
{
    let mut peers: u32 = 0;
    for _ in 0..3 {
        match ports.accept(rt) {
            Accepted::Peer(peer) => {
                if !talks(peer, want) {
                    return None;
                }
                peers = peers.saturating_add(1);
            }
            Accepted::Failed => return Some(peers),
            Accepted::Done => return None,
        }
    }
    None
}

// How many peers ports over a network hand out, with the usual patience or with hardly any.
fn peers_over<N: Net + Clock + Copy, R: Wait>(
    rt: &R,
    net: N,
    is_hasty: bool,
    want: &Talk,
) -> Option<u32> {
    let mut ports = if is_hasty {
        let patience = Patience {
            read: Duration::from_millis(40),
            write: Duration::from_millis(30),
            first: Duration::from_millis(1),
            rate: 1,
        };
        TcpPorts::with_patience(net, patience)
    } else {
        TcpPorts::new(net)
    };
    if !listens(&mut ports) {
        return None;
    }
    peers_of(rt, &mut ports, want)
}

// How many peers are handed out where the network answers so, and what was seen of it.
fn played<R: Wait>(rt: &R, answers: &[Answer], is_hasty: bool, want: &Talk) -> (Option<u32>, Seen) {
    let seen = Seen::new();
    let peers = peers_over(rt, PlayedNet::new(&seen, answers), is_hasty, want);
    (peers, seen)
}

#[test]
fn connections_are_handed_out_with_the_usual_patience(rt: HostRuntime) {
    let answers = [Answer::Stream, Answer::Stream];
    let (peers, seen) = played(&rt, &answers, false, &PROMPT);
    assert!(rt; peers == Some(2) && seen.accepts() == 3 && seen.written() == 6);
    assert!(rt; seen.told() == [2, 2 * 300_000, 2 * 60_000]);
}

// What an accept answers first, before a stream, whether the stream is handed out then, and how many milliseconds the listener
// rests before that.
//
// The system's numbers are, in order: interrupted, network down, network unreachable, connection aborted, reset, timed out and
// host unreachable; no memory, too many files in the system and in the process, and no buffers; no permission, no such file,
// a wrong argument, not a socket, and no such call.
static ROWS: [(Answer, bool, u64); 20] = [
    (Answer::Kind(ErrorKind::Interrupted), true, 0),
    (Answer::Kind(ErrorKind::ConnectionAborted), true, 0),
    (Answer::Deaf, true, 0),
    (Answer::Number(4), true, 0),
    (Answer::Number(100), true, 0),
    (Answer::Number(101), true, 0),
    (Answer::Number(103), true, 0),
    (Answer::Number(104), true, 0),
    (Answer::Number(110), true, 0),
    (Answer::Number(113), true, 0),
    (Answer::Number(12), true, 10),
    (Answer::Number(23), true, 10),
    (Answer::Number(24), true, 10),
    (Answer::Number(105), true, 10),
    (Answer::Number(1), false, 0),
    (Answer::Number(9), false, 0),
    (Answer::Number(22), false, 0),
    (Answer::Number(88), false, 0),
    (Answer::Number(95), false, 0),
    (Answer::Kind(ErrorKind::Other), false, 0),
];

fn check_row<R: Abort + Wait>(rt: &R, number: usize, row: &(Answer, bool, u64)) {
    let (first, comes, rest) = *row;
    let (peers, seen) = played(rt, &[first, Answer::Stream], false, &PROMPT);
    let wanted = if comes { (1, 3) } else { (0, 1) };
    assert!(rt;
        peers == Some(wanted.0) && seen.accepts() == wanted.1,
        "row {number}"
    );
    assert!(rt; seen.rested() == rest, "row {number}");
}

#[test]
fn each_error_of_an_accept_is_passed_over_rested_after_or_a_fault(rt: HostRuntime) {
    for number in 0..ROWS.len() {
        check_row(&rt, number, &ROWS[number]);
    }
}

#[test]
fn a_wait_that_is_too_long_is_a_fault_of_the_peer(rt: HostRuntime) {
    let (peers, seen) = played(&rt, &[Answer::Late], true, &LATE);
    assert!(rt; peers == Some(1) && seen.told() == [1, 40, 30]);
}
