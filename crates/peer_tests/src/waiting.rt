//! Peers that keep their worker waiting, over a network that the test plays and over sockets.
ghost use Rattle.std.specs.Prelude.{◌≡◌, true};

use crate::played::{Answer, PlayedNet, Seen};
use ports::listener::{Accepted, Listener};
use ports::patience::Patience;
use ports::stream::{Sink, Source, Taken, Written};
use ports::tcp::TcpPorts;
use std::alloc::Global;
use std::io::Write;
use std::net::{Net, TcpStream};
use std::process::Abort;
use std::sync::Wait;
use std::thread::{Threads, join};
use std::time::{Clock, Duration, Instant};

// How a peer is slow, and whether each of its reads is answered.
#[derive(Clone, Copy)]
struct Row {
    read: u64,
    write: u64,
    piece: usize,
    is_answered: bool,
    // How many reads give bytes, of at most 2,000.
    reads: u32,
    // How many milliseconds it keeps its worker.
    time: u64,
}

const SILENT: u64 = u64::MAX;

// One that is silent; that gives a byte every 100 and every 110 seconds; the same, where each byte is a request that is answered;
// that gives 16,384 bytes a second, and half as many; that gives bytes at once, and takes two bytes of its first reply too slowly.
static ROWS: [Row; 7] = [
    Row {
        read: SILENT,
        write: 0,
        piece: 1,
        is_answered: false,
        reads: 0,
        time: 300_000,
    },
    Row {
        read: 100_000,
        write: 0,
        piece: 1,
        is_answered: false,
        reads: 3,
        time: 300_000,
    },
    Row {
        read: 110_000,
        write: 0,
        piece: 1,
        is_answered: false,
        reads: 2,
        time: 300_000,
    },
    Row {
        read: 100_000,
        write: 0,
        piece: 1,
        is_answered: true,
        reads: 2000,
        time: 200_000_000,
    },
    Row {
        read: 500,
        write: 0,
        piece: 8192,
        is_answered: false,
        reads: 2000,
        time: 1_000_000,
    },
    Row {
        read: 1000,
        write: 0,
        piece: 8192,
        is_answered: false,
        reads: 599,
        time: 599_000,
    },
    Row {
        read: 0,
        write: 50_000,
        piece: 1,
        is_answered: true,
        reads: 1,
        time: 60_000,
    },
];

// How many reads of a peer give bytes until one fails, or a reply does, of at most 2,000.
fn reads_of<P: Source + Sink>(peer: &mut P, is_answered: bool) -> u32 {
    let mut buf = [0; 8192];
    for read in 0..2000 {
        match peer.read(&mut buf) {
            Taken::Got(_) => {}
            Taken::End | Taken::Failed => return read,
        }
        if is_answered && peer.write(b"ok") != Written::Whole {
            return read.saturating_add(1);
        }
    }
    2000
}

// The next peers that come to these ports.
fn peers_of<R: Abort + Wait, L: Listener>(
    rt: &R,
    alloc: Global,
    ports: &mut L,
    count: usize,
) -> Vec<L::Peer>
where
    L::Peer: Drop,
    requires { L.listens ports.old ≡ true }
{
    let mut peers = Vec::new(alloc);
    for _ in 0..count {
        if let Accepted::Peer(peer) = ports.accept(rt) {
            peers.push(peer).expect(rt, "memory");
        }
    }
    peers
}

// Reads each peer as long as it gives bytes, one peer after another. Whether each one gave some so often.
fn are_read<P: Source + Sink + Drop>(mut peers: Vec<P>, wanted: &[u32], is_answered: bool) -> bool {
    if peers.len() != wanted.len() {
        return false;
    }
    for (peer, wanted) in peers.iter_mut().zip(wanted) {
        if reads_of(peer, is_answered) != *wanted {
            return false;
        }
    }
    true
}

// The same in a thread of their own.
fn are_read_beside<R: Threads + Wait + Sync, P: Source + Sink + Drop + Send>(
    rt: &R,
    peers: Vec<P>,
    wanted: &[u32],
) -> bool {
    join(rt, || are_read(peers, wanted, false), || true) == (true, true)
}

// Checks how often each peer of a network gives bytes.
fn check_reads<R: Abort + Wait, N: Net + Clock + Copy>(
    rt: &R,
    alloc: Global,
    net: N,
    wanted: &[u32],
    is_answered: bool,
) {
    let mut ports = TcpPorts::new(net);
    assert!(rt; ports.listen("127.0.0.1:7000"), "it doesn't listen");
    let peers = peers_of(rt, alloc, &mut ports, wanted.len());
    assert!(rt; are_read(peers, wanted, is_answered), "other reads");
}

// The same of a network that answers so. It tells the milliseconds that all took.
fn time_of<R: Abort + Wait>(
    rt: &R,
    alloc: Global,
    answers: &[Answer],
    wanted: &[u32],
    is_answered: bool,
) -> u64 {
    let seen = Seen::new();
    check_reads(
        rt,
        alloc,
        PlayedNet::new(&seen, answers),
        wanted,
        is_answered,
    );
    seen.clock()
}

#[test]
fn a_peer_is_waited_for_in_sum_and_longer_for_what_it_gives(rt: HostRuntime) {
    for row in &ROWS {
        let slow = Answer::Slow {
            read: row.read,
            write: row.write,
            piece: row.piece,
        };
        let time = time_of(&rt, rt.alloc(), &[slow], &[row.reads], row.is_answered);
        assert!(rt; time == row.time, "{time} for {}", row.time);
    }
}

#[test]
fn peers_that_were_silent_while_they_waited_are_waited_for_a_second_more(rt: HostRuntime) {
    let silent = Answer::Slow {
        read: SILENT,
        write: 0,
        piece: 1,
    };
    let mut answers = [silent; 65];
    let mut wanted = [0; 65];
    answers[64] = Answer::Stream;
    wanted[64] = 1;
    let time = time_of(&rt, rt.alloc(), &answers, &wanted, false);
    assert!(rt; time == 300_000 + 63 * 1000, "{time}");
}

// Has ports listen at a free port, and tells its address.
fn listen_somewhere<R: Abort, L: Listener>(rt: &R, alloc: Global, ports: &mut L) -> String
    ensures { L.listens ports.new ≡ true }
{
    for port in 47_110..47_150 {
        let address = format!(in alloc; "127.0.0.1:{port}").expect(rt, "memory");
        if ports.listen(address.as_str()) {
            return address;
        }
    }
    panic!(rt; "no port is free")
}

// A client that sends a few bytes and leaves.
fn send_and_leave<R: Abort, N: Net>(rt: &R, net: &N, address: &str) {
    let mut stream = TcpStream::connect(net, address).expect(rt, "a connection");
    stream.write_all(b"hello").expect(rt, "a connection");
}

#[test]
fn a_client_behind_silent_ones_is_read_in_time(rt: HostRuntime) {
    let alloc: Global = rt.alloc();
    let patience = Patience {
        read: Duration::from_secs(3),
        write: Duration::from_secs(1),
        first: Duration::from_millis(20),
        rate: 1,
    };
    let mut ports = TcpPorts::with_patience(&rt, patience);
    let address = listen_somewhere(&rt, alloc, &mut ports);
    let _first = TcpStream::connect(&rt, address.as_str()).expect(&rt, "a connection");
    let _second = TcpStream::connect(&rt, address.as_str()).expect(&rt, "a connection");
    let _third = TcpStream::connect(&rt, address.as_str()).expect(&rt, "a connection");
    send_and_leave(&rt, &rt, address.as_str());
    let peers = peers_of(&rt, alloc, &mut ports, 4);
    let begun = Instant::now(&rt).expect(&rt, "a clock");
    assert!(rt; are_read_beside(&rt, peers, &[0, 0, 0, 1]));
    let took = begun.elapsed(&rt).expect(&rt, "a clock");
    // Three that each had three seconds of their own would take nine.
    assert!(rt; took > Duration::from_millis(2900) && took < Duration::from_secs(8));
}
