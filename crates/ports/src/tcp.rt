ghost use Rattle.std.specs.Prelude.{◌≡◌, ◌<◌, [], Some, true, false, length};
ghost use Rattle.faults.specs.Counts.{RoseBy, count_after};
ghost use Rattle.std.specs.Duration.{as_nanos};
ghost use Rattle.std.specs.Io.KnownBytes.{Appends, Consumes};
ghost use Rattle.ports.specs.Listener.{refusals, accept_faults, peers_in, done_after, OnListening, OnPeer, IsFresh};
ghost use Rattle.ports.specs.Stream.{taken_bytes, appended_bytes, IsPiece, EndsAtEnd, CountsEnd, LeavesOut, read_fault_count, write_fault_count};

use crate::accept::{Retry, is_short, retry_after};
use crate::account::Accounted;
use crate::listener::{Accepted, Listener};
use crate::patience::{Patience, PatientStream};
use crate::reader::{LONG_PIECE, PIECE, read_front};
use crate::stream::{Connection, Ends, Sink, Source, Taken, Written};
use crate::writer::write_front;
use faults::count_up;
use std::io::{Read, Write};
use std::net::{Net, OpenListener, OpenStream, TcpListener};
use std::sync::Wait;
use std::thread;
use std::time::{Clock, Duration};

/// A connection as a stream. It tells what it gave and what was written: the bytes that its reads of the connection gave, and those
/// that the connection took. Of a socket it is not known what the other end sent and got; of a connection that tells what it has
/// left and what it holds, no byte is lost, doubled or changed.
///
/// It reads as `ReaderSource` does and writes as `WriterSink` does: what a signal interrupted is no fault and
/// is tried again. Where a read gave 8,192 bytes or more, the next one asks for up to 65,536 at once.
#[derive(Drop)]
pub struct TcpPeer<S> {
    stream: Accounted<S>,
    gives_much: bool,
    read_faults: u64,
    write_faults: u64,
    ends: u64,
}

impl<S: Read + Write> TcpPeer<S> {
    /// A peer over this connection, with no fault counted.
    pub fn new(stream: S) -> TcpPeer<S>
        ensures given { ⟦<TcpPeer<S> as Ends>⟧.given result ≡ Some [] }
        ensures written { ⟦<TcpPeer<S> as Ends>⟧.written result ≡ Some [] }
        ensures unread { ⟦<TcpPeer<S> as Connection>⟧.unread result ≡ S.remaining stream }
        ensures held { ⟦<TcpPeer<S> as Connection>⟧.held result ≡ S.contents stream }
        ensures read_faults { ⟦<TcpPeer<S> as Ends>⟧.read_faults result ≡ 0 }
        ensures write_faults { ⟦<TcpPeer<S> as Ends>⟧.write_faults result ≡ 0 }
        ensures ends { ⟦<TcpPeer<S> as Ends>⟧.ends result ≡ 0 }
    {
        TcpPeer {
            stream: Accounted::new(stream),
            gives_much: false,
            read_faults: 0,
            write_faults: 0,
            ends: 0,
        }
    }
}

impl<S: Read + Write> Connection for TcpPeer<S> {
    ghost unread = { λ p. S.remaining p.stream.stream };

    ghost held = { λ p. S.contents p.stream.stream };
}

impl<S: Read + Write> Ends for TcpPeer<S> {
    ghost use Rattle.std.specs.Prelude.{None, Some, []};

    ghost given = { λ p. Some p.stream.given };

    ghost left = { λ p. None };

    ghost written = { λ p. Some p.stream.written };

    ghost read_faults = { λ p. p.read_faults };

    ghost write_faults = { λ p. p.write_faults };

    ghost ends = { λ p. p.ends };

    ghost objects = { λ p. [] };
}

impl<S: Read + Write> Source for TcpPeer<S> {
    /// Takes what one read of the connection gives. Only a fault counts one.
    fn read(&mut self, buf: &mut [u8]) -> Taken
        requires { 0 < length buf.old }

        // What each source ensures.
        ensures piece { IsPiece buf.old buf.new result }
        ensures given { Appends (⟦<TcpPeer<S> as Ends>⟧.given self.old) (⟦<TcpPeer<S> as Ends>⟧.given self.new) (taken_bytes buf.new result) }
        ensures read_faults { RoseBy (read_fault_count result) (⟦<TcpPeer<S> as Ends>⟧.read_faults self.old) (⟦<TcpPeer<S> as Ends>⟧.read_faults self.new) }
        ensures ends { CountsEnd result (⟦<TcpPeer<S> as Ends>⟧.ends self.old) (⟦<TcpPeer<S> as Ends>⟧.ends self.new) }
        ensures written { ⟦<TcpPeer<S> as Ends>⟧.written self.new ≡ ⟦<TcpPeer<S> as Ends>⟧.written self.old }
        ensures write_faults { ⟦<TcpPeer<S> as Ends>⟧.write_faults self.new ≡ ⟦<TcpPeer<S> as Ends>⟧.write_faults self.old }

        // The bytes that it takes of the connection, and that only a fault counts one.
        ensures unread { Consumes (⟦<TcpPeer<S> as Connection>⟧.unread self.old) (⟦<TcpPeer<S> as Connection>⟧.unread self.new) (taken_bytes buf.new result) }
        ensures end { EndsAtEnd (⟦<TcpPeer<S> as Connection>⟧.unread self.new) result }
        ensures count { ⟦<TcpPeer<S> as Ends>⟧.read_faults self.new ≡ count_after (read_fault_count result) (⟦<TcpPeer<S> as Ends>⟧.read_faults self.old) }
    {
        let taken = if self.gives_much {
            read_front::<LONG_PIECE, S>(&mut self.stream, buf)
        } else {
            read_front::<PIECE, S>(&mut self.stream, buf)
        };
        match taken {
            Taken::Got(n) => self.gives_much = n >= PIECE,
            Taken::End => self.ends = count_up(self.ends),
            Taken::Failed => self.read_faults = count_up(self.read_faults),
        }
        taken
    }
}

impl<S: Read + Write> Sink for TcpPeer<S> {
    /// Writes until the connection has taken all, or fails. Only a fault counts one.
    fn write(&mut self, bytes: &[u8]) -> Written
        // What each sink ensures.
        ensures part { LeavesOut bytes.now result }
        ensures written { Appends (⟦<TcpPeer<S> as Ends>⟧.written self.old) (⟦<TcpPeer<S> as Ends>⟧.written self.new) (appended_bytes bytes.now result) }
        ensures write_faults { RoseBy (write_fault_count result) (⟦<TcpPeer<S> as Ends>⟧.write_faults self.old) (⟦<TcpPeer<S> as Ends>⟧.write_faults self.new) }
        ensures given { ⟦<TcpPeer<S> as Ends>⟧.given self.new ≡ ⟦<TcpPeer<S> as Ends>⟧.given self.old }
        ensures read_faults { ⟦<TcpPeer<S> as Ends>⟧.read_faults self.new ≡ ⟦<TcpPeer<S> as Ends>⟧.read_faults self.old }
        ensures ends { ⟦<TcpPeer<S> as Ends>⟧.ends self.new ≡ ⟦<TcpPeer<S> as Ends>⟧.ends self.old }

        // The bytes that it gives to the connection, and that only a fault counts one.
        ensures held { Appends (⟦<TcpPeer<S> as Connection>⟧.held self.old) (⟦<TcpPeer<S> as Connection>⟧.held self.new) (appended_bytes bytes.now result) }
        ensures count { ⟦<TcpPeer<S> as Ends>⟧.write_faults self.new ≡ count_after (write_fault_count result) (⟦<TcpPeer<S> as Ends>⟧.write_faults self.old) }
    {
        let n = write_front(&mut self.stream, bytes);
        if n == bytes.len() {
            return Written::Whole;
        }
        self.write_faults = count_up(self.write_faults);
        Written::Failed(n)
    }
}

/// A listener over TCP. It never answers that it has no more peers, and where it listens is not known.
///
/// A wait that a signal interrupted, and a connection that was gone before it was handed out, are no faults: it waits on.
/// Where the system lacks memory, files or buffers for the next connection, it tries again every 10 milliseconds. What is
/// written to a peer leaves at once. A connection that can't be told how long it may wait is dropped as if it were gone.
#[derive(Drop)]
pub struct TcpPorts<N: Net + Clock + Copy> {
    net: N,
    patience: Patience,
    listener: Option<N::Listener>,
    handed: u64,
    faults: u64,
}

impl<N: Net + Clock + Copy> TcpPorts<N> {
    /// A listener on this network, which doesn't listen yet, and whose connections have the usual patience.
    pub fn new(net: N) -> TcpPorts<N>
        ensures listens { ⟦<TcpPorts<N> as Listener>⟧.listens result ≡ false }
        ensures faults { ⟦<TcpPorts<N> as Listener>⟧.faults result ≡ 0 }
        ensures handed { ⟦<TcpPorts<N> as Listener>⟧.handed result ≡ 0 }
    {
        TcpPorts::with_patience(net, Patience::usual())
    }

    /// The same with this patience, each part of which is longer than nothing.
    pub fn with_patience(net: N, patience: Patience) -> TcpPorts<N>
        requires read { 0 < as_nanos patience.read }
        requires write { 0 < as_nanos patience.write }
        ensures listens { ⟦<TcpPorts<N> as Listener>⟧.listens result ≡ false }
        ensures faults { ⟦<TcpPorts<N> as Listener>⟧.faults result ≡ 0 }
        ensures handed { ⟦<TcpPorts<N> as Listener>⟧.handed result ≡ 0 }
    {
        TcpPorts {
            net,
            patience,
            listener: None,
            handed: 0,
            faults: 0,
        }
    }
}

// How long it rests where the system lacks something.
const REST_MILLIS: u64 = 10;

// The next connection that keeps to this patience. None where the listener failed.
fn next_stream<C: Clock + Copy, L: OpenListener>(
    clock: C,
    listener: &L,
    patience: Patience,
) -> Option<PatientStream<C, L::Stream>>
where
    L::Stream: OpenStream,
{
    for _ in 0..u64::MAX {
        match listener.accept() {
            Ok((stream, _)) => {
                if let Ok(stream) = PatientStream::new(clock, stream, patience) {
                    return Some(stream);
                }
            }
            Err(error) => match retry_after(error.kind(), is_short(error.raw_os_error())) {
                Retry::AtOnce => {}
                Retry::AfterRest => thread::sleep(&clock, Duration::from_millis(REST_MILLIS)),
                Retry::Never => return None,
            },
        }
    }
    None
}

impl<N: Net + Clock + Copy> Listener for TcpPorts<N> {
    ghost use Rattle.std.specs.Prelude.{None};
    ghost use Rattle.std.specs.Option.{is_some};

    type Peer = TcpPeer<PatientStream<N, N::Stream>>;

    ghost faults = { λ l. l.faults };

    ghost listens = { λ l. is_some l.listener };

    ghost listens_at = { λ l. None };

    ghost handed = { λ l. l.handed };

    ghost is_done = { λ l. false };

    /// Listens at an address and port, of numbers or of a host's name. Only a refusal counts a fault.
    fn listen(&mut self, address: &str) -> bool
        // What each listener ensures.
        ensures faults { RoseBy (refusals result) (⟦<TcpPorts<N> as Listener>⟧.faults self.old) (⟦<TcpPorts<N> as Listener>⟧.faults self.new) }
        ensures listens { OnListening result (⟦<TcpPorts<N> as Listener>⟧.listens self.old) (⟦<TcpPorts<N> as Listener>⟧.listens self.new) }
        ensures handed { ⟦<TcpPorts<N> as Listener>⟧.handed self.new ≡ ⟦<TcpPorts<N> as Listener>⟧.handed self.old }

        // That only a refusal counts a fault.
        ensures count { ⟦<TcpPorts<N> as Listener>⟧.faults self.new ≡ count_after (refusals result) (⟦<TcpPorts<N> as Listener>⟧.faults self.old) }
    {
        match TcpListener::bind(&self.net, address) {
            Ok(listener) => {
                self.listener = Some(listener);
                true
            }
            Err(_) => {
                self.faults = count_up(self.faults);
                false
            }
        }
    }

    /// Waits for the next connection. Only a fault counts one.
    fn accept<R: Wait>(&mut self, _rt: &R) -> Accepted<TcpPeer<PatientStream<N, N::Stream>>>
        requires { ⟦<TcpPorts<N> as Listener>⟧.listens self.old ≡ true }

        // What each listener ensures.
        ensures faults { RoseBy (accept_faults result) (⟦<TcpPorts<N> as Listener>⟧.faults self.old) (⟦<TcpPorts<N> as Listener>⟧.faults self.new) }
        ensures listens { ⟦<TcpPorts<N> as Listener>⟧.listens self.new ≡ true }
        ensures handed { ⟦<TcpPorts<N> as Listener>⟧.handed self.new ≡ count_after (peers_in result) (⟦<TcpPorts<N> as Listener>⟧.handed self.old) }
        ensures fresh { OnPeer result (λ p. IsFresh (⟦<TcpPeer<PatientStream<N, N::Stream>> as Ends>⟧.given p) (⟦<TcpPeer<PatientStream<N, N::Stream>> as Ends>⟧.written p)) }

        // That a peer tells so, that only a fault counts one, and that there is always a next one.
        ensures none_given { OnPeer result (λ p. ⟦<TcpPeer<PatientStream<N, N::Stream>> as Ends>⟧.given p ≡ Some []) }
        ensures none_written { OnPeer result (λ p. ⟦<TcpPeer<PatientStream<N, N::Stream>> as Ends>⟧.written p ≡ Some []) }
        ensures count { ⟦<TcpPorts<N> as Listener>⟧.faults self.new ≡ count_after (accept_faults result) (⟦<TcpPorts<N> as Listener>⟧.faults self.old) }
        ensures never_done { done_after result false ≡ false }
    {
        let Some(listener) = &self.listener else {
            unreachable!()
        };
        match next_stream(self.net, listener, self.patience) {
            Some(stream) => {
                self.handed = count_up(self.handed);
                Accepted::Peer(TcpPeer::new(stream))
            }
            None => {
                self.faults = count_up(self.faults);
                Accepted::Failed
            }
        }
    }
}
