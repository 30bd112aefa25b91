//! How long a connection may keep its worker waiting.
ghost use Rattle.std.specs.Prelude.{◌≡◌, ◌*◌, ◌^◌, ◌-◌, OnOk};
ghost use Rattle.std.specs.Duration.{as_nanos};
ghost use Rattle.ports.specs.Waiting.{left_after, IsTold};

use std::io::{self, ErrorKind, Read, Write};
use std::net::OpenStream;
use std::time::{Clock, Duration, Instant};

/// How long a connection may keep its worker waiting. A wait that is longer is a fault of that connection.
///
/// What is waited for is silence before a request, then the rest of the request, and then room for its replies: only the time
/// within the reads and the writes counts, and each part is counted by itself. A request that has begun is waited for `read` in
/// all, and a second more for each `rate` bytes that came, so that its sender is either prompt or fast; replies are waited for
/// `write` in all, and a second more for each `rate` bytes that were taken.
///
/// The patience for the first request begins when the connection was accepted: one that waited for a worker has what is left of
/// it then, and `first` at least for its first bytes and again for the others.
#[derive(Clone, Copy, Debug, PartialEq, Eq)]
pub struct Patience {
    /// For the next bytes.
    pub read: Duration,
    /// For room for the next bytes.
    pub write: Duration,
    /// For the first request at least.
    pub first: Duration,
    /// The bytes that are worth a second. At 0 none is.
    pub rate: u64,
}

impl Patience {
    /// 300 seconds for a read, 60 for a write, one at least for the first request, and one more for each 16,384 bytes.
    pub fn usual() -> Patience
        ensures read { as_nanos result.read ≡ 300 * 10 ^ 9 }
        ensures write { as_nanos result.write ≡ 60 * 10 ^ 9 }
        ensures first { as_nanos result.first ≡ 10 ^ 9 }
        ensures rate { result.rate ≡ 16384 }
    {
        Patience {
            read: Duration::from_secs(300),
            write: Duration::from_secs(60),
            first: Duration::from_secs(1),
            rate: 16_384,
        }
    }
}

// What is left of a patience after the wait for so many bytes, of which each `rate` are worth a second. At a rate of 0 none is.
fn left_of(patience: Duration, waited: Duration, bytes: u64, rate: u64) -> Duration
    ensures { as_nanos result ≡ left_after (as_nanos patience) (as_nanos waited) bytes rate }
{
    let worth = Duration::from_secs(bytes.checked_div(rate).unwrap_or(0));
    patience.saturating_sub(waited.saturating_sub(worth))
}

// What a connection is waited for.
#[derive(Clone, Copy, PartialEq, Eq)]
enum Part {
    // The first request. It may have waited for a worker.
    First,
    // A later request.
    Request,
    // Room for replies.
    Reply,
}

// How long a part was waited for, and the bytes of it that came or went.
#[derive(Clone, Copy)]
struct Waited {
    part: Part,
    time: Duration,
    bytes: u64,
}

impl Waited {
    fn none(part: Part) -> Waited {
        Waited {
            part,
            time: Duration::ZERO,
            bytes: 0,
        }
    }

    // One more call took so long, and so many bytes came or went.
    fn add(&mut self, patience: Patience, time: Duration, bytes: usize) {
        let before = self.time.saturating_add(time);
        self.time = match self.part {
            Part::First if self.bytes == 0 => before.min(most_waited(patience)),
            // The silence before a request is no part of it.
            Part::Request if self.bytes == 0 => Duration::ZERO,
            _ => before,
        };
        self.bytes = self.bytes.saturating_add(bytes as u64);
    }
}

// The longest wait for a worker that counts, so that some time is left for the first request.
fn most_waited(patience: Patience) -> Duration
    ensures { as_nanos result ≡ as_nanos patience.read - as_nanos patience.first }
{
    patience.read.saturating_sub(patience.first)
}

/// A connection that is waited for as long as its patience allows: a read or write that would wait longer fails, and takes or
/// appends nothing.
///
/// A clock that can't be read fails the read or write that needs it.
#[derive(Drop)]
pub struct PatientStream<C, S> {
    clock: C,
    stream: S,
    patience: Patience,
    accepted: Instant,
    waited: Waited,
    read_timeout: Duration,
    write_timeout: Duration,
}

impl<C: Clock + Copy, S: OpenStream + Drop> PatientStream<C, S> {
    /// A connection that was accepted now. What is written to it leaves at once. An error where it can't be told how long it may
    /// wait, or the clock can't be read.
    pub(crate) fn new(clock: C, stream: S, patience: Patience) -> io::Result<PatientStream<C, S>> {
        // A peer whose packets are kept back is slow, and a peer all the same.
        let _ = stream.set_nodelay(true);
        stream.set_read_timeout(Some(patience.read))?;
        stream.set_write_timeout(Some(patience.write))?;
        let accepted = Instant::now(&clock)?;
        Ok(PatientStream {
            clock,
            stream,
            patience,
            accepted,
            waited: Waited::none(Part::First),
            read_timeout: patience.read,
            write_timeout: patience.write,
        })
    }

    // Before a read at this moment: tells the connection what is left of its patience, which is some time. An error where none is.
    fn begin_read(&mut self, now: Instant) -> io::Result<()>
        ensures told { OnOk result (IsTold (as_nanos self.new.read_timeout) (as_nanos self.new.patience.read) (as_nanos self.new.waited.time)
            self.new.waited.bytes self.new.patience.rate) }
        ensures stream { self.new.stream ≡ self.old.stream }
    {
        match self.waited.part {
            Part::First if self.waited.bytes == 0 => {
                let waited = now.duration_since(self.accepted);
                self.waited.time = waited.min(most_waited(self.patience));
            }
            Part::First | Part::Request => {}
            Part::Reply => self.waited = Waited::none(Part::Request),
        }
        let left = self.left(self.patience.read);
        if left.is_zero() {
            return Err(io::Error::from(ErrorKind::TimedOut));
        }
        if left != self.read_timeout {
            self.stream.set_read_timeout(Some(left))?;
            self.read_timeout = left;
        }
        Ok(())
    }

    // Before a write, likewise.
    fn begin_write(&mut self) -> io::Result<()>
        ensures told { OnOk result (IsTold (as_nanos self.new.write_timeout) (as_nanos self.new.patience.write) (as_nanos self.new.waited.time)
            self.new.waited.bytes self.new.patience.rate) }
        ensures stream { self.new.stream ≡ self.old.stream }
    {
        if self.waited.part != Part::Reply {
            self.waited = Waited::none(Part::Reply);
        }
        let left = self.left(self.patience.write);
        if left.is_zero() {
            return Err(io::Error::from(ErrorKind::TimedOut));
        }
        if left != self.write_timeout {
            self.stream.set_write_timeout(Some(left))?;
            self.write_timeout = left;
        }
        Ok(())
    }

    // What is left of this patience.
    fn left(&self, patience: Duration) -> Duration
        ensures { as_nanos result ≡ left_after (as_nanos patience) (as_nanos self.now.waited.time) self.now.waited.bytes self.now.patience.rate }
    {
        left_of(
            patience,
            self.waited.time,
            self.waited.bytes,
            self.patience.rate,
        )
    }

    // A call that began then has ended.
    fn count(&mut self, begun: Instant, done: &io::Result<usize>)
        ensures stream { self.new.stream ≡ self.old.stream }
    {
        if let Ok(bytes) = done {
            let time = begun.elapsed(&self.clock).unwrap_or(Duration::ZERO);
            self.waited.add(self.patience, time, *bytes);
        }
    }
}

impl<C: Clock + Copy, S: Read + OpenStream + Drop> Read for PatientStream<C, S> {
    ghost remaining = { λ p. S.remaining p.stream };

    fn read(&mut self, buf: &mut [u8]) -> io::Result<usize> {
        let now = Instant::now(&self.clock)?;
        self.begin_read(now)?;
        let read = self.stream.read(buf);
        self.count(now, &read);
        read
    }
}

impl<C: Clock + Copy, S: Write + OpenStream + Drop> Write for PatientStream<C, S> {
    ghost contents = { λ p. S.contents p.stream };

    fn write(&mut self, bytes: &[u8]) -> io::Result<usize> {
        let now = Instant::now(&self.clock)?;
        self.begin_write()?;
        let written = self.stream.write(bytes);
        self.count(now, &written);
        written
    }

    fn flush(&mut self) -> io::Result<()> {
        self.stream.flush()
    }
}
