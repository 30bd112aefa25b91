//! A network of one port, and its clock.
ghost use Rattle.std.specs.Prelude.{◌≡◌};

use std::io::{self, ErrorKind, Read, Write};
use std::net::{Net, OpenListener, OpenStream, SocketAddr};
use std::os::fd::{AsRawFd, RawFd};
use std::sync::atomic::{AtomicU64, Ordering};
use std::time::{Clock, Duration};

/// What an accept answers. After the last answer each accept fails.
#[derive(Clone, Copy)]
pub(crate) enum Answer {
    /// A stream that gives two bytes and ends, and takes one byte at a time.
    Stream,
    /// The same, whose first read and second write come too late.
    Late,
    /// The same, which can't be told how long it may wait.
    Deaf,
    /// A stream without an end, which gives or takes at most `piece` bytes at once, and keeps each read and each write waiting for
    /// so many milliseconds.
    Slow { read: u64, write: u64, piece: usize },
    /// An error of this kind.
    Kind(ErrorKind),
    /// An error with this number of the system's.
    Number(i32),
}

/// What was asked of the network and of the clock.
#[derive(Drop)]
pub(crate) struct Seen {
    accepts: AtomicU64,
    prompt: AtomicU64,
    read_patience: AtomicU64,
    write_patience: AtomicU64,
    written: AtomicU64,
    rested: AtomicU64,
    clock: AtomicU64,
}

impl Seen {
    /// Nothing yet.
    pub(crate) fn new() -> Seen {
        Seen {
            accepts: AtomicU64::new(0),
            prompt: AtomicU64::new(0),
            read_patience: AtomicU64::new(0),
            write_patience: AtomicU64::new(0),
            written: AtomicU64::new(0),
            rested: AtomicU64::new(0),
            clock: AtomicU64::new(0),
        }
    }

    /// How often the next connection was asked for.
    pub(crate) fn accepts(&self) -> u64 {
        self.accepts.load(Ordering::SeqCst)
    }

    /// How many streams were told not to keep packets back, and the milliseconds that they all may wait for a read and for a
    /// write.
    pub(crate) fn told(&self) -> [u64; 3] {
        [
            self.prompt.load(Ordering::SeqCst),
            self.read_patience.load(Ordering::SeqCst),
            self.write_patience.load(Ordering::SeqCst),
        ]
    }

    /// How many bytes were written to the streams.
    pub(crate) fn written(&self) -> u64 {
        self.written.load(Ordering::SeqCst)
    }

    /// How many milliseconds the clock was slept by.
    pub(crate) fn rested(&self) -> u64 {
        self.rested.load(Ordering::SeqCst)
    }

    /// How many milliseconds the clock shows: those that it was slept by, and those that reads and writes waited for.
    pub(crate) fn clock(&self) -> u64 {
        self.clock.load(Ordering::SeqCst)
    }

    // A call that may wait for `timeout` milliseconds waits for `pause`. False where that is too long.
    fn waits(&self, pause: u64, timeout: &AtomicU64) -> bool {
        let most = timeout.load(Ordering::SeqCst);
        self.clock.fetch_add(pause.min(most), Ordering::SeqCst);
        pause <= most
    }
}

fn millis_of(time: Duration) -> u64 {
    u64::try_from(time.as_millis()).unwrap_or(u64::MAX)
}

// Adds a time to a count of milliseconds.
fn add_millis(count: &AtomicU64, time: Duration) {
    count.fetch_add(millis_of(time), Ordering::SeqCst);
}

/// A network with the port 7000.
#[derive(Clone, Copy)]
pub(crate) struct PlayedNet<'a> {
    seen: &'a Seen,
    answers: &'a [Answer],
}

impl<'a> PlayedNet<'a> {
    /// Its accepts answer these.
    pub(crate) fn new(seen: &'a Seen, answers: &'a [Answer]) -> PlayedNet<'a> {
        PlayedNet { seen, answers }
    }
}

#[derive(Drop)]
pub(crate) struct PlayedListener<'a> {
    seen: &'a Seen,
    answers: &'a [Answer],
}

#[derive(Drop)]
pub(crate) struct PlayedStream<'a> {
    seen: &'a Seen,
    is_deaf: bool,
    late_reads: usize,
    late_write: Option<usize>,
    left: usize,
    read_pause: u64,
    write_pause: u64,
    piece: usize,
    read_timeout: AtomicU64,
    write_timeout: AtomicU64,
}

impl<'a> Net for PlayedNet<'a> {
    type Stream = PlayedStream<'a>;

    type Listener = PlayedListener<'a>;

    fn bind(&self, addr: SocketAddr) -> io::Result<PlayedListener<'a>> {
        if addr.port() != 7000 {
            return Err(io::Error::from(ErrorKind::AddrInUse));
        }
        Ok(PlayedListener {
            seen: self.seen,
            answers: self.answers,
        })
    }

    fn connect(&self, _addr: SocketAddr) -> io::Result<PlayedStream<'a>> {
        Err(io::Error::from(ErrorKind::ConnectionRefused))
    }
}

impl<'a> Clock for PlayedNet<'a> {
    fn monotonic(&self) -> io::Result<Duration> {
        Ok(Duration::from_millis(self.seen.clock()))
    }

    fn since_1970(&self) -> io::Result<Duration> {
        self.monotonic()
    }

    fn sleep(&self, duration: Duration) {
        add_millis(&self.seen.rested, duration);
        add_millis(&self.seen.clock, duration);
    }
}

impl<'a> PlayedListener<'a> {
    // A stream that gives so many bytes and then ends, and takes one at a time.
    fn stream(&self, left: usize) -> PlayedStream<'a> {
        PlayedStream {
            seen: self.seen,
            is_deaf: false,
            late_reads: 0,
            late_write: None,
            left,
            read_pause: 0,
            write_pause: 0,
            piece: 1,
            read_timeout: AtomicU64::new(0),
            write_timeout: AtomicU64::new(0),
        }
    }

    // A stream of two bytes.
    fn short_stream(&self, is_deaf: bool, is_late: bool) -> PlayedStream<'a> {
        let mut stream = self.stream(2);
        stream.is_deaf = is_deaf;
        if is_late {
            stream.late_reads = 1;
            stream.late_write = Some(1);
        }
        stream
    }

    // A stream that gives and takes so many bytes at once after such pauses.
    fn slow_stream(&self, read: u64, write: u64, piece: usize) -> PlayedStream<'a> {
        let mut stream = self.stream(usize::MAX);
        stream.read_pause = read;
        stream.write_pause = write;
        stream.piece = piece;
        stream
    }
}

impl<'a> OpenListener for PlayedListener<'a> {
    type Stream = PlayedStream<'a>;

    fn accept(&self) -> io::Result<(PlayedStream<'a>, SocketAddr)> {
        let call = self.seen.accepts.fetch_add(1, Ordering::SeqCst);
        let stream = match self.answers.get(call as usize) {
            None => return Err(io::Error::from(ErrorKind::Other)),
            Some(Answer::Stream) => self.short_stream(false, false),
            Some(Answer::Late) => self.short_stream(false, true),
            Some(Answer::Deaf) => self.short_stream(true, false),
            Some(Answer::Slow { read, write, piece }) => self.slow_stream(*read, *write, *piece),
            Some(Answer::Kind(kind)) => return Err(io::Error::from(*kind)),
            Some(Answer::Number(number)) => return Err(io::Error::from_raw_os_error(*number)),
        };
        Ok((stream, SocketAddr::from(([127, 0, 0, 1], 7001))))
    }
}

impl<'a> OpenStream for PlayedStream<'a> {
    fn set_nodelay(&self, nodelay: bool) -> io::Result<()> {
        if nodelay {
            self.seen.prompt.fetch_add(1, Ordering::SeqCst);
        }
        Ok(())
    }

    fn set_read_timeout(&self, dur: Option<Duration>) -> io::Result<()> {
        if self.is_deaf {
            return Err(io::Error::from(ErrorKind::InvalidInput));
        }
        if let Some(time) = dur {
            add_millis(&self.seen.read_patience, time);
            self.read_timeout.store(millis_of(time), Ordering::SeqCst);
        }
        Ok(())
    }

    fn set_write_timeout(&self, dur: Option<Duration>) -> io::Result<()> {
        if let Some(time) = dur {
            add_millis(&self.seen.write_patience, time);
            self.write_timeout.store(millis_of(time), Ordering::SeqCst);
        }
        Ok(())
    }
}

impl<'a> AsRawFd for PlayedListener<'a> {
    fn as_raw_fd(&self) -> RawFd {
        0
    }
}

impl<'a> AsRawFd for PlayedStream<'a> {
    fn as_raw_fd(&self) -> RawFd {
        0
    }
}

impl<'a> Read for PlayedStream<'a> {
    fn read(&mut self, buf: &mut [u8]) -> io::Result<usize> {
        if self.late_reads > 0 {
            self.late_reads -= 1;
            return Err(io::Error::from(ErrorKind::WouldBlock));
        }
        if !self.seen.waits(self.read_pause, &self.read_timeout) {
            return Err(io::Error::from(ErrorKind::WouldBlock));
        }
        let most = if self.read_pause == 0 {
            self.left
        } else {
            self.piece
        };
        let n = most.min(buf.len());
        buf[..n].fill(b'h');
        self.left = self.left.saturating_sub(n);
        Ok(n)
    }
}

impl<'a> Write for PlayedStream<'a> {
    fn write(&mut self, bytes: &[u8]) -> io::Result<usize> {
        match self.late_write {
            Some(0) => return Err(io::Error::from(ErrorKind::WouldBlock)),
            Some(calls) => self.late_write = Some(calls - 1),
            None => {}
        }
        if !self.seen.waits(self.write_pause, &self.write_timeout) {
            return Err(io::Error::from(ErrorKind::WouldBlock));
        }
        let n = bytes.len().min(self.piece);
        self.seen.written.fetch_add(n as u64, Ordering::SeqCst);
        Ok(n)
    }

    fn flush(&mut self) -> io::Result<()> {
        Ok(())
    }
}
