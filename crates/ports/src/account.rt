// Accounts of the bytes that went through a std stream.
ghost use Rattle.std.specs.Prelude.{◌≡◌, [], ◌++◌, take, MatchResult};
ghost use Rattle.std.specs.Io.KnownBytes.{ReadConsumes, WriteAppends};
ghost use Rattle.std.specs.Io.{ReadsAtMost, WritesAtMost};

use boxcar::tag::{Names, Tag};
use std::io::{self, Read, Write};
use std::marker::Model;
use std::mem::size_of;

/// The bytes that went through an object so far, oldest first. Contracts alone see it: at run time it has no bytes.
#[derive(Drop)]
pub(crate) struct Account {
    tag: Tag,
}

impl Model for Account {
    ghost use Rattle.std.specs.Prelude.{ℕ, List};

    ghost Value = { List ℕ };

    ghost view = { λ a. a.tag.numbers };
}

// An account, and the bytes that went through after it.
#[derive(Drop)]
struct Longer<'a> {
    before: &'a Tag,
    more: &'a [u8],
}

struct Joined;

impl<'a> Names<Longer<'a>> for Joined {
    ghost use Rattle.std.specs.Prelude.{◌++◌};

    ghost numbers = { λ l. l.before.now.numbers ++ l.more.now };
}

// It takes no room in what holds it.
const _: () = prove!(size_of::<Account>() == 0 && size_of::<Accounted<u64>>() == size_of::<u64>());

impl Account {
    /// Of no byte.
    pub(crate) fn new() -> Account
        ensures { result ≡ [] }
    {
        Account { tag: Tag::empty() }
    }

    // These bytes went through.
    #[inline(always)]
    fn add(&mut self, more: &[u8])
        ensures { self.new ≡ self.old ++ more.now }
    {
        self.tag = Tag::of::<Longer, Joined>(&Longer {
            before: &self.tag,
            more,
        });
    }
}

/// A std stream, with accounts of the bytes that its reads gave and that its writes took.
#[derive(Drop)]
pub(crate) struct Accounted<S> {
    pub(crate) stream: S,
    pub(crate) given: Account,
    pub(crate) written: Account,
}

impl<S> Accounted<S> {
    /// Nothing was read or written yet.
    pub(crate) fn new(stream: S) -> Accounted<S>
        ensures stream { result.stream ≡ stream }
        ensures given { result.given ≡ [] }
        ensures written { result.written ≡ [] }
    {
        Accounted {
            stream,
            given: Account::new(),
            written: Account::new(),
        }
    }

    /// The stream.
    pub(crate) fn into_stream(self) -> S
        ensures { result ≡ self.stream }
    {
        let Accounted {
            stream,
            given: _,
            written: _,
        } = self;
        stream
    }
}

impl<S: Read> Accounted<S> {
    /// One read of the stream, whose bytes are accounted.
    pub(crate) fn read_once(&mut self, piece: &mut [u8]) -> io::Result<usize>
        ensures bound { ReadsAtMost result piece.new }
        ensures bytes { ReadConsumes (S.remaining self.old.stream) (S.remaining self.new.stream) result piece.new }
        ensures given { MatchResult result (λ n. self.new.given ≡ self.old.given ++ take n piece.new) (λ _. self.new.given ≡ self.old.given) }
        ensures written { self.new.written ≡ self.old.written }
    {
        let n = self.stream.read(piece)?;
        self.given.add(&piece[..n]);
        Ok(n)
    }
}

impl<S: Write> Accounted<S> {
    /// One write on the stream, which accounts the bytes that it took.
    pub(crate) fn write_once(&mut self, bytes: &[u8]) -> io::Result<usize>
        ensures bound { WritesAtMost result bytes.now }
        ensures bytes { WriteAppends (S.contents self.old.stream) (S.contents self.new.stream) result bytes.now }
        ensures written { MatchResult result (λ n. self.new.written ≡ self.old.written ++ take n bytes.now) (λ _. self.new.written ≡ self.old.written) }
        ensures given { self.new.given ≡ self.old.given }
    {
        let n = self.stream.write(bytes)?;
        self.written.add(&bytes[..n]);
        Ok(n)
    }
}
