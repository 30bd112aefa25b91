//! Sixteen file sessions make files and append to them beside each other, and what each was told is played again.
ghost use Rattle.std.specs.Prelude.{◌≡◌, ◌<◌, ◌≤◌};
ghost use Rattle.client_session.specs.Sessions.{IsOwnerOf};

use crate::heard::{Heard, Says, append_of, hear, is_given, path_of};
use crate::store::{new_session, new_store};
use client_session::{Owner, Shared};
use file_layer::FileSession;
use file_names::{Entered, FileLine, Named, Names};
use page_store::PlainDoor;
use ports::gate::FreeGate;
use std::alloc::Global;
use std::process::Abort;
use std::sync::Wait;
use std::thread;
use std::thread::Threads;
use turn_lock::{Act, Turn};

// How many sessions there are, how many lines each says, and the paths of the files that they know.
const CLIENTS: u8 = 16;

const LINES: u32 = 48;

const FILES: [&str; 5] = ["/f0", "/f1", "/f2", "/f3", "/f4"];

type Files<'a> = FileSession<'a, PlainDoor, FreeGate>;

// A file that a session made.
#[derive(Clone, Copy)]
struct Made {
    file: usize,
    blob: u64,
}

// An append that a session was told of: so many bytes, all the same.
#[derive(Clone, Copy)]
struct Note {
    file: usize,
    version: u64,
    at: u64,
    size: u64,
    byte: u8,
    count: usize,
}

// A session, with what it was told.
#[derive(Drop)]
struct Client<S> {
    session: S,
    alloc: Global,
    number: u8,
    state: u64,
    made: Vec<Made>,
    notes: Vec<Note>,
}

// The path of a file.
fn text_of(file: usize) -> &'static str {
    match FILES.get(file) {
        Some(text) => text,
        None => "/",
    }
}

impl<S: Says> Client<S> {
    // A number below the bound, which is at least 1: the next of a row that depends on where it began.
    fn draw(&mut self, bound: usize) -> usize
        requires { 1 ≤ bound }
        ensures { result < bound }
    {
        self.state = self
            .state
            .wrapping_mul(6_364_136_223_846_793_005)
            .wrapping_add(1_442_695_040_888_963_407);
        (self.state >> 33) as usize % bound
    }

    // Makes a file, which another session may have made.
    fn make<R: Threads + Wait + Sync + Abort>(&mut self, rt: &R, file: usize) {
        let path = path_of(rt, self.alloc, text_of(file));
        match hear(rt, &mut self.session, FileLine::Make { path }) {
            Heard::Made { blob } => self.made.push(Made { file, blob }).expect(rt, "memory"),
            Heard::Exists => {}
            _ => panic!(rt; "a make was told something else"),
        }
    }

    // Appends to a file, which may not be there yet, or have as many waiting updates as it may: while one session stands still between
    // its number and its finish, the others go on.
    fn append<R: Threads + Wait + Sync + Abort>(&mut self, rt: &R, file: usize, count: usize) {
        let byte = self.number;
        let line = append_of(rt, self.alloc, text_of(file), byte, count);
        let note = match hear(rt, &mut self.session, line) {
            Heard::Appended { version, at, size } => Note {
                file,
                version,
                at,
                size,
                byte,
                count,
            },
            Heard::NoName | Heard::TooManyOpen => return,
            _ => panic!(rt; "an append was told something else"),
        };
        self.notes.push(note).expect(rt, "memory");
    }

    // Says one line.
    fn go<R: Threads + Wait + Sync + Abort>(&mut self, rt: &R) {
        let file = self.draw(FILES.len());
        let count = self.draw(3) + 1;
        match self.draw(4) {
            0 => self.make(rt, file),
            _ => self.append(rt, file, count),
        }
    }

    fn go_on<R: Threads + Wait + Sync + Abort>(&mut self, rt: &R) {
        for _ in 0..LINES {
            self.go(rt);
        }
    }
}

// A file session of the store and of the names, each with its next pass.
fn new_files<'a, R: Abort>(
    rt: &R,
    alloc: Global,
    shared: &'a Shared,
    owner: &mut Owner,
    gate: &'a FreeGate,
    turn: &'a Turn<Names>,
    names: &mut turn_lock::Owner<Names>,
) -> Files<'a>
    requires store { IsOwnerOf shared.now owner.old }
    requires names { names.old.lock ≡ turn.now }
    ensures store { IsOwnerOf shared.now owner.new }
    ensures names { names.new.lock ≡ turn.now }
{
    let session = new_session(rt, alloc, shared, owner, gate);
    let pass = names.pass(turn).expect(rt, "a pass");
    FileSession::new(alloc, session, turn, pass)
}

// A session of that number, which was told nothing yet.
fn client_of<S>(alloc: Global, session: S, number: u8) -> Client<S> {
    Client {
        session,
        alloc,
        number,
        state: u64::from(number),
        made: Vec::new(alloc),
        notes: Vec::new(alloc),
    }
}

// The sessions, each with a number from 0 up.
fn clients_of<'a, R: Abort>(
    rt: &R,
    alloc: Global,
    shared: &'a Shared,
    owner: &mut Owner,
    gate: &'a FreeGate,
    turn: &'a Turn<Names>,
    names: &mut turn_lock::Owner<Names>,
) -> Vec<Client<Files<'a>>>
    requires store { IsOwnerOf shared.now owner.old }
    requires names { names.old.lock ≡ turn.now }
    ensures store { IsOwnerOf shared.now owner.new }
    ensures names { names.new.lock ≡ turn.now }
{
    let mut all = Vec::new(alloc);
    for number in 0..CLIENTS {
        let session = new_files(rt, alloc, shared, owner, gate, turn, names);
        all.push(client_of(alloc, session, number))
            .expect(rt, "memory");
    }
    all
}

// All say their lines, beside each other.
fn go_all<R: Threads + Wait + Sync + Abort, S: Says + Send>(rt: &R, clients: &mut [Client<S>]) {
    thread::for_each_mut(
        rt,
        clients,
        CLIENTS as usize,
        &|_, client| { client.go_on(rt) },
    );
}

// What each session made, one behind another.
fn made_by<'a, R: Abort, S>(rt: &R, alloc: Global, clients: &'a [Client<S>]) -> Vec<&'a [Made]> {
    let mut all = Vec::new(alloc);
    for client in clients {
        all.push(client.made.as_slice()).expect(rt, "memory");
    }
    all
}

// What all sessions were told of appends.
fn notes_of<R: Abort, S>(rt: &R, alloc: Global, clients: &[Client<S>]) -> Vec<Note> {
    let mut all = Vec::new(alloc);
    for client in clients {
        let notes = client.notes.as_slice();
        all.extend_from_slice(notes).expect(rt, "memory");
    }
    all
}

// The blob of a file, where one session alone was told that it made it.
fn only_made(made: &[&[Made]], file: usize) -> Option<u64> {
    let mut found = None;
    for own in made {
        for one in *own {
            if one.file == file {
                if found.is_some() {
                    return None;
                }
                found = Some(one.blob);
            }
        }
    }
    found
}

// The append that made the version, where one session was told of it, and no other.
fn only_note(notes: &[Note], file: usize, version: u64) -> Option<Note> {
    let mut found = None;
    for note in notes {
        if note.file == file && note.version == version {
            if found.is_some() {
                return None;
            }
            found = Some(*note);
        }
    }
    found
}

// The bytes behind one append more, which was told where it falls and what the size is then.
fn replay<R: Abort>(rt: &R, content: &mut Vec<u8>, note: Note) {
    assert!(rt;
        note.at == content.len() as u64,
        "an append not at the file's end"
    );
    for _ in 0..note.count {
        content.push(note.byte).expect(rt, "memory");
    }
    assert!(rt; note.size == content.len() as u64);
}

// Whether a version of a file reads as these bytes.
fn reads_as<R: Threads + Wait + Sync + Abort, S: Says>(
    rt: &R,
    alloc: Global,
    session: &mut S,
    file: usize,
    version: u64,
    content: &[u8],
) -> bool {
    let line = FileLine::Read {
        path: path_of(rt, alloc, text_of(file)),
        version,
        offset: 0,
        length: content.len() as u64,
    };
    is_given(rt, session, line, content)
}

// Each of the versions of a file up to the last was told to one session alone, and reads as the appends up to it make. The size of the last.
fn check_versions<R: Threads + Wait + Sync + Abort, S: Says>(
    rt: &R,
    alloc: Global,
    session: &mut S,
    notes: &[Note],
    file: usize,
    last: u64,
) -> u64 {
    let mut content = Vec::new(alloc);
    for before in 0..last {
        let note = only_note(notes, file, before + 1).expect(rt, "one note of each version");
        replay(rt, &mut content, note);
        let bytes = content.as_slice();
        assert!(rt;
            reads_as(rt, alloc, session, file, before + 1, bytes),
            "other bytes"
        );
    }
    content.len() as u64
}

// The versions of a file are right, and one session alone made it.
fn check_file<R: Threads + Wait + Sync + Abort, S: Says>(
    rt: &R,
    alloc: Global,
    session: &mut S,
    made: &[&[Made]],
    notes: &[Note],
    file: usize,
) {
    let path = path_of(rt, alloc, text_of(file));
    match hear(rt, session, FileLine::Stat { path }) {
        Heard::Is {
            blob,
            version,
            size,
        } => {
            assert!(rt; only_made(made, file) == Some(blob));
            assert!(rt;
                check_versions(rt, alloc, session, notes, file, version) == size,
                "another size"
            );
        }
        _ => panic!(rt; "no file"),
    }
}

// All files are right.
fn check_files<R: Threads + Wait + Sync + Abort, S: Says>(
    rt: &R,
    alloc: Global,
    session: &mut S,
    made: &[&[Made]],
    notes: &[Note],
) {
    for file in 0..FILES.len() {
        check_file(rt, alloc, session, made, notes, file);
    }
}

// Whether an entry of the names is that of the file that was made.
fn tells(entered: &Entered, made: &Made) -> bool {
    entered.named == Named::File(made.blob)
        && entered.path.as_slice() == text_of(made.file).as_bytes()
}

// Whether what a session was told that it made stands in the names' history, each once, in that order, and nothing else of its own.
fn stands_once(history: &[(u32, Entered)], made: &[Made], caller: u32) -> bool {
    let mut rest = made;
    for (by, entered) in history {
        if *by == caller {
            match rest {
                [first, behind @ ..] if tells(entered, first) => rest = behind,
                _ => return false,
            }
        }
    }
    rest.is_empty()
}

// Plays what the sessions were told against the names' history. The first is caller 1.
struct Told<'a> {
    made: &'a [&'a [Made]],
}

impl Act<Names> for Told<'_> {
    type Answer = bool;

    ghost ready = { λ _ _ _. Unit {0} };

    ghost gives = { λ _ _ _ _ _ _. Unit {0} };

    fn act(self, state: &mut Names, _caller: u32) -> bool {
        let Told { made } = self;
        let history = state.history();
        let mut caller = 0u32;
        for made in made {
            caller = caller.saturating_add(1);
            if !stands_once(history, made, caller) {
                return false;
            }
        }
        true
    }

    ghost stays_ready = { λ _ _ _ _ _. tt };
}

// The files are as the sessions were told. What each of them made, one behind another.
fn check_told<'a, R: Threads + Wait + Sync + Abort, S: Says>(
    rt: &R,
    alloc: Global,
    clients: &'a [Client<S>],
    reader: &mut S,
) -> Vec<&'a [Made]> {
    let made = made_by(rt, alloc, clients);
    let notes = notes_of(rt, alloc, clients);
    check_files(rt, alloc, reader, made.as_slice(), notes.as_slice());
    made
}

// The names are as the sessions were told.
fn check_names<R: Wait + Abort>(
    rt: &R,
    turn: &Turn<Names>,
    names: &mut turn_lock::Owner<Names>,
    made: &[&[Made]],
)
    requires { names.old.lock ≡ turn.now }
{
    let mut pass = names.pass(turn).expect(rt, "a pass");
    assert!(rt; turn.with_turn(rt, &mut pass, Told { made }));
}

#[test]
fn sixteen_file_sessions_make_files_and_append(rt: HostRuntime) {
    let alloc = rt.alloc();
    let gate = FreeGate;
    let (shared, mut owner) = new_store(&rt, alloc);
    let tree = Names::new(alloc).expect(&rt, "memory");
    let (turn, mut names) = Turn::new(alloc, tree).expect(&rt, "memory");
    let mut clients = clients_of(&rt, alloc, &shared, &mut owner, &gate, &turn, &mut names);
    let mut reader = new_files(&rt, alloc, &shared, &mut owner, &gate, &turn, &mut names);
    go_all(&rt, clients.as_mut_slice());
    let made = check_told(&rt, alloc, clients.as_slice(), &mut reader);
    check_names(&rt, &turn, &mut names, made.as_slice());
}
