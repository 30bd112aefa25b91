//! A session that knows blobs by names.
ghost use Rattle.std.specs.Prelude.{◌≡◌, ◌<◌, ◌≤◌, ◌+◌, ℕ, Some, IfOk, sum_by};
ghost use denote.Param.Send.{IsSync};
ghost use Rattle.faults.specs.Counts.{RoseBy};
ghost use Rattle.blob_model.specs.declared.call.Place.TheVariants.{Append};
ghost use Rattle.request_form.specs.Replies.{reply_of, fault_count};
ghost use Rattle.blob_model.specs.History.{AllOther};
ghost use Rattle.request_form.specs.Answers.{Answers};
ghost use Rattle.request_form.specs.declared.form.Request.TheVariants as Requests;
ghost use Rattle.client_session.specs.Results.{create_reply, updated_reply, finish_reply, read_reply};
ghost use Rattle.file_names.specs.Tree.{blob_at, stat_at, enter_fault, Lists};
ghost use Rattle.file_names.specs.declared.tree.Named.TheVariants as Nameds;
ghost use Rattle.file_names.specs.declared.form.FileLine.TheVariants as Lines;
ghost use Rattle.file_layer.specs.Files.{among_others, LooksAtNames, EntersNames, AsksStore, AsksOf, MakesFile, OnRecent, Opens, PlacesSaid, ArePlaces, WhereAnswer, FileAnswers};
ghost use Rattle.client_session.specs.Opening.{IsOfStore};
ghost use Rattle.snapshot.specs.Versions.{size_now};
ghost use Rattle.client_session.specs.Sessions.{Continues, session_of};
ghost use Rattle.file_layer.specs.Sessions.{files_of, GoesOn, said_of};
ghost use Rattle.file_layer.specs.Faults.{file_fault_count, blob_faults, append_faults, line_faults};

use crate::places::places_uncounted;
use crate::said::{
    said_of_append, said_of_fault, said_of_finish, said_of_list, said_of_missing, said_of_read,
    said_of_recent, said_of_unentered,
};
use blob_model::{Bytes, Outcome};
use client_session::{Session, Updated};
use faults::NoMemory;
use file_names::{
    Enter, EnterFault, FileFault, FileLine, FileReply, Find, FindFault, Foresee, Holders, List,
    ListFault, Listing, Look, Named, Names, Path, Stat,
};
use page_fan::BesideDoor;
use page_store::Door;
use ports::gate::Gate;
use request_form::Fault;
use snapshot::Snapshot;
use std::alloc::Global;
use std::marker::{Brand, Model};
use std::sync::Wait;
use std::sync::ledger::{Blank, Ledger};
use std::thread::Threads;
use tree_geom::Steps;
use turn_lock::{Pass, Turn};

// The most bytes of a range.
const MAX_READ: u64 = 16_777_216;

// A read of a blob's version whose node steps nobody counts.
fn read_uncounted<D: Door, G: Gate, R: Wait, L: Ledger>(
    session: &mut Session<'_, D, G>,
    rt: &R,
    blob: u64,
    version: u64,
    offset: u64,
    count: u64,
    blank: Blank,
) -> Result<Bytes, Fault>
    requires name { blank.name ≡ L.name }
    requires parts { blank.parts ≡ L.parts }
    requires some { 0 < blank.parts }
    ensures answers { Answers AllOther (session_of session.old) (Requests.Read blob version offset count) (read_reply result) (session_of session.new) }
    ensures faults { RoseBy (fault_count (read_reply result)) (sum_by D.faults session.old.doors) (sum_by D.faults session.new.doors) }
    ensures goes_on { Continues session.old session.new }
{
    let mut steps = Steps::<L>::open(blank);
    session.read(rt, blob, version, offset, count, &mut steps)
}

/// A session of a store in which blobs have names: folders and files in one tree, which all such sessions share.
///
/// It works with a session of the store and with a pass of the names. A line first looks at the names, in one turn of theirs, and
/// then asks the store as the session does: so each answer is the tree's and then the store's, as far as the session has seen of
/// both. Between the two histories no order is kept.
#[derive(Drop)]
pub struct FileSession<'a, D: Door, G: Gate> {
    alloc: Global,
    session: Session<'a, D, G>,
    names: &'a Turn<Names>,
    pass: Pass<Names>,
}

impl<'a, D: Door, G: Gate> Model for FileSession<'a, D, G> {
    ghost use Rattle.std.specs.Prelude.{◌≡◌};
    ghost use Rattle.file_layer.specs.Sessions.{FileState};

    ghost Value = { FileState D };

    ghost view = { λ s. record { session = s.session; names = s.pass } };

    ghost invariant = { λ s. s.pass.lock ≡ s.names.now };
}

impl<'a, D: Door, G: Gate> FileSession<'a, D, G> {
    /// A session of files over this session of the store, with this pass of the names. Takes no memory.
    pub fn new(
        alloc: Global,
        session: Session<'a, D, G>,
        names: &'a Turn<Names>,
        pass: Pass<Names>,
    ) -> FileSession<'a, D, G>
        requires { pass.lock ≡ names.now }
        ensures { result ≡ record { session = session.entry; names = pass } }
    {
        FileSession {
            alloc,
            session,
            names,
            pass,
        }
    }

    /// The session of the store and the pass of the names, as they are now. Takes no memory.
    pub fn into_parts(self) -> (Session<'a, D, G>, Pass<Names>)
        ensures session { result.0 ≡ self.entry.session }
        ensures names { result.1 ≡ self.entry.names }
    {
        let FileSession {
            alloc: _,
            session,
            names: _,
            pass,
        } = self;
        (session, pass)
    }

    // The blob of a file.
    fn find<R: Wait>(&mut self, rt: &R, path: &Path) -> Result<u64, FindFault>
        ensures looks { LooksAtNames among_others (files_of self.old) (files_of self.new) }
        ensures found { result ≡ blob_at self.new.names.seen path.now }
        ensures session { self.new.session ≡ self.old.session }
        ensures names { self.new.names ≡ record self.old.names { seen = self.new.names.seen; turns = self.new.names.turns } }
    {
        let names = self.names;
        names.with_turn(rt, &mut self.pass, Find { path })
    }

    // What a path names.
    fn look<R: Wait>(&mut self, rt: &R, path: &Path) -> Option<Stat>
        ensures looks { LooksAtNames among_others (files_of self.old) (files_of self.new) }
        ensures found { result ≡ stat_at self.new.names.seen path.now }
        ensures session { self.new.session ≡ self.old.session }
        ensures names { self.new.names ≡ record self.old.names { seen = self.new.names.seen; turns = self.new.names.turns } }
    {
        let names = self.names;
        names.with_turn(rt, &mut self.pass, Look { path })
    }

    // What is in a folder.
    fn list<R: Wait>(&mut self, rt: &R, path: &Path) -> Result<Listing, ListFault>
        ensures looks { LooksAtNames among_others (files_of self.old) (files_of self.new) }
        ensures lists { Lists self.new.names.seen path.now result }
        ensures session { self.new.session ≡ self.old.session }
        ensures names { self.new.names ≡ record self.old.names { seen = self.new.names.seen; turns = self.new.names.turns } }
    {
        let names = self.names;
        names.with_turn(rt, &mut self.pass, List { path })
    }

    // Why a path can't be entered, if it can't.
    fn foresee<R: Wait>(&mut self, rt: &R, path: &Path) -> Option<EnterFault>
        ensures looks { LooksAtNames among_others (files_of self.old) (files_of self.new) }
        ensures foresees { result ≡ enter_fault self.new.names.seen path.now }
        ensures session { self.new.session ≡ self.old.session }
        ensures names { self.new.names ≡ record self.old.names { seen = self.new.names.seen; turns = self.new.names.turns } }
    {
        let names = self.names;
        names.with_turn(rt, &mut self.pass, Foresee { path })
    }

    // Enters a path.
    fn enter<R: Wait>(&mut self, rt: &R, path: &Path, named: Named) -> Result<(), EnterFault>
        ensures enters { EntersNames among_others (files_of self.old) path.now named result (files_of self.new) }
        ensures session { self.new.session ≡ self.old.session }
        ensures names { self.new.names ≡ record self.old.names { seen = self.new.names.seen; turns = self.new.names.turns } }
    {
        let names = self.names;
        names.with_turn(rt, &mut self.pass, Enter { path, named })
    }

    // The reply to a new folder.
    fn mkdir<R: Wait>(&mut self, rt: &R, path: Path) -> Result<FileReply, NoMemory>
        ensures answers { FileAnswers among_others (files_of self.old) (Lines.Mkdir path) (said_of result) (files_of self.new) }
        ensures faults { RoseBy (file_fault_count (said_of result)) (sum_by D.faults self.old.session.doors) (sum_by D.faults self.new.session.doors) }
        ensures goes_on { GoesOn self.old self.new }
    {
        match self.enter(rt, &path, Named::Folder) {
            Ok(()) => Ok(FileReply::Folder { path }),
            Err(fault) => said_of_unentered(path, fault),
        }
    }

    // A new blob.
    fn create<R: Wait>(&mut self, rt: &R) -> Result<u64, Fault>
        ensures asks { AsksStore among_others (files_of self.old) Requests.Create (create_reply result) (files_of self.new) }
        ensures faults { RoseBy (fault_count (create_reply result)) (sum_by D.faults self.old.session.doors) (sum_by D.faults self.new.session.doors) }
        ensures goes_on { Continues self.old.session self.new.session }
        ensures names { self.new.names ≡ self.old.names }
    {
        self.session.create(rt)
    }

    // The reply to a new file whose path can be entered.
    fn make_free<R: Wait>(&mut self, rt: &R, path: Path) -> Result<FileReply, NoMemory>
        ensures answers { MakesFile among_others (files_of self.old) path (said_of result) (files_of self.new) }
        ensures faults { RoseBy (file_fault_count (said_of result)) (sum_by D.faults self.old.session.doors) (sum_by D.faults self.new.session.doors) }
        ensures goes_on { GoesOn self.old self.new }
    {
        match self.create(rt) {
            Ok(blob) => match self.enter(rt, &path, Named::File(blob)) {
                Ok(()) => Ok(FileReply::File { path, blob }),
                Err(fault) => said_of_unentered(path, fault),
            },
            Err(fault) => Ok(said_of_fault(fault)),
        }
    }

    // The reply to a new file.
    fn make<R: Wait>(&mut self, rt: &R, path: Path) -> Result<FileReply, NoMemory>
        ensures answers { FileAnswers among_others (files_of self.old) (Lines.Make path) (said_of result) (files_of self.new) }
        ensures faults { RoseBy (file_fault_count (said_of result)) (sum_by D.faults self.old.session.doors) (sum_by D.faults self.new.session.doors) }
        ensures goes_on { GoesOn self.old self.new }
    {
        match self.foresee(rt, &path) {
            Some(fault) => said_of_unentered(path, fault),
            None => self.make_free(rt, path),
        }
    }

    // The last published version of a blob, and its size.
    fn recent<R: Wait>(&mut self, rt: &R, blob: u64) -> FileReply
        ensures asks { OnRecent among_others (files_of self.old) blob result (files_of self.new) }
        ensures faults { RoseBy (file_fault_count result) (sum_by D.faults self.old.session.doors) (sum_by D.faults self.new.session.doors) }
        ensures goes_on { Continues self.old.session self.new.session }
        ensures names { self.new.names ≡ self.old.names }
    {
        said_of_recent(blob, self.session.recent(rt, blob))
    }

    // The reply to a question of what a path names.
    fn stat<R: Wait>(&mut self, rt: &R, path: Path) -> FileReply
        ensures answers { FileAnswers among_others (files_of self.old) (Lines.Stat path) result (files_of self.new) }
        ensures faults { RoseBy (file_fault_count result) (sum_by D.faults self.old.session.doors) (sum_by D.faults self.new.session.doors) }
        ensures goes_on { GoesOn self.old self.new }
    {
        match self.look(rt, &path) {
            None => FileReply::Refused(FileFault::NoName { path }),
            Some(Stat::Folder(entries)) => FileReply::FolderIs { entries },
            Some(Stat::File(blob)) => self.recent(rt, blob),
        }
    }

    // The reply to a question of what is in a folder.
    fn list_path<R: Wait>(&mut self, rt: &R, path: Path) -> Result<FileReply, NoMemory>
        ensures answers { FileAnswers among_others (files_of self.old) (Lines.List path) (said_of result) (files_of self.new) }
        ensures faults { RoseBy (file_fault_count (said_of result)) (sum_by D.faults self.old.session.doors) (sum_by D.faults self.new.session.doors) }
        ensures goes_on { GoesOn self.old self.new }
    {
        let listed = self.list(rt, &path);
        said_of_list(path, listed)
    }

    // The bytes of a range of a blob's version.
    fn read_blob<R: Wait>(
        &mut self,
        rt: &R,
        blob: u64,
        version: u64,
        offset: u64,
        count: u64,
    ) -> FileReply
        ensures asks { AsksOf among_others (files_of self.old) (Requests.Read blob version offset count) result (files_of self.new) }
        ensures faults { RoseBy (file_fault_count result) (sum_by D.faults self.old.session.doors) (sum_by D.faults self.new.session.doors) }
        ensures goes_on { Continues self.old.session self.new.session }
        ensures names { self.new.names ≡ self.old.names }
    {
        let blank = Blank::new(1);
        said_of_read(read_uncounted::<D, G, R, Brand>(
            &mut self.session,
            rt,
            blob,
            version,
            offset,
            count,
            blank,
        ))
    }

    // The reply to a read.
    fn read<R: Wait>(
        &mut self,
        rt: &R,
        path: Path,
        version: u64,
        offset: u64,
        count: u64,
    ) -> FileReply
        ensures answers { FileAnswers among_others (files_of self.old) (Lines.Read path version offset count) result (files_of self.new) }
        ensures faults { RoseBy (file_fault_count result) (sum_by D.faults self.old.session.doors) (sum_by D.faults self.new.session.doors) }
        ensures goes_on { GoesOn self.old self.new }
    {
        match self.find(rt, &path) {
            Ok(blob) => self.read_blob(rt, blob, version, offset, count),
            Err(fault) => said_of_missing(path, fault),
        }
    }

    // A snapshot of a blob's version.
    fn open<R: Wait>(&mut self, rt: &R, blob: u64, version: u64) -> Result<Snapshot, Fault>
        ensures opens { Opens among_others (files_of self.old) blob version result (files_of self.new) }
        ensures of_store { IfOk result (IsOfStore self.new.session.store) }
        ensures faults { self.new.session.doors ≡ self.old.session.doors }
        ensures goes_on { Continues self.old.session self.new.session }
        ensures names { self.new.names ≡ self.old.names }
    {
        self.session.open(rt, blob, version)
    }

    // The places of a range of a snapshot.
    fn places(&self, snapshot: &Snapshot, offset: u64, count: u64) -> Result<Holders, NoMemory>
        requires of_store { IsOfStore self.now.session.store snapshot.now }
        requires within { offset + count ≤ size_now snapshot.now }
        ensures { IfOk result (ArePlaces (files_of self.now) offset count) }
    {
        let blank = Blank::new(1);
        let nodes = self.session.nodes();
        places_uncounted::<Brand>(self.alloc, snapshot, nodes, offset, count, blank)
    }

    // What is said of where a range of a snapshot lies.
    fn places_said(
        &self,
        snapshot: &Snapshot,
        offset: u64,
        count: u64,
    ) -> Result<FileReply, NoMemory>
        requires of_store { IsOfStore self.now.session.store snapshot.now }
        ensures { PlacesSaid (files_of self.now) (size_now snapshot.now) offset count result }
    {
        let size = snapshot.size();
        let end = u128::from(offset) + u128::from(count);
        if u128::from(size) < end {
            return Ok(said_of_fault(Fault::RangePastSize { end, size }));
        }
        let pages = self.places(snapshot, offset, count)?;
        Ok(FileReply::HeldBy { pages })
    }

    // The reply to a question of where a range of a blob's version lies.
    fn where_blob<R: Wait>(
        &mut self,
        rt: &R,
        blob: u64,
        version: u64,
        offset: u64,
        count: u64,
    ) -> Result<FileReply, NoMemory>
        ensures answers { WhereAnswer among_others (files_of self.old) blob version offset count (said_of result) (files_of self.new) }
        ensures faults { file_fault_count (said_of result) ≡ 0 }
        ensures doors { self.new.session.doors ≡ self.old.session.doors }
        ensures goes_on { Continues self.old.session self.new.session }
        ensures names { self.new.names ≡ self.old.names }
    {
        if MAX_READ < count {
            return Ok(said_of_fault(Fault::ReadTooLong { length: count }));
        }
        match self.open(rt, blob, version) {
            Ok(snapshot) => self.places_said(&snapshot, offset, count),
            Err(fault) => Ok(said_of_fault(fault)),
        }
    }

    // The reply to a question of where a range of a file lies.
    fn where_path<R: Wait>(
        &mut self,
        rt: &R,
        path: Path,
        version: u64,
        offset: u64,
        count: u64,
    ) -> Result<FileReply, NoMemory>
        ensures answers { FileAnswers among_others (files_of self.old) (Lines.Where path version offset count) (said_of result) (files_of self.new) }
        ensures faults { RoseBy (file_fault_count (said_of result)) (sum_by D.faults self.old.session.doors) (sum_by D.faults self.new.session.doors) }
        ensures goes_on { GoesOn self.old self.new }
    {
        match self.find(rt, &path) {
            Ok(blob) => self.where_blob(rt, blob, version, offset, count),
            Err(fault) => Ok(said_of_missing(path, fault)),
        }
    }
}

impl<'a, D: BesideDoor, G: Gate> FileSession<'a, D, G> {
    // Appends to a blob.
    fn append_blob<R: Wait + Threads + Sync>(
        &mut self,
        rt: &R,
        blob: u64,
        bytes: &[u8],
    ) -> FileReply
        requires sync { IsSync R.row }
        ensures asks { AsksOf among_others (files_of self.old) (Requests.Append blob bytes.now) result (files_of self.new) }
        ensures faults { RoseBy (blob_faults (files_of self.new) blob result) (sum_by D.faults self.old.session.doors) (sum_by D.faults self.new.session.doors) }
        ensures goes_on { Continues self.old.session self.new.session }
        ensures names { self.new.names ≡ self.old.names }
    {
        said_of_append(self.session.append(rt, blob, bytes))
    }

    // The reply to an append.
    fn append<R: Wait + Threads + Sync>(&mut self, rt: &R, path: Path, bytes: Bytes) -> FileReply
        requires sync { IsSync R.row }
        ensures answers { FileAnswers among_others (files_of self.old) (Lines.Append path bytes) result (files_of self.new) }
        ensures faults { RoseBy (append_faults (files_of self.new) path result) (sum_by D.faults self.old.session.doors) (sum_by D.faults self.new.session.doors) }
        ensures goes_on { GoesOn self.old self.new }
    {
        match self.find(rt, &path) {
            Ok(blob) => self.append_blob(rt, blob, bytes.as_slice()),
            Err(fault) => said_of_missing(path, fault),
        }
    }

    // The reply to a finish.
    fn finish<R: Wait + Threads + Sync>(&mut self, rt: &R, ticket: u64) -> FileReply
        requires sync { IsSync R.row }
        ensures answers { FileAnswers among_others (files_of self.old) (Lines.Finish ticket) result (files_of self.new) }
        ensures faults { RoseBy (file_fault_count result) (sum_by D.faults self.old.session.doors) (sum_by D.faults self.new.session.doors) }
        ensures goes_on { GoesOn self.old self.new }
    {
        said_of_finish(self.session.finish(rt, ticket))
    }

    /// Answers a line.
    ///
    /// A line first looks at the names, where it has a path, and then asks the store. `mkdir` and `make` name the parent where it
    /// isn't there or is a file. `make` looks, creates a blob, and enters the name in a second turn of the names: it is Exists too
    /// where another session entered the name in between, and the blob has no name then. `where` tells, of each page that the range
    /// meets, the providers of the stored page that holds the first byte of the range in it; it asks no provider. Where no memory is
    /// found for the names, or for what is said, what the line did before stands, and nothing is said. The reply that memory was wanting
    /// is the store's alone: then neither the names nor the store have changed.
    pub fn answer<R: Wait + Threads + Sync>(
        &mut self,
        rt: &R,
        line: FileLine,
    ) -> Result<FileReply, NoMemory>
        requires sync { IsSync R.row }
        ensures answers { FileAnswers among_others (files_of self.old) line (said_of result) (files_of self.new) }
        ensures faults { RoseBy (line_faults (files_of self.new) line (said_of result)) (sum_by D.faults self.old.session.doors) (sum_by D.faults self.new.session.doors) }
        ensures goes_on { GoesOn self.old self.new }
    {
        match line {
            FileLine::Mkdir { path } => self.mkdir(rt, path),
            FileLine::Make { path } => self.make(rt, path),
            FileLine::Append { path, bytes } => Ok(self.append(rt, path, bytes)),
            FileLine::Read {
                path,
                version,
                offset,
                length,
            } => Ok(self.read(rt, path, version, offset, length)),
            FileLine::Stat { path } => Ok(self.stat(rt, path)),
            FileLine::List { path } => self.list_path(rt, path),
            FileLine::Where {
                path,
                version,
                offset,
                length,
            } => self.where_path(rt, path, version, offset, length),
            FileLine::Finish { ticket } => Ok(self.finish(rt, ticket)),
            FileLine::Quit => Ok(FileReply::Bye),
        }
    }
}
