//! A stream of lines that a file session answers.
ghost use Rattle.std.specs.Prelude.{◌≡◌, ◌≤◌, [], sum_by};
ghost use denote.Param.Send.{IsSync};
ghost use Rattle.faults.specs.Counts.{RoseBy};
ghost use Rattle.server_core.specs.Conversed.{Conversed, end_read_faults, end_write_faults, end_ends};
ghost use Rattle.file_names.specs.Lines.{IsWellHeard};
ghost use Rattle.file_layer.specs.Files.{among_others, FileItemReply};
ghost use Rattle.file_layer.specs.Faults.{file_item_faults};
ghost use Rattle.file_layer.specs.Sessions.{files_of, said_of};
ghost use Rattle.file_layer.specs.Served.{file_talk, ServedFiles, kept_of};

use crate::said::said_of_fault;
use crate::session::FileSession;
use faults::NoMemory;
use file_names::{FileDialect, FileHeard, FileLine, FileReply};
use items::Ending;
use page_fan::BesideDoor;
use ports::gate::Gate;
use ports::pair::Pair;
use ports::stream::{Sink, Source};
use request_form::Said;
use server_core::{Conversation, End, converse};
use std::alloc::Global;
use std::sync::Wait;
use std::thread::Threads;

// What answers lines about files.
trait FileService {
    ghost use Rattle.std.specs.Prelude.{◌≡◌, ℕ};
    ghost use denote.Param.Send.{IsSync};
    ghost use Rattle.faults.specs.Counts.{RoseBy};
    ghost use Rattle.file_layer.specs.Files.{Files, among_others, FileAnswers};
    ghost use Rattle.file_layer.specs.Faults.{line_faults};
    ghost use Rattle.file_layer.specs.Sessions.{said_of};
    ghost use Rattle.file_layer.specs.Served.{FileKept};

    // The file session as the definition of its answers sees it.
    ghost files: { Self → Files };

    // How often the outside has failed for it.
    ghost faults: { Self → ℕ };

    // What no line changes.
    ghost kept: { Self → FileKept };

    // Answers a line.
    fn reply<R: Wait + Threads + Sync>(
        &mut self,
        rt: &R,
        line: FileLine,
    ) -> Result<FileReply, NoMemory>
        requires sync { IsSync R.row }
        ensures answers { FileAnswers among_others (files self.old) line (said_of result) (files self.new) }
        ensures faults { RoseBy (line_faults (files self.new) line (said_of result)) (faults self.old) (faults self.new) }
        ensures kept { kept self.new ≡ kept self.old };
}

impl<'a, D: BesideDoor, G: Gate> FileService for FileSession<'a, D, G> {
    ghost use Rattle.std.specs.Prelude.{sum_by};
    ghost use Rattle.file_layer.specs.Sessions.{files_of};
    ghost use Rattle.file_layer.specs.Served.{kept_of};

    ghost files = { λ s. files_of s };

    ghost faults = { λ s. sum_by D.faults s.session.doors };

    ghost kept = { λ s. kept_of s };

    fn reply<R: Wait + Threads + Sync>(
        &mut self,
        rt: &R,
        line: FileLine,
    ) -> Result<FileReply, NoMemory> {
        self.answer(rt, line)
    }
}

// How lines are spelled.
trait LineDialect {
    ghost use Rattle.std.specs.Prelude.{◌≡◌, ◌++◌, ℕ, List, [], OnOk, IfOk};
    ghost use Rattle.items.specs.Items.{ItemStream, IsFed, IsNextItem, IsEndOf};
    ghost use Rattle.file_names.specs.Lines.{IsWellHeard};
    ghost use Rattle.file_names.specs.Said.{said};
    ghost use Rattle.file_names.specs.declared.form.FileHeard.{FileHeard};

    // What is still to be heard, where the stream goes on by these bytes and then ends.
    ghost reads: { Self → List ℕ → ItemStream FileHeard };

    // Takes the stream's next bytes.
    fn feed_piece(&mut self, piece: &[u8]) -> Result<(), NoMemory>
        ensures { OnOk result (IsFed (reads self.old) piece.now (reads self.new)) };

    // The next whole line, or none where only a part of one is left.
    fn next_line(&mut self) -> Result<Option<FileHeard>, NoMemory>
        ensures { IfOk result (λ item. IsNextItem IsWellHeard (reads self.old) item (reads self.new)) };

    // What is left over at the end of the stream.
    fn end_lines(&mut self) -> Result<Ending<FileHeard>, NoMemory>
        requires { (reads self.old []).whole ≡ [] }
        ensures { IfOk result (λ ending. IsEndOf IsWellHeard (reads self.old) ending) };

    // The reply as it is written.
    fn say_line(&self, reply: FileReply) -> Result<Said, NoMemory>
        ensures { IfOk result (λ parts. parts.head.items ++ parts.body ≡ said reply) };
}

impl LineDialect for FileDialect {
    ghost use Rattle.std.specs.Prelude.{◌++◌};
    ghost use Rattle.file_names.specs.Lines.{heard};

    ghost reads = { λ d more. heard (d ++ more) };

    fn feed_piece(&mut self, piece: &[u8]) -> Result<(), NoMemory> {
        self.feed(piece)
    }

    fn next_line(&mut self) -> Result<Option<FileHeard>, NoMemory> {
        self.next()
    }

    fn end_lines(&mut self) -> Result<Ending<FileHeard>, NoMemory> {
        self.end()
    }

    fn say_line(&self, reply: FileReply) -> Result<Said, NoMemory> {
        self.say(reply)
    }
}

// What answers lines, and the dialect in which it is asked.
#[derive(Drop)]
struct FileTalk<'a, V, T> {
    files: &'a mut V,
    dialect: &'a mut T,
}

// The reply to one item.
fn reply_to<R: Wait + Threads + Sync, V: FileService>(
    rt: &R,
    files: &mut V,
    item: FileHeard,
) -> Result<FileReply, NoMemory>
    requires sync { IsSync R.row }
    requires well { IsWellHeard item }
    ensures answer { FileItemReply among_others (V.files files.old) item (said_of result) (V.files files.new) }
    ensures faults { RoseBy (file_item_faults (V.files files.new) item (said_of result)) (V.faults files.old) (V.faults files.new) }
    ensures kept { V.kept files.new ≡ V.kept files.old }
{
    match item {
        FileHeard::Asked(line) => files.reply(rt, line),
        FileHeard::Wrong(fault) => Ok(said_of_fault(fault)),
    }
}

impl<'a, V: FileService, T: LineDialect> Conversation for FileTalk<'a, V, T> {
    ghost use Rattle.std.specs.Prelude.{◌∷◌, [], List};
    ghost use base.Fml.{GName};
    ghost use Rattle.file_layer.specs.Served.{file_talk, FileKept};

    type Item = FileHeard;

    ghost talk = { file_talk };

    ghost reads = { λ t. T.reads t.dialect.now };

    ghost session = { λ t. V.files t.files.now };

    ghost faults = { λ t. V.faults t.files.now };

    ghost Kept = { FileKept × List GName };

    ghost kept = { λ t. (V.kept t.files.now, t.files.ghost_name ∷ t.dialect.ghost_name ∷ []) };

    fn feed(&mut self, piece: &[u8]) -> Result<(), NoMemory> {
        self.dialect.feed_piece(piece)
    }

    fn next(&mut self) -> Result<Option<FileHeard>, NoMemory> {
        self.dialect.next_line()
    }

    fn end(&mut self) -> Result<Ending<FileHeard>, NoMemory> {
        self.dialect.end_lines()
    }

    fn is_last(item: &FileHeard) -> bool {
        matches!(item, FileHeard::Asked(FileLine::Quit))
    }

    fn answer<R: Wait + Threads + Sync>(
        &mut self,
        rt: &R,
        item: FileHeard,
    ) -> Result<Said, NoMemory> {
        let reply = reply_to(rt, self.files, item)?;
        self.dialect.say_line(reply)
    }
}

// Answers the lines of one stream, in a dialect that was fed nothing.
fn serve_asked<R: Wait + Threads + Sync, V: FileService, T: LineDialect, I: Source + Sink>(
    rt: &R,
    alloc: Global,
    files: &mut V,
    dialect: &mut T,
    io: &mut I,
    limit: u64,
) -> End
    requires some { 1 ≤ limit }
    requires fresh { (T.reads dialect.old []).whole ≡ [] }
    ensures served { Conversed file_talk
        (record { session = V.files files.old; faults = V.faults files.old; written = I.written io.old })
        (T.reads dialect.old)
        (record { given = I.given io.old; left = I.left io.old; ends = I.ends io.old })
        (record { given = I.given io.new; left = I.left io.new; ends = I.ends io.new })
        limit
        (record { session = V.files files.new; faults = V.faults files.new; written = I.written io.new })
        result }
    ensures read_faults { RoseBy (end_read_faults result) (I.read_faults io.old) (I.read_faults io.new) }
    ensures write_faults { RoseBy (end_write_faults result) (I.write_faults io.old) (I.write_faults io.new) }
    ensures ends { RoseBy (end_ends result) (I.ends io.old) (I.ends io.new) }
    ensures objects { I.objects io.new ≡ I.objects io.old }
    ensures kept { V.kept files.new ≡ V.kept files.old }
{
    let mut talk = FileTalk { files, dialect };
    converse(rt, alloc, &mut talk, io, limit)
}

// Answers the lines of one stream.
fn serve_lines<R: Wait + Threads + Sync, V: FileService, I: Source + Sink>(
    rt: &R,
    alloc: Global,
    files: &mut V,
    io: &mut I,
    limit: u64,
) -> End
    requires some { 1 ≤ limit }
    ensures served { ServedFiles
        (record { session = V.files files.old; faults = V.faults files.old; written = I.written io.old })
        (record { given = I.given io.old; left = I.left io.old; ends = I.ends io.old })
        (record { given = I.given io.new; left = I.left io.new; ends = I.ends io.new })
        limit
        (record { session = V.files files.new; faults = V.faults files.new; written = I.written io.new })
        result }
    ensures read_faults { RoseBy (end_read_faults result) (I.read_faults io.old) (I.read_faults io.new) }
    ensures write_faults { RoseBy (end_write_faults result) (I.write_faults io.old) (I.write_faults io.new) }
    ensures ends { RoseBy (end_ends result) (I.ends io.old) (I.ends io.new) }
    ensures objects { I.objects io.new ≡ I.objects io.old }
    ensures kept { V.kept files.new ≡ V.kept files.old }
{
    match FileDialect::new(alloc) {
        Ok(mut dialect) => serve_asked(rt, alloc, files, &mut dialect, io, limit),
        Err(NoMemory) => End::NoMemory,
    }
}

/// Answers the lines of one stream by a file session until the stream ends, takes at most `limit` bytes, and says how it ended.
/// What is read comes from `source`, and the replies go to `sink`.
///
/// It reads and writes as every stream is served: in pieces of up to 65,536 bytes, whose replies are written at the latest before
/// the next read. It never ends by `Cut`. After want of memory for the names, or for a line that comes or a reply, the stream ends.
/// A session that had seen nothing before, and that in the end has seen nothing but its own, was answered as a map from paths to
/// folders and to lists of updates answers.
pub fn serve_files<'a, R: Wait + Threads + Sync, D: BesideDoor, G: Gate, S: Source, K: Sink>(
    rt: &R,
    alloc: Global,
    files: &mut FileSession<'a, D, G>,
    source: &mut S,
    sink: &mut K,
    limit: u64,
) -> End
    requires some { 1 ≤ limit }
    ensures served { ServedFiles
        (record { session = files_of files.old; faults = sum_by D.faults files.old.session.doors; written = K.written sink.old })
        (record { given = S.given source.old; left = S.left source.old; ends = S.ends source.old })
        (record { given = S.given source.new; left = S.left source.new; ends = S.ends source.new })
        limit
        (record { session = files_of files.new; faults = sum_by D.faults files.new.session.doors; written = K.written sink.new })
        result }
    ensures read_faults { RoseBy (end_read_faults result) (S.read_faults source.old) (S.read_faults source.new) }
    ensures write_faults { RoseBy (end_write_faults result) (K.write_faults sink.old) (K.write_faults sink.new) }
    ensures ends { RoseBy (end_ends result) (S.ends source.old) (S.ends source.new) }
    ensures kept { kept_of files.new ≡ kept_of files.old }
{
    let mut io = Pair { source, sink };
    serve_lines(rt, alloc, files, &mut io, limit)
}
