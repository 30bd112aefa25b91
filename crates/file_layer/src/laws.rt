//! Laws of what a file session is answered. A law is the contract of a function that does nothing.
ghost use Rattle.file_layer.specs.Laws.{OwnFilesAreAlone, AloneAnswerByMap};

/// A file session that in the end has seen its own entries and its own events alone was alone all along: every gap in the store's
/// history and in the names' was empty.
pub fn own_files_are_alone()
    ensures { OwnFilesAreAlone }
{
    request_form::laws::transcripts_hold();
    request_form::laws::own_events_are_made();
}

/// A first file session that nobody else is beside answers as a map from paths to folders and to lists of updates does, and never
/// that a blob isn't there.
pub fn alone_answer_by_map()
    ensures { AloneAnswerByMap }
{}
