// What the program is told to do, by its words, the settings file and the defaults.
ghost use Rattle.std.specs.Prelude.{◌≡◌, ℕ, List, Some, None, map, IfOk, IfErr, string_bytes};
ghost use Rattle.faults.specs.Counts.{RoseBy};
ghost use Rattle.blobseer_run.specs.Told.{order_of_words, NamesFile, FileGives, Settled, Stopped};
ghost use Rattle.blobseer_run.specs.Telling.{FileStops, WordsStop};
ghost use Rattle.blobseer_run.specs.Status.{code_of};

use crate::status::Status;
use ports::files::{FileText, Files};
use settings::{Command, Given, MOST_FILE_BYTES, Settings, Text, TextFault, WordsFault};
use std::alloc::Global;

// What the words ask for.
fn order_of(alloc: Global, words: &[String]) -> Result<(Command, Given), Status>
    ensures asks { IfOk result (λ order. order_of_words (map string_bytes words.now) ≡ Some (order.0, order.1)) }
    ensures stopped { IfErr result (λ status. WordsStop (map string_bytes words.now) status) }
{
    match settings::read_words(alloc, words) {
        Ok((command, given)) => Ok((command, given)),
        Err(WordsFault::Refused) => Err(Status::WordsRefused),
        Err(WordsFault::NoMemory) => Err(Status::OutOfMemory),
    }
}

// What the file of that name gives, and nothing without a name.
fn file_given<F: Files>(alloc: Global, files: &mut F, name: &Option<Text>) -> Result<Given, Status>
    ensures gives { IfOk result (λ given. FileGives (F.known files.old) name.now given) }
    ensures stopped { IfErr result (λ status. FileStops (F.known files.old) name.now (F.faults files.old) (F.faults files.new) status) }
    ensures untouched { name.now ≡ None → files.new ≡ files.old }
    ensures faults { RoseBy 0 (F.faults files.old) (F.faults files.new) }
    ensures files { (other : List ℕ) → F.known files.new other ≡ F.known files.old other }
{
    let Some(name) = name else {
        return Ok(Given::nothing());
    };
    let text = match files.read(name.as_str(), MOST_FILE_BYTES) {
        FileText::Text(text) => text,
        FileText::TooLong => return Err(Status::SettingsRefused),
        FileText::Failed => return Err(Status::ReadFault),
        FileText::NoMemory => return Err(Status::OutOfMemory),
    };
    match settings::read_text(alloc, text.as_slice()) {
        Ok(given) => Ok(given),
        Err(TextFault::Refused) => Err(Status::SettingsRefused),
        Err(TextFault::NoMemory) => Err(Status::OutOfMemory),
    }
}

/// The command that the words ask for, and the settings that they, the file that they name and the defaults come to. The file
/// is read only where the words are taken, and no file is where they name none.
pub(crate) fn told<F: Files>(
    alloc: Global,
    words: &[String],
    files: &mut F,
) -> Result<(Command, Settings), Status>
    ensures settled { IfOk result (λ told. Settled (map string_bytes words.now) (F.known files.old) told.0 told.1) }
    ensures stopped { IfErr result (λ status. Stopped (map string_bytes words.now) (F.known files.old) (F.faults files.old) (F.faults files.new) (code_of status)) }
    ensures untouched { (¬ NamesFile (map string_bytes words.now)) → files.new ≡ files.old }
    ensures faults { RoseBy 0 (F.faults files.old) (F.faults files.new) }
    ensures files { (other : List ℕ) → F.known files.new other ≡ F.known files.old other }
{
    let (command, given) = order_of(alloc, words)?;
    let file = file_given(alloc, files, &given.settings)?;
    match settings::merge(given, file) {
        Ok(settings) => Ok((command, settings)),
        Err(_) => Err(Status::SettingsRefused),
    }
}
