//! What an operator tells the program: the words of the command line, and the text of the settings file.
//!
//! `read_words` takes the words and `read_text` the text. Each accepts exactly what the definitions in `specs/` accept,
//! with the values that they name, and refuses everything else. `merge` puts the two together: the words win over the
//! file, and the file over the defaults. The commands, their options, and the ranges and defaults of the numbers stand in
//! one table, `src/table.rt`, which is proved to be that of `specs/Table.antt`.
#![tactic(auto)]

ghost use Rattle.std.specs.Prelude.{◌≡◌};

mod file;
mod merging;
mod parser;
mod said;
mod spelling;
mod table;
mod values;
mod words;

pub use file::{MOST_FILE_BYTES, TextFault, read_text};
pub use merging::{MergeRefused, merge};
pub use table::Command;
pub use values::{Given, Settings, Text};
pub use words::{WordsFault, read_words};
