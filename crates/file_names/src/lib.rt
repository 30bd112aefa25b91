//! Names for blobs: paths, the tree of folders and files that they name, and lines that ask about them.
//!
//! - [`Names`] are the tree and its history; each call on it is an act of a turn.
//! - A stream of lines is read by [`FileDialect`]. What it hears is the definition `heard` of the bytes that it was fed, wherever they were
//!   cut into pieces, and a reply is written as `said` tells.
#![tactic(auto)]

ghost use Rattle.std.specs.Prelude.{◌≡◌};

mod acts;
mod command;
mod dialect;
mod fields;
mod folders;
mod form;
mod line;
mod names;
mod path;
mod reply;
mod tree;

pub use acts::{Enter, Find, Foresee, List, Look};
pub use dialect::FileDialect;
pub use form::{FileFault, FileHeard, FileLine, FileReply, Holders, PageHolders, Providers};
pub use names::{MOST_NAMES, Names};
pub use path::{Path, is_path};
pub use tree::{EnterFault, Entered, FindFault, ListFault, Listed, Listing, Named, Stat};
