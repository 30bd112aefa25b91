//! The program: one command, from the words of the command line and the bytes that come in to the bytes that go out.
//!
//! `run` reads the words and the settings file that they name, and does what the command asks for with these settings: each command
//! is a file of its own. It makes a new store, and serves its input line by line by one session, whose pages go through doors that
//! it is lent, as the lines come. It keeps neither the input nor the replies. Or it serves connections by many sessions of a new
//! store, or runs a load or a watch over one. Or it answers frames as a page node, which needs no store. Or it
//! answers lines about folders and files, in the same way as a script.
#![tactic(auto)]

ghost use Rattle.std.specs.Prelude.{◌≡◌};

mod filing;
mod hosting;
mod keeping;
pub mod laws;
mod loading;
mod measuring;
mod objects;
mod program;
mod serving;
mod status;
mod store;
mod told;
mod watching;
mod writing;

pub use program::run;
