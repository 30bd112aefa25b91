//! The lines of a script: which requests they spell, and how replies are written.
//!
//! A script is read by `ScriptDialect`. What it hears is the definition `heard` of the bytes that it was fed,
//! wherever they were cut into pieces, and a reply is written as `said` tells.
#![tactic(auto)]

ghost use Rattle.std.specs.Prelude.{◌≡◌};

mod dialect;
mod fields;
mod line;
mod reply;
mod written;

pub use dialect::ScriptDialect;
pub use reply::reply_line;
