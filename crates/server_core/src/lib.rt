//! One stream of items and its replies: the loop over a stream and a conversation, and its instance of requests, a dialect and a
//! session's service.
#![tactic(auto)]

ghost use Rattle.std.specs.Prelude.{◌≡◌};

mod conversation;
mod flow;
mod gather;
pub mod laws;
mod requests;
mod serve;

pub use conversation::Conversation;
pub use flow::End;
pub use requests::serve_stream;
pub use serve::converse;
