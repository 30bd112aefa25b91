//! Files over blobs: sessions that know blobs by names.
#![tactic(auto)]

pub mod laws;
mod places;
mod said;
mod serving;
mod session;

pub use serving::serve_files;
pub use session::FileSession;
