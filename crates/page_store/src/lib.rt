//! Write-once pages of bytes at numbered providers, the references that stand for them, and the doors by which a session
//! reaches a provider.
//!
//! Many sessions store pages at once, and others read them meanwhile. A page therefore never changes once it is there: a
//! reader needs no lock, and what it found in a page it finds in it for as long as the store runs.
//!
//! - A [`PageHouse`] is one provider: a list of pages that grows at its end. A put copies bytes into a page of its own and
//!   gives a [`PageRef`], by which these bytes, and no others, are found in that house from then on, in every thread. The
//!   [`Houses`] of a store are those of all its providers, numbered from 1.
//! - A [`Door`] is how one session reaches one provider. A door may fail where a house can't, as the way to another machine
//!   does; it counts its failures, and the count is what a session shows for a page fault. A [`PlainDoor`] never fails. A
//!   [`FlakyDoor`] fails at the calls that a test chooses. A [`DoorMaker`] makes the doors of a session and takes them back.
//! - A [`StoredPage`] is one page of an update with its replicas, references at different providers to the same bytes. The
//!   [`Pages`] of an update are its stored pages in order, which together stand for the update's bytes.
//!
//! A page is put through a door and read back through it:
//!
//! ```text
//! let houses = Houses::new(alloc, 2)?;                   // providers 1 and 2
//! let mut door = maker.make(2)?;                         // a door to provider 2
//! if let PutAnswer::Stored(page) = door.put(rt, houses.house(2), b"abcdef") {
//!     let mut out = [0; 3];
//!     door.get(houses.house(2), &page, 2, &mut out);     // out is "cde", unless the door failed
//! }
//! maker.back(door);                                      // its failures are added to the maker's count
//! ```
#![tactic(auto)]

mod door;
mod flaky;
mod house;
mod plain;
mod replicas;
mod stored;

pub use door::{Door, DoorMaker, GetAnswer, PutAnswer};
pub use faults::NoMemory;
pub use flaky::{FlakyDoor, FlakyMaker};
pub use house::{Houses, PageHouse, PageRef};
pub use plain::{PlainDoor, PlainMaker};
pub use replicas::StoredPage;
pub use stored::Pages;

/// The greatest length of a page, in bytes.
pub const MAX_PAGE: usize = 1_048_576;
