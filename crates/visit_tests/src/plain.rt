//! The visit bound of a read, counted plainly from the updates of a blob of three pages of four bytes.

use crate::visits::Part;

// The bytes of a page.
const PAGE: u64 = 4;

// Each of so many leaves of a page that leave bytes of it to older ones, one behind another, is the last one: it stores the page anew.
const FOLD: u64 = 16;

/// An update: its first byte, the one behind its last, and how many bytes the blob has then.
#[derive(Clone, Copy)]
pub(crate) struct Written {
    pub(crate) at: u64,
    pub(crate) end: u64,
    pub(crate) size: u64,
}

impl Written {
    // Whether it has a byte of the page that begins there.
    fn meets(self, start: u64) -> bool {
        self.at < start.saturating_add(PAGE) && start < self.end
    }

    // Whether it has all bytes of the page that the blob has then.
    fn covers(self, start: u64) -> bool {
        let after = start.saturating_add(PAGE);
        self.at <= start && self.end.min(after) == self.size.min(after)
    }
}

// How many older leaves a reader of the page that begins there may come to.
fn depth_of(written: &[Written], start: u64) -> u64 {
    let mut depth = 0u64;
    for update in written {
        if update.covers(start) {
            depth = 0;
        } else if update.meets(start) {
            depth = depth.saturating_add(1) % FOLD;
        }
    }
    depth
}

/// The most node steps of a read of the version that these updates leave: two for each of the two levels of the tree, and for each page that
/// is met two and its depth.
pub(crate) fn plain_bound(written: &[Written], part: Part) -> u64 {
    if part.count == 0 {
        return 0;
    }
    let end = part.offset.saturating_add(part.count);
    let mut most = 4u64;
    for page in part.offset / PAGE..end.saturating_sub(1) / PAGE + 1 {
        let depth = depth_of(written, page.saturating_mul(PAGE));
        most = most.saturating_add(2).saturating_add(depth);
    }
    most
}
