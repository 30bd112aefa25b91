// What a window keeps of each update that waits.
ghost use Rattle.std.specs.Prelude.{◌≡◌, ◌≤◌, drop, vec_len, vec_capacity};

use node_store::Row;
use std::sync::Arc;

/// An update that is numbered and not published: what was given with it at its numbering, and its row, where it is finished.
#[derive(Drop)]
pub(crate) struct Slot<U> {
    pub(crate) update: U,
    pub(crate) row: Option<Arc<Row>>,
}

/// Takes the first `n` slots away, of which there are that many. The room stays, and no memory is taken.
pub(crate) fn drop_first<U: Drop>(slots: &mut Vec<Slot<U>>, n: usize)
    requires { n ≤ vec_len slots.old }
    ensures items { slots.new.items ≡ drop n slots.old.items }
    ensures room { vec_capacity slots.new ≡ vec_capacity slots.old }
{
    let kept = slots.len() - n;
    slots.rotate_left(n);
    slots.truncate(kept);
}
