//! Doors that put their pages one after another.
ghost use Rattle.std.specs.Prelude.{◌<◌, ◌≤◌, All, length};
ghost use Rattle.page_fan.specs.Groups.{CanBePut};
ghost use Rattle.page_fan.specs.Stands.{EachReplied, EachHasReplies, EachCalled, TruthStays};

use page_fan::{Put, Stand};
use page_store::{Door, Houses};
use std::sync::Wait;
use tree_geom::PageSize;

/// Each stand puts the pages of its own provider, as `BesideDoor::put_groups` says, one stand after another in the calling thread.
/// So nothing is asked of the doors' type but that they are doors.
pub(crate) fn put_in_turn<D: Door, R: Wait>(
    rt: &R,
    stands: &mut [Stand<D>],
    houses: &Houses,
    p: PageSize,
    buffer: &[u8],
    puts: &[Put],
)
    requires puts { All (CanBePut (length houses.now) buffer.now) puts.now }
    ensures truth_stays { TruthStays D.is_true stands.old stands.new }
    ensures replies { EachReplied houses.now p buffer.now D.faults stands.old stands.new }
    ensures each { EachHasReplies puts.now stands.old stands.new }
    ensures called { EachCalled D.called stands.old stands.new }
{
    for index in 0..stands.len() {
        stands[index].put_group(rt, index, houses, p, buffer, puts);
    }
}
