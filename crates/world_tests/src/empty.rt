// A list of pages, and a world with nothing in it.
use blob_core::{PageList, World, steps_hold};
use blob_model::Limits;
use tree_geom::{NodeKey, PageSize, Range};

#[test]
fn a_list_of_pages_keeps_their_numbers(rt: HostRuntime) {
    let numbers = vec![in rt.alloc(); 3u64, 1, 2].expect(&rt, "memory");
    let pages = PageList::of(numbers);
    assert!(rt; pages.len() == 3 && pages.as_slice() == [3, 1, 2].as_slice());
}

#[test]
fn an_empty_world_has_no_blob_and_no_node(rt: HostRuntime) {
    steps_hold();
    let p = PageSize::new(4).expect(&rt, "4 bytes");
    let world = World::empty(rt.alloc(), Limits::greatest(), p);
    assert!(rt; world.published(0).is_none() && world.published(1).is_none());
    let key = NodeKey {
        blob: 1,
        version: 1,
        range: Range { offset: 0, size: 4 },
    };
    assert!(rt; world.node(key).is_none());
}
