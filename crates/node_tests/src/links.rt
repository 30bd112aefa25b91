//! Doors to nodes over links in memory: pages come back, room runs out, and doors put beside each other.

ghost use Rattle.std.specs.Prelude.{◌≡◌, ◌<◌, ◌≤◌, All, length};
ghost use Rattle.page_store.specs.Page.{IsIn};
ghost use Rattle.page_fan.specs.Groups.{CanBePut};

use crate::gated::{Failing, GatedLink, LinkGate, Meeting};
use node_door::{BYTES_A_THREAD, LoopLink, StreamDoor};
use page_fan::{BesideDoor, Put, Stand, put_all_groups};
use page_node::Shelf;
use page_store::{Door, GetAnswer, Houses, MAX_PAGE, PageHouse, PageRef, PutAnswer};
use std::alloc::Global;
use std::collections::VecDeque;
use std::process::Abort;
use std::sync::Wait;
use std::sync::atomic::{AtomicBool, Ordering};
use std::thread::Threads;
use tree_geom::PageSize;

// A door to a node with pages of 4 bytes, over a link with so much room.
fn door_over<R: Abort>(rt: &R, alloc: Global, room: usize) -> StreamDoor<LoopLink> {
    let p = PageSize::new(4).expect(rt, "a page size");
    let shelf = Shelf::new(alloc, p).expect(rt, "memory");
    let link = LoopLink::new(alloc, shelf, room).expect(rt, "memory");
    StreamDoor::new(alloc, 1, p, link).expect(rt, "memory")
}

// Puts a page and gets all of it back. Answers whether both went well.
fn comes_back<R: Abort + Wait>(
    rt: &R,
    door: &mut StreamDoor<LoopLink>,
    house: &PageHouse,
    bytes: &[u8],
) -> bool {
    assert!(rt; !bytes.is_empty() && bytes.len() <= 4 && bytes.len() <= MAX_PAGE);
    let mut out = [0u8; 4];
    match door.put(rt, house, bytes) {
        PutAnswer::Stored(page) => {
            let out = &mut out[..bytes.len()];
            door.get(house, &page, 0, out) == GetAnswer::Got && &out[..] == bytes
        }
        _ => false,
    }
}

// How much room a link has for the bytes of either kind, and whether a put of "abc" and a get of it go well: they write 8 bytes and 29
// more, and the reply to the put has 13 bytes.
static ROOMS: [(usize, bool); 4] = [(12, false), (36, false), (37, true), (4096, true)];

#[test]
fn a_link_without_room_spends_its_door(rt: HostRuntime) {
    for (room, well) in ROOMS.as_slice() {
        let house = PageHouse::new(rt.alloc(), 1).expect(&rt, "memory");
        let mut door = door_over(&rt, rt.alloc(), *room);
        assert!(rt;
            comes_back(&rt, &mut door, &house, b"abc") == *well,
            "another end"
        );
        assert!(rt; door.is_spent() != *well, "spent or not");
        assert!(rt; door.faults() == u64::from(!*well), "another count");
        let link = door.into_link();
        assert!(rt;
            link.faults() == u64::from(!*well),
            "another count of the link"
        );
    }
}

// Gets each part of a page, and checks that it is of those bytes that were put.
fn check_parts<R: Abort>(
    rt: &R,
    door: &mut StreamDoor<LoopLink>,
    house: &PageHouse,
    page: &PageRef,
    bytes: &[u8],
)
    requires here { IsIn house.now page.now.spot }
    requires bytes { page.now.bytes ≡ bytes.now }
    requires few { length bytes.now ≤ 4 }
{
    for from in 0..bytes.len() + 1 {
        for end in from..bytes.len() + 1 {
            let mut out = [0u8; 4];
            let part = &mut out[..end - from];
            let answer = door.get(house, page, from as u32, part);
            assert!(rt; answer == GetAnswer::Got, "not got");
            assert!(rt; &part[..] == &bytes[from..end], "other bytes");
        }
    }
}

// Puts a page by one door, and gets its parts by that one and by another one to the same house.
fn check_page<R: Abort + Wait>(
    rt: &R,
    one: &mut StreamDoor<LoopLink>,
    other: &mut StreamDoor<LoopLink>,
    house: &PageHouse,
    bytes: &[u8],
)
    requires some { 1 ≤ length bytes.now }
    requires few { length bytes.now ≤ 4 }
{
    match one.put(rt, house, bytes) {
        PutAnswer::Stored(page) => {
            check_parts(rt, one, house, &page, bytes);
            check_parts(rt, other, house, &page, bytes);
        }
        _ => panic!(rt; "not stored"),
    }
}

#[test]
fn each_part_of_a_page_comes_back_by_each_door(rt: HostRuntime) {
    let house = PageHouse::new(rt.alloc(), 1).expect(&rt, "memory");
    let mut one = door_over(&rt, rt.alloc(), 1 << 18);
    let mut other = door_over(&rt, rt.alloc(), 1 << 18);
    for number in 0..20u8 {
        let bytes = [number, 255 - number, number / 2, 7];
        for length in 1..5usize {
            check_page(&rt, &mut one, &mut other, &house, &bytes[..length]);
            check_page(&rt, &mut other, &mut one, &house, &bytes[..length]);
        }
    }
}

// A door to a node over a link behind a gate.
fn stand_of<R: Abort, G: LinkGate + Drop>(
    rt: &R,
    alloc: Global,
    provider: u32,
    p: PageSize,
    gate: G,
) -> Stand<StreamDoor<GatedLink<G>>> {
    let link = GatedLink::new(alloc, gate, p, 1 << 18).expect(rt, "memory");
    Stand {
        door: StreamDoor::new(alloc, provider, p, link).expect(rt, "memory"),
        tray: VecDeque::new(alloc),
    }
}

// Whether the one reply in the tray is that the page was stored.
fn has_stored<D>(stand: &Stand<D>) -> bool {
    match stand.tray.front() {
        Some(reply) => matches!(&reply.answer, PutAnswer::Stored(_)) && stand.tray.len() == 1,
        None => false,
    }
}

// A page at each of three providers.
fn three_puts<R: Abort>(rt: &R, alloc: Global, buffer: &[u8]) -> Vec<Put>
    requires { 131072 < length buffer.now }
    ensures { All (CanBePut 3 buffer.now) result.items }
{
    let first = Put { provider: 1, at: 0 };
    let second = Put {
        provider: 2,
        at: 65_536,
    };
    let third = Put {
        provider: 3,
        at: 131_072,
    };
    let _length = buffer.len();
    vec![in alloc; first, second, third].expect(rt, "memory")
}

// Puts a page at each of three doors, of which each has its reply only once the next one's link was written to: a link raises its
// own flag when it is written to, and is read once the next one's flag is up.
fn check_beside<R: Abort + Wait + Threads + Sync>(rt: &R, alloc: Global) {
    let flags = [
        AtomicBool::new(false),
        AtomicBool::new(false),
        AtomicBool::new(false),
    ];
    let p = PageSize::new(BYTES_A_THREAD as u64).expect(rt, "a page size");
    let houses = Houses::new(alloc, 3).expect(rt, "memory");
    let mut stands = Vec::new(alloc);
    for i in 0..3u32 {
        let gate = Meeting {
            own: &flags[i as usize],
            other: &flags[(i as usize + 1) % 3],
        };
        let stand = stand_of(rt, alloc, i + 1, p, gate);
        stands.push(stand).expect(rt, "memory");
    }
    let buffer = vec![in alloc; 7u8; 3 * BYTES_A_THREAD].expect(rt, "memory");
    let puts = three_puts(rt, alloc, buffer.as_slice());
    put_all_groups(
        rt,
        stands.as_mut_slice(),
        &houses,
        p,
        buffer.as_slice(),
        puts.as_slice(),
        BYTES_A_THREAD,
    );
    for stand in stands.as_slice() {
        assert!(rt; has_stored(stand), "a door waited for one behind it");
    }
}

#[test]
fn doors_to_several_nodes_put_beside_each_other(rt: HostRuntime) {
    check_beside(&rt, rt.alloc());
}

// Puts a page at each of three doors by the call by which an update's pages are put.
fn check_in_turn<R: Abort + Wait + Threads + Sync>(rt: &R, alloc: Global) {
    let p = PageSize::new(BYTES_A_THREAD as u64).expect(rt, "a page size");
    let houses = Houses::new(alloc, 3).expect(rt, "memory");
    let mut stands = Vec::new(alloc);
    for i in 0..3u32 {
        let stand = stand_of(rt, alloc, i + 1, p, Failing::new(0, 0));
        stands.push(stand).expect(rt, "memory");
    }
    let buffer = vec![in alloc; 7u8; 3 * BYTES_A_THREAD].expect(rt, "memory");
    let puts = three_puts(rt, alloc, buffer.as_slice());
    StreamDoor::<GatedLink<Failing>>::put_groups(
        rt,
        stands.as_mut_slice(),
        &houses,
        p,
        buffer.as_slice(),
        puts.as_slice(),
    );
    for stand in stands.as_slice() {
        assert!(rt; has_stored(stand), "a page wasn't stored");
    }
}

#[test]
fn doors_over_any_link_put_the_pages_of_an_update(rt: HostRuntime) {
    check_in_turn(&rt, rt.alloc());
}
