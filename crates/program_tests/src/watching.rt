//! A watch by its own call.

use blob_model::Limits;
use client_session::Shared;
use page_store::PlainMaker;
use ports::gate::FreeGate;
use std::alloc::Global;
use std::process::Abort;
use std::sync::Wait;
use std::thread::Threads;
use tree_geom::PageSize;
use workload_run::{WatchPlan, WatchSummary, watch};

// What a watch of two readers and three operations comes to, on a new store.
fn watched<R: Threads + Wait + Sync + Abort>(rt: &R, alloc: Global) -> WatchSummary {
    let p = PageSize::new(4).expect(rt, "a page size");
    let (shared, owner) = Shared::new(alloc, Limits::greatest(), p, 4, 2).expect(rt, "memory");
    let plan = WatchPlan {
        seed: 0,
        readers: 2,
        ops: 3,
    };
    let mut maker = PlainMaker::new();
    let told = watch(rt, alloc, shared, owner, &mut maker, &FreeGate, plan);
    let (summary, _desk) = told.ok().expect(rt, "its end");
    summary
}

#[test]
fn a_watch_of_two_readers_comes_to_three_versions(rt: HostRuntime) {
    let told = watched(&rt, rt.alloc());
    let expected = WatchSummary {
        size: 48,
        versions: 3,
        agree: 2,
    };
    assert!(rt; told == expected);
}
