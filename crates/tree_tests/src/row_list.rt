//! The list of rows that a snapshot hands out.
ghost use Rattle.std.specs.Prelude.{◌≡◌, ◌<◌};

use crate::blob::Blob;
use crate::plans::written;
use node_store::Row;
use radix_list::RadixList;
use std::marker::Brand;
use std::process::Abort;
use std::sync::ledger::{Blank, Ledger};
use tree_geom::Steps;

// The version and the offset of row `i`, counted from 0, if there is one.
fn told<L: Ledger>(rows: &RadixList<Row>, i: u64, blank: Blank) -> Option<(u64, u64)>
    requires name { blank.name ≡ L.name }
    requires parts { blank.parts ≡ L.parts }
    requires some { 0 < blank.parts }
{
    let mut steps = Steps::<L>::open(blank);
    match rows.get(i, &mut steps) {
        Some(row) => Some((row.version(), row.offset())),
        None => None,
    }
}

fn row(rows: &RadixList<Row>, i: u64) -> Option<(u64, u64)> {
    told::<Brand>(rows, i, Blank::new(1))
}

// The rows up to a published version.
fn rows_at<R: Abort>(rt: &R, blob: &Blob, version: u64) -> RadixList<Row> {
    let latest = blob.window().snapshot();
    assert!(rt; version <= latest.version(), "not published");
    let snapshot = latest.at(version).expect(rt, "memory");
    snapshot.into_rows()
}

// Checks the rows of two updates, of the first four bytes and of the two after them.
fn check_two_rows<R: Abort>(rt: &R, rows: &RadixList<Row>) {
    assert!(rt; rows.len() == 2);
    let told = [row(rows, 0), row(rows, 1), row(rows, 2)];
    assert!(rt; told == [Some((1, 0)), Some((2, 4)), None]);
}

#[test]
fn a_snapshot_hands_out_the_rows_up_to_its_version(rt: HostRuntime) {
    let blob = written(&rt, &[(0, 4), (4, 2), (1, 3)]);
    check_two_rows(&rt, &rows_at(&rt, &blob, 2));
    let all = rows_at(&rt, &blob, 3);
    assert!(rt; all.len() == 3 && row(&all, 2) == Some((3, 1)));
}
