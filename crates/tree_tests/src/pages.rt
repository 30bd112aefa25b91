//! Stored pages of zeros.
ghost use Rattle.std.specs.Prelude.{◌≡◌, ◌≤◌, length};
ghost use Rattle.page_store.specs.Stored.{bytes_of_pages};

use page_store::{PageHouse, Pages, StoredPage};
use std::process::Abort;
use std::sync::Wait;
use tree_geom::PageSize;

// A page of these bytes at one provider.
fn page_of<R: Wait + Abort + AllocGlobal>(rt: &R, house: &PageHouse, bytes: &[u8]) -> StoredPage
    requires some { 1 ≤ length bytes.now }
    requires small { length bytes.now ≤ 1048576 }
    ensures { length result.bytes ≡ length bytes.now }
{
    let page = house.put(rt, bytes).expect(rt, "memory");
    StoredPage::of(rt.alloc(), page)
}

/// The pages of an update of these bytes, each at one provider.
pub fn store<R: Wait + Abort + AllocGlobal>(
    rt: &R,
    house: &PageHouse,
    p: PageSize,
    bytes: &[u8],
) -> Pages
    requires some { 1 ≤ length bytes.now }
    requires few { length bytes.now ≤ 1048576 }
    ensures page_size { result.page_size ≡ p }
    ensures some { 1 ≤ length (bytes_of_pages result.pages) }
{
    let size = p.bytes() as usize;
    let full = (bytes.len() - 1) / size;
    let mut pages = Pages::start(rt.alloc(), p.bytes(), full as u32 + 1).expect(rt, "memory");
    for i in 0..full {
        pages.add(page_of(rt, house, &bytes[i * size..i * size + size]));
    }
    pages.add(page_of(rt, house, &bytes[full * size..]));
    assert!(rt; pages.len() > 0, "no bytes");
    pages
}
