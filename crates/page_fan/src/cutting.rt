// A buffer is cut into pages.
ghost use Rattle.std.specs.Prelude.{◌≡◌, ◌<◌, ◌≤◌, length, take, drop};

use page_store::MAX_PAGE;

// The page that begins at byte `at` of the buffer: as many bytes as the page size, or what is left.
pub(crate) fn page_bytes(buffer: &[u8], at: usize, page_size: usize) -> &[u8]
    requires within { at < length buffer.now }
    requires least { 1 ≤ page_size }
    requires greatest { page_size ≤ MAX_PAGE }
    ensures bytes { result.now ≡ take page_size (drop at buffer.now) }
    ensures some { 1 ≤ length result.now }
    ensures small { length result.now ≤ MAX_PAGE }
{
    let rest = &buffer[at..];
    &rest[..page_size.min(rest.len())]
}
