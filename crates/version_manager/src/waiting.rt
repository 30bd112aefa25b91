// What a desk keeps of an update that waits.

use page_store::Pages;
use publisher::Window;
use std::sync::Arc;

/// An update that is numbered and not published: who made it, the byte at which it begins, and its stored pages.
#[derive(Drop)]
pub(crate) struct WaitingUpdate {
    pub(crate) caller: u32,
    pub(crate) at: u64,
    pub(crate) pages: Arc<Pages>,
}

/// The window of a blob.
pub(crate) type BlobWindow = Window<WaitingUpdate>;
