// New stores, by settings.
ghost use Rattle.std.specs.Prelude.{◌≡◌, IfOk};
ghost use Rattle.blobseer_run.specs.Store.{IsNewStore};

use blob_model::Limits;
use client_session::{Owner, Shared};
use request_form::NoMemory;
use settings::Settings;
use std::alloc::Global;
use tree_geom::PageSize;

/// The page size of these settings.
pub(crate) fn page_size(settings: &Settings) -> PageSize
    ensures { result ≡ settings.now.page }
{
    match PageSize::new(settings.page) {
        Some(p) => p,
        None => unreachable!(),
    }
}

/// A new store of these settings, but for its limits, which are told, and the owner of its passes. Each command that works with a
/// store makes it here.
pub(crate) fn new_store(
    alloc: Global,
    settings: &Settings,
    limits: Limits,
) -> Result<(Shared, Owner), NoMemory>
    ensures { IfOk result (λ store. IsNewStore settings.now limits store.0 store.1) }
{
    Shared::new(
        alloc,
        limits,
        page_size(settings),
        settings.providers,
        settings.replicas,
    )
}
