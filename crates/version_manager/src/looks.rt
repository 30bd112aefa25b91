// Looks at one blob, over its window alone. What a clause says of a blob holds of each one that the window keeps.
ghost use Rattle.std.specs.Prelude.{◌≡◌, ℕ, List, [], ◌∷◌, length, ◌<◌, ◌≤◌, Some, IfOk, IfErr, IfNone};
ghost use Rattle.blob_model.specs.Content.{size_of};
ghost use Rattle.blob_model.specs.Limits.{Bounds};
ghost use Rattle.blob_model.specs.Store.{Store, Blob, blob_at, held};
ghost use Rattle.blob_model.specs.Answer.{answer, first_refusal, unless_refused, not_published, not_numbered, already, pending};
ghost use Rattle.blob_model.specs.declared.call.Outcome.TheVariants as Outcomes;
ghost use Rattle.publisher.specs.Windows.{published_of, version_of};
ghost use Rattle.snapshot.specs.Laws.{TellUpdates};
ghost use Rattle.snapshot.specs.Versions.{older_version, size_now};
ghost use Rattle.version_manager.specs.Desks.{unopened_size};
ghost use Rattle.version_manager.specs.DeskInvariant.{Keeps};
ghost use Rattle.version_manager.specs.Looks.{look_call};

use crate::fault::OpenFault;
use crate::look::Look;
use crate::waiting::BlobWindow;
use blob_model::{Outcome, Refusal};
use publisher::NoMemory;
use snapshot::Snapshot;

// Why a look at that version is refused, if it is: it isn't published.
fn unpublished(window: &BlobWindow, version: u64) -> Option<Refusal>
    ensures refusal { (limits : Bounds) (b : Blob) → Keeps limits window.now.numbered b → result ≡ first_refusal (not_published b version ∷ []) }
    ensures published { IfNone result (version ≤ published_of window.now.numbered) }
{
    let published = window.published();
    if version > published {
        Some(Refusal::NotPublished { version, published })
    } else {
        None
    }
}

/// Why that version can't be finished now, if so, nor have a ticket: it was never numbered, or it is finished.
pub(crate) fn unfinishable(window: &BlobWindow, version: u64) -> Option<Refusal>
    ensures refusal { (limits : Bounds) (b : Blob) → Keeps limits window.now.numbered b → result ≡ first_refusal (not_numbered b version ∷ already b version ∷ []) }
    ensures waits { IfNone result ((published_of window.now.numbered < version) × (version ≤ length window.now.numbered.log)) }
{
    let published = window.published();
    if window.assigned() < version {
        Some(Refusal::NotPublished { version, published })
    } else if version == 0 || window.is_finished(version) {
        Some(Refusal::Already { version })
    } else {
        None
    }
}

// The least unfinished version, or 0 where nothing waits.
fn held_by(window: &BlobWindow) -> u64
    ensures { (limits : Bounds) (b : Blob) → Keeps limits window.now.numbered b → result ≡ held b }
{
    let published = window.published();
    if published == window.assigned() {
        0
    } else {
        published + 1
    }
}

// Why a sync of that version is refused, if it is: it was never numbered, or it waits.
fn unsynced(window: &BlobWindow, version: u64) -> Option<Refusal>
    ensures { (limits : Bounds) (b : Blob) → Keeps limits window.now.numbered b → result ≡ first_refusal (not_numbered b version ∷ pending b version ∷ []) }
{
    let published = window.published();
    if version > window.assigned() {
        Some(Refusal::NotPublished { version, published })
    } else if version > published {
        Some(Refusal::Pending {
            version,
            held: held_by(window),
        })
    } else {
        None
    }
}

/// What the store answers to a look at the blob that this is the window of.
pub(crate) fn look_in(window: &BlobWindow, look: Look) -> Outcome
    ensures { (limits : Bounds) (s : Store) (caller blob : ℕ) (b : Blob) → blob_at s blob ≡ Some b → Keeps limits window.now.numbered b
        → result ≡ (answer s caller (look_call look blob)).1 }
{
    window.stands();
    match look {
        Look::Recent => {
            let snapshot = window.snapshot();
            Outcome::Recent {
                version: snapshot.version(),
                size: snapshot.size(),
            }
        }
        Look::Size { version } => match unpublished(window, version) {
            Some(refusal) => Outcome::Refused(refusal),
            None => Outcome::Size(window.snapshot().size_at(version)),
        },
        Look::Sync { version } => match unsynced(window, version) {
            Some(refusal) => Outcome::Refused(refusal),
            None => Outcome::Synced(version),
        },
        Look::Status => Outcome::Status {
            assigned: window.assigned(),
            published: window.published(),
            held: held_by(window),
        },
    }
}

/// The snapshot of a published version. Where memory is refused it tells the version's size.
pub(crate) fn snapshot_in(window: &BlobWindow, version: u64) -> Result<Snapshot, OpenFault>
    ensures size { (limits : Bounds) (s : Store) (b : Blob) → Keeps limits window.now.numbered b
        → IfOk result (λ x. (unless_refused s (not_published b version ∷ []) (s, Outcomes.Size (size_of b.updates version))).1 ≡ Outcomes.Size (size_now x)) }
    ensures not_opened { (limits : Bounds) (s : Store) (b : Blob) → Keeps limits window.now.numbered b
        → IfErr result (λ fault. (unless_refused s (not_published b version ∷ []) (s, Outcomes.Size (size_of b.updates version))).1 ≡ unopened_size fault) }
    ensures this { IfOk result (λ x. x ≡ older_version (version_of window.now.numbered) version) }
    ensures version { IfOk result (λ x. length x.rows ≡ version) }
    ensures tells { (limits : Bounds) (b : Blob) → Keeps limits window.now.numbered b → IfOk result (λ x. TellUpdates window.now.numbered.page_size b.updates x.rows) }
{
    window.stands();
    if let Some(refusal) = unpublished(window, version) {
        return Err(OpenFault::Refused(refusal));
    }
    match window.snapshot_at(version) {
        Ok(snapshot) => Ok(snapshot),
        Err(NoMemory) => Err(OpenFault::NoMemory {
            size: window.snapshot().size_at(version),
        }),
    }
}
