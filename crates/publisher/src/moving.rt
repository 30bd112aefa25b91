// How the published version moves on over finished updates.
ghost use Rattle.std.specs.Prelude.{◌≡◌, ◌++◌, [], ◌∷◌, map, IfOk, IfErr};
ghost use Rattle.std.specs.Arc.{arc_value};
ghost use Rattle.std.specs.Bool.{OnFalse};
ghost use Rattle.snapshot.specs.Versions.{next_version};
ghost use Rattle.publisher.specs.Windows.{leading};
ghost use Rattle.publisher.specs.WindowInvariant.{Ready, row_in};

use crate::slot::Slot;
use node_store::{NoMemory, Row};
use snapshot::{Snapshot, laws};
use std::sync::Arc;

/// The version after that one and after the rows of these slots that stand next above it, none of which is missing. The row itself
/// goes into it, where none waits next above. Where memory is refused, the row comes back.
pub(crate) fn moved_on<U>(
    base: &Snapshot,
    row: Arc<Row>,
    above: &[Slot<U>],
) -> Result<Snapshot, Arc<Row>>
    requires { Ready base.now.page_size (base.now.rows ++ arc_value row ∷ leading (map row_in above.now)) }
    ensures blob { IfOk result (λ s. s.blob ≡ base.now.blob) }
    ensures page_size { IfOk result (λ s. s.page_size ≡ base.now.page_size) }
    ensures rows { IfOk result (λ s. s.rows ≡ base.now.rows ++ arc_value row ∷ leading (map row_in above.now)) }
    ensures same { IfErr result (λ back. back ≡ row) }
{
    if !leads(above) {
        return with_next(base, row);
    }
    match moved_past(base, &row, above) {
        Ok(snapshot) => Ok(snapshot),
        Err(NoMemory) => Err(row),
    }
}

// Whether the first of these slots has its row.
fn leads<U>(above: &[Slot<U>]) -> bool
    ensures { OnFalse result (leading (map row_in above.now) ≡ []) }
{
    if above.is_empty() {
        return false;
    }
    above[0].row.is_some()
}

// The version after that one and after all rows that lead.
fn moved_past<U>(base: &Snapshot, row: &Arc<Row>, above: &[Slot<U>]) -> Result<Snapshot, NoMemory>
    requires { Ready base.now.page_size (base.now.rows ++ arc_value row.now ∷ leading (map row_in above.now)) }
    ensures blob { IfOk result (λ s. s.blob ≡ base.now.blob) }
    ensures page_size { IfOk result (λ s. s.page_size ≡ base.now.page_size) }
    ensures rows { IfOk result (λ s. s.rows ≡ base.now.rows ++ arc_value row.now ∷ leading (map row_in above.now)) }
{
    let mut snapshot = with_shared(base, row)?;
    for slot in above {
        match &slot.row {
            Some(row) => snapshot = with_shared(&snapshot, row)?,
            None => return Ok(snapshot),
        }
    }
    Ok(snapshot)
}

// The version after that one, whose row this is.
fn with_shared(snapshot: &Snapshot, row: &Arc<Row>) -> Result<Snapshot, NoMemory>
    requires { Ready snapshot.now.page_size (snapshot.now.rows ++ arc_value row.now ∷ []) }
    ensures { IfOk result (λ s. s ≡ next_version snapshot.now (arc_value row.now)) }
{
    match with_next(snapshot, Arc::try_clone(row)?) {
        Ok(next) => Ok(next),
        Err(_) => Err(NoMemory),
    }
}

// The same with the row itself, which comes back where memory is refused.
fn with_next(snapshot: &Snapshot, row: Arc<Row>) -> Result<Snapshot, Arc<Row>>
    requires { Ready snapshot.now.page_size (snapshot.now.rows ++ arc_value row ∷ []) }
    ensures ok { IfOk result (λ s. s ≡ next_version snapshot.now (arc_value row)) }
    ensures err { IfErr result (λ back. back ≡ row) }
{
    laws::rows_tell();
    snapshot.stands();
    snapshot.with_row(row)
}
