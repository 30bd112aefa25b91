// The lines in which a watch is told.
ghost use Rattle.std.specs.Prelude.{◌≡◌, ◌++◌, ◌∷◌, [], IfOk};
ghost use Rattle.std.specs.String.{string_bytes};
ghost use Rattle.workload_law.specs.WatchSaid.{plan_text, blob_text, said};

use crate::watch_plan::{WatchPlan, WatchSummary};
use std::alloc::{AllocError, Global};

// What was asked for.
fn plan_line(alloc: Global, plan: &WatchPlan) -> Result<String, AllocError>
    ensures { IfOk result (λ line. string_bytes line ≡ plan_text plan.now ++ 10 ∷ []) }
{
    let WatchPlan { seed, readers, ops } = *plan;
    format!(in alloc; "watch readers {readers} ops {ops} seed {seed}\n")
}

// What is told of the blob.
fn blob_line(alloc: Global, summary: &WatchSummary) -> Result<String, AllocError>
    ensures { IfOk result (λ line. string_bytes line ≡ blob_text summary.now ++ 10 ∷ []) }
{
    let size = summary.size;
    let versions = summary.versions;
    let agree = summary.agree;
    format!(in alloc; "blob size {size} versions {versions} agree {agree}\n")
}

/// The two lines of a watch: its plan and its blob, each with its end.
pub fn watch_lines(
    alloc: Global,
    plan: &WatchPlan,
    summary: &WatchSummary,
) -> Result<String, AllocError>
    ensures { IfOk result (λ text. string_bytes text ≡ said plan.now summary.now) }
{
    let mut text = plan_line(alloc, plan)?;
    text.push_str(blob_line(alloc, summary)?.as_str())?;
    Ok(text)
}
