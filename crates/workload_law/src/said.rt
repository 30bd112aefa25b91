// The lines in which a load is told.
ghost use Rattle.std.specs.Prelude.{◌≡◌, ◌++◌, ◌∷◌, [], IfOk};
ghost use Rattle.std.specs.String.{string_bytes};
ghost use Rattle.workload_law.specs.Said.{plan_text, log_text, grid_text, said};

use crate::plan::{LoadPlan, Summary};
use std::alloc::{AllocError, Global};

// What was asked for.
fn plan_line(alloc: Global, plan: &LoadPlan) -> Result<String, AllocError>
    ensures { IfOk result (λ line. string_bytes line ≡ plan_text plan.now ++ 10 ∷ []) }
{
    let LoadPlan { seed, workers, ops } = *plan;
    format!(in alloc; "load workers {workers} ops {ops} seed {seed}\n")
}

// What is told of the log.
fn log_line(alloc: Global, summary: &Summary) -> Result<String, AllocError>
    ensures { IfOk result (λ line. string_bytes line ≡ log_text summary.now ++ 10 ∷ []) }
{
    let size = summary.log_size;
    let versions = summary.log_versions;
    let in_order = summary.in_order;
    format!(in alloc; "log size {size} versions {versions} in-order {in_order}\n")
}

// What is told of the grid.
fn grid_line(alloc: Global, summary: &Summary) -> Result<String, AllocError>
    ensures { IfOk result (λ line. string_bytes line ≡ grid_text summary.now ++ 10 ∷ []) }
{
    let size = summary.grid_size;
    let versions = summary.grid_versions;
    let sum = summary.grid_sum;
    format!(in alloc; "grid size {size} versions {versions} sum {sum}\n")
}

/// The three lines of a load: its plan, its log and its grid, each with its end.
pub fn load_lines(alloc: Global, plan: &LoadPlan, summary: &Summary) -> Result<String, AllocError>
    ensures { IfOk result (λ text. string_bytes text ≡ said plan.now summary.now) }
{
    let mut text = plan_line(alloc, plan)?;
    text.push_str(log_line(alloc, summary)?.as_str())?;
    text.push_str(grid_line(alloc, summary)?.as_str())?;
    Ok(text)
}
