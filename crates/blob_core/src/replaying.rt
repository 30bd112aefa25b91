// The world of a list of steps.
ghost use Rattle.std.specs.Prelude.{◌≡◌, ℕ, IfOk, IfErr};
ghost use Rattle.blob_core.specs.World.{empty_world};
ghost use Rattle.blob_core.specs.Steps.{AllAllowed, world_after};
ghost use Rattle.blob_core.specs.Acts.{IsFirstRefused};
ghost use Rattle.blob_core.specs.declared.replaying.ReplayFault.TheVariants.{NotPossible};

use crate::state::ActFault;
use crate::step::Step;
use crate::world::World;
use blob_model::Limits;
use std::alloc::Global;
use thiserror::Error;
use tree_geom::PageSize;

/// Why there is no world of some steps.
#[derive(Clone, Copy, PartialEq, Eq, Debug, Error)]
pub enum ReplayFault {
    /// The step of that number, from 1, isn't allowed, and those before it are.
    #[error("step {0} is not allowed")]
    NotPossible(usize),
    /// There was no memory for the world.
    #[error("no memory for the world")]
    NoMemory,
}

/// The world that the steps lead to from the empty one, in order.
///
/// Ok exactly where each step is allowed in the world of the steps before it, and `NotPossible` exactly where one isn't; want of
/// memory may come in place of either. An update of 2^32 pages or more wants too much memory. The time is about that of the
/// steps times all that the world holds: this is the model that the program is compared to, and no part of it.
pub fn replay(
    alloc: Global,
    limits: Limits,
    p: PageSize,
    steps: &[Step],
) -> Result<World, ReplayFault>
    ensures allowed { IfOk result (λ _. AllAllowed p (empty_world limits) steps.now) }
    ensures page { IfOk result (λ w. w.page ≡ p) }
    ensures world { IfOk result (λ w. w.world ≡ world_after p (empty_world limits) steps.now) }
    ensures refused { IfErr result (λ e. (i : ℕ) → e ≡ NotPossible i → IsFirstRefused p (empty_world limits) steps.now i) }
{
    let mut world = World::empty(alloc, limits, p);
    for (i, step) in steps.iter().enumerate() {
        match world.act(alloc, step) {
            Ok(()) => {}
            Err(ActFault::NotAllowed) => return Err(ReplayFault::NotPossible(i + 1)),
            Err(ActFault::NoMemory) => return Err(ReplayFault::NoMemory),
        }
    }
    Ok(world)
}
