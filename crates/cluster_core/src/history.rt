// The history of a run.
ghost use Rattle.std.specs.Prelude.{◌≡◌, IfOk};
ghost use Rattle.cluster_core.specs.History.{history_of};

use crate::world::World;
use mark_history::{Points, points_of};
use mur_base::Memory;
use std::alloc::Global;

/// The steps that count as points so far, in order.
#[tactic(auto, unfolding(crate::specs::History::history_of))]
pub fn history(alloc: Global, world: &World) -> Result<Points, Memory>
    ensures { IfOk result (λ points. points ≡ history_of world.now) }
{
    points_of(alloc, world.marks.as_slice())
}
