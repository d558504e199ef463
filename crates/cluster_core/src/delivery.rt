// A delivery: the first message of a link comes to the node at its end.
ghost use Rattle.std.specs.Prelude.{◌≡◌, OnOk};
ghost use Rattle.cluster_core.specs.Room.{HasRoom};
ghost use Rattle.cluster_core.specs.World.{steps_by};
ghost use Rattle.schedule_text.specs.declared.event.Event.TheVariants.{Deliver};

use crate::coming::comes;
use crate::world::World;
use link_queue::take_first;
use mur_base::{Copied, Memory, NodeName};
use node_step::NodeInput;
use std::alloc::Global;

/// The first message from one node to another is taken, if there is one. For want of memory the world is spent.
#[tactic(auto, unfolding(crate::specs::World::takes, crate::specs::World::deliver_first))]
pub fn deliver(
    alloc: Global,
    world: &mut World,
    from: &NodeName,
    to: &NodeName,
) -> Result<(), Memory>
    requires { HasRoom world.old (Deliver from.now to.now) }
    ensures { OnOk result (world.new ≡ steps_by world.old (Deliver from.now to.now)) }
{
    world.steps += 1;
    match take_first(&mut world.links, from, to) {
        Some(message) => {
            let sender = from.copy(alloc)?;
            comes(alloc, world, to, NodeInput::From(sender, message))
        }
        None => Ok(()),
    }
}
