// A flow: deliveries in rounds over the links.
ghost use Rattle.std.specs.Prelude.{◌≡◌, [], OnOk};
ghost use Rattle.schedule_text.specs.declared.event.Event.TheVariants.{Flow};
ghost use Rattle.cluster_core.specs.Room.{HasRoom};
ghost use Rattle.cluster_core.specs.Flow.{flow, round, turn_of_link};

use crate::delivery::deliver;
use crate::layout::Layout;
use crate::world::World;
use link_queue::is_empty;
use mur_base::Memory;
use mur_config::Link;
use std::alloc::Global;

/// Makes so many deliveries, or fewer where nothing is on its way any more. For want of memory the world is spent.
#[tactic(auto, unfolding(crate::specs::Flow::flow))]
pub fn flow(alloc: Global, layout: &Layout, world: &mut World, count: u64) -> Result<(), Memory>
    requires { HasRoom world.old (Flow count) }
    ensures { OnOk result (world.new ≡ (flow layout.now world.old count).world) }
{
    let pairs = layout.pairs.as_slice();
    let mut left = count;
    for _round in 0..count {
        let before = left;
        round(alloc, world, pairs, &mut left)?;
        if left == before {
            return Ok(());
        }
    }
    Ok(())
}

#[tactic(auto, unfolding(crate::specs::Flow::round))]
fn round(alloc: Global, world: &mut World, links: &[Link], left: &mut u64) -> Result<(), Memory>
    requires { HasRoom world.old (Flow left.old) }
    ensures world { OnOk result ((round (record { world = world.old; made = []; left = left.old }) links.now).world ≡ world.new) }
    ensures left { OnOk result ((round (record { world = world.old; made = []; left = left.old }) links.now).left ≡ left.new) }
    ensures room { OnOk result (HasRoom world.new (Flow left.new)) }
{
    for link in links {
        turn(alloc, world, link, left)?;
    }
    Ok(())
}

#[tactic(auto, unfolding(crate::specs::Flow::turn_of_link, crate::specs::Flow::turn_by))]
fn turn(alloc: Global, world: &mut World, link: &Link, left: &mut u64) -> Result<(), Memory>
    requires { HasRoom world.old (Flow left.old) }
    ensures world { OnOk result ((turn_of_link (record { world = world.old; made = []; left = left.old }) link.now).world ≡ world.new) }
    ensures left { OnOk result ((turn_of_link (record { world = world.old; made = []; left = left.old }) link.now).left ≡ left.new) }
    ensures room { OnOk result (HasRoom world.new (Flow left.new)) }
{
    if *left == 0 || is_empty(&world.links, &link.from, &link.to) {
        return Ok(());
    }
    *left -= 1;
    deliver(alloc, world, &link.from, &link.to)
}
