// Every link that may comes up.
ghost use Rattle.std.specs.Prelude.{◌≡◌, ◌+◌, ◌<◌, ◌≤◌, ◌^◌, [], length, OnOk};
ghost use Rattle.schedule_text.specs.Brings.{most_links};
ghost use Rattle.schedule_text.specs.declared.event.Event.TheVariants.{Heal};
ghost use Rattle.cluster_core.specs.Room.{HasRoom};
ghost use Rattle.cluster_core.specs.Flow.{heal, heal_by, heal_link, heal_links};

use crate::breaks::join;
use crate::layout::Layout;
use crate::world::World;
use mur_base::Memory;
use mur_config::Link;
use std::alloc::Global;

/// Joins each link that may come up, one after another. For want of memory the world is spent.
#[tactic(auto, unfolding(crate::specs::Flow::heal))]
pub fn heal(alloc: Global, layout: &Layout, world: &mut World) -> Result<(), Memory>
    requires room { HasRoom world.old Heal }
    requires links { length layout.now.pairs ≤ most_links }
    ensures { OnOk result (world.new ≡ (heal layout.now world.old).world) }
{
    heal_links(alloc, world, layout.pairs.as_slice())
}

#[tactic(auto, unfolding(crate::specs::Flow::heal_links))]
fn heal_links(alloc: Global, world: &mut World, links: &[Link]) -> Result<(), Memory>
    requires { world.old.steps + length links.now < 2 ^ 64 }
    ensures { OnOk result (world.new ≡ (heal_links (record { world = world.old; made = [] }) links.now).world) }
{
    for link in links {
        heal_link(alloc, world, link)?;
    }
    Ok(())
}

#[tactic(auto, unfolding(crate::specs::Flow::heal_link, crate::specs::Flow::heal_by))]
fn heal_link(alloc: Global, world: &mut World, link: &Link) -> Result<(), Memory>
    requires { world.old.steps + 1 < 2 ^ 64 }
    ensures world { OnOk result (world.new ≡ (heal_link (record { world = world.old; made = [] }) link.now).world) }
    ensures steps { OnOk result (world.new.steps ≤ world.old.steps + 1) }
{
    if world.may_join(&link.from, &link.to) {
        join(alloc, world, &link.from, &link.to)
    } else {
        Ok(())
    }
}
