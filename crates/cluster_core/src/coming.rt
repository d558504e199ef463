// Something comes to a node.
ghost use Rattle.std.specs.Prelude.{◌≡◌, OnOk, IfSome};
ghost use Rattle.std.specs.Ordering.{nat_cmp};
ghost use Rattle.std.specs.Cmp.Lexicographic.{slice_cmp};
ghost use Rattle.mur_base.specs.Map.{value_at};
ghost use Rattle.node_step.specs.Room.{HasRoomToTake};
ghost use Rattle.cluster_core.specs.World.{comes, node_at, written, written_on};

use crate::carry::carry_out;
use crate::world::{Disks, World};
use mur_base::{Bytes, Memory, NodeName};
use node_step::{Effects, NodeInput};
use std::alloc::Global;

/// A node takes what comes to it, if it is there: the entry of its step is written to its disk, and then what it lets out is carried out. For want of
/// memory the world is spent.
#[tactic(auto, unfolding(crate::specs::World::comes_to))]
pub fn comes(
    alloc: Global,
    world: &mut World,
    node: &NodeName,
    input: NodeInput,
) -> Result<(), Memory>
    requires { IfSome (node_at world.old node.now) (λ it. HasRoomToTake it input) }
    ensures { OnOk result (world.new ≡ comes world.old node.now input) }
{
    match world.nodes.get_mut(node) {
        Some(it) => {
            let Effects { entry, outs } = it.takes(alloc, input)?;
            write(alloc, &mut world.disks, node, entry)?;
            carry_out(alloc, world, node, outs)
        }
        None => Ok(()),
    }
}

#[tactic(auto, unfolding(crate::specs::World::written))]
fn write(
    alloc: Global,
    disks: &mut Disks,
    node: &NodeName,
    entry: Option<Bytes>,
) -> Result<(), Memory>
    ensures { OnOk result (disks.new ≡ written disks.old node.now entry) }
{
    match entry {
        Some(entry) => write_on(alloc, disks, node, entry.as_slice()),
        None => Ok(()),
    }
}

#[tactic(auto, unfolding(crate::specs::World::written_on))]
fn write_on(alloc: Global, disks: &mut Disks, node: &NodeName, entry: &[u8]) -> Result<(), Memory>
    ensures { OnOk result (disks.new ≡ written_on disks.old node.now entry.now (value_at (slice_cmp nat_cmp) disks.old node.now)) }
{
    match disks.get_mut(node) {
        Some(disk) => disk.write(alloc, entry),
        None => Ok(()),
    }
}
