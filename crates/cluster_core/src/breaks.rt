// A link breaks, and comes up.
ghost use Rattle.std.specs.Prelude.{◌≡◌, ◌+◌, ◌<◌, ◌^◌, OnOk};
ghost use Rattle.std.specs.Option.{option_copied};
ghost use Rattle.cluster_core.specs.World.{are_parted, cuts_if, joins_if, may_cut, may_join, may_part, steps_by, with_cut, with_join};
ghost use Rattle.schedule_text.specs.declared.event.Event.TheVariants.{Cut, Join};

use crate::world::World;
use link_msg::LinkMsg;
use link_queue::{break_off, cut_short, is_broken, is_empty, mend, send};
use mur_base::{Copied, Memory, NodeName};
use node_step::NodeState;
use std::alloc::Global;

/// The link of two nodes breaks, unless it is broken or joins the master with a backend: of each direction so many messages stay, and End comes behind them. For want
/// of memory the world is spent.
#[tactic(auto, unfolding(crate::specs::World::takes, crate::specs::World::cuts_if))]
pub fn cut(
    alloc: Global,
    world: &mut World,
    one: &NodeName,
    other: &NodeName,
    kept: u64,
    kept_back: u64,
) -> Result<(), Memory>
    requires { world.old.steps + 1 < 2 ^ 64 }
    ensures { OnOk result (world.new ≡ steps_by world.old (Cut one.now other.now kept kept_back)) }
{
    world.steps += 1;
    if !world.may_cut(one, other) {
        return Ok(());
    }
    cut_short(alloc, &mut world.links, one, other, kept, LinkMsg::End)?;
    cut_short(alloc, &mut world.links, other, one, kept_back, LinkMsg::End)?;
    break_off(alloc, &mut world.broken, one, other)?;
    break_off(alloc, &mut world.broken, other, one)
}

/// A broken link comes up, if both nodes took their End: each is sent Up. For want of memory the world is spent.
#[tactic(auto, unfolding(crate::specs::World::takes, crate::specs::World::joins_if))]
pub fn join(
    alloc: Global,
    world: &mut World,
    one: &NodeName,
    other: &NodeName,
) -> Result<(), Memory>
    requires { world.old.steps + 1 < 2 ^ 64 }
    ensures { OnOk result (world.new ≡ steps_by world.old (Join one.now other.now)) }
{
    world.steps += 1;
    if !world.may_join(one, other) {
        return Ok(());
    }
    send(
        alloc,
        &mut world.links,
        one,
        other.copy(alloc)?,
        LinkMsg::Up,
    )?;
    send(
        alloc,
        &mut world.links,
        other,
        one.copy(alloc)?,
        LinkMsg::Up,
    )?;
    mend(alloc, &mut world.broken, one, other)?;
    mend(alloc, &mut world.broken, other, one)
}

impl World {
    /// Whether the link of two nodes may break.
    #[tactic(auto, unfolding(crate::specs::World::may_cut, crate::specs::World::may_part))]
    fn may_cut(&self, one: &NodeName, other: &NodeName) -> bool
        ensures { result ≡ may_cut self.now one.now other.now }
    {
        match (self.nodes.get(one), self.nodes.get(other)) {
            (Some(from), Some(to)) => {
                are_parted(from, to)
                    && !one.cmp(other).is_eq()
                    && !is_broken(&self.broken, one, other)
            }
            _ => false,
        }
    }

    /// Whether the link of two nodes may come up.
    #[tactic(auto, unfolding(crate::specs::World::may_join, crate::specs::World::is_nothing))]
    pub(crate) fn may_join(&self, one: &NodeName, other: &NodeName) -> bool
        ensures { result ≡ may_join self.now one.now other.now }
    {
        is_broken(&self.broken, one, other)
            && is_empty(&self.links, one, other)
            && is_empty(&self.links, other, one)
    }
}

/// Whether a link joins such nodes that may break.
#[tactic(auto, unfolding(crate::specs::World::are_parted))]
fn are_parted(one: &NodeState, other: &NodeState) -> bool
    ensures { result ≡ are_parted one.now other.now }
{
    match (one, other) {
        (NodeState::Front(_), NodeState::Back(_) | NodeState::Master(_))
        | (NodeState::Back(_), NodeState::Front(_) | NodeState::Back(_))
        | (NodeState::Master(_), NodeState::Front(_)) => true,
        _ => false,
    }
}
