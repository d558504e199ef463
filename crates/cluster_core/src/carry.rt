// Carrying out what a node lets out.
ghost use Rattle.std.specs.Prelude.{◌≡◌, OnOk};
ghost use Rattle.cluster_core.specs.World.{carry, carry_all, carry_or_lose, given_more, marked, client_at, is_lost, not_lost};

use crate::world::World;
use link_msg::{Out, Outs};
use link_queue::{is_broken, send};
use mark_history::{Mark, MarkKind};
use mur_base::{AskId, Bytes, Memory, NodeName};
use std::alloc::Global;

/// Carries out what a node lets out in this step, in order; a message that is sent on a broken link is lost. For want of memory the world is
/// spent.
pub fn carry_out(
    alloc: Global,
    world: &mut World,
    node: &NodeName,
    outs: Outs,
) -> Result<(), Memory>
    ensures { OnOk result (world.new ≡ carry_all node.now world.old (not_lost world.old.broken node.now outs)) }
{
    for out in outs.into_vec() {
        carry_or_lose(alloc, world, node, out)?;
    }
    Ok(())
}

fn carry_or_lose(alloc: Global, world: &mut World, node: &NodeName, out: Out) -> Result<(), Memory>
    ensures { OnOk result (world.new ≡ carry_or_lose node.now world.old out) }
{
    if world.loses(node, &out) {
        return Ok(());
    }
    carry(alloc, world, node, out)
}

impl World {
    #[tactic(auto, unfolding(crate::specs::World::is_lost))]
    fn loses(&self, node: &NodeName, out: &Out) -> bool
        ensures { result ≡ is_lost self.now.broken node.now out.now }
    {
        match out {
            Out::Link(other, _) => is_broken(&self.broken, node, other),
            Out::Client(_, _) | Out::Close(_) | Out::Mark(_, _) | Out::Told(_, _) => false,
        }
    }
}

// A connection that closes needs nothing here: its node gives its client nothing more.
#[tactic(auto, unfolding(crate::specs::World::carry))]
fn carry(alloc: Global, world: &mut World, node: &NodeName, out: Out) -> Result<(), Memory>
    ensures { OnOk result (world.new ≡ carry node.now world.old out) }
{
    match out {
        Out::Client(conn, bytes) => give(world, conn, &bytes),
        Out::Close(_conn) => Ok(()),
        Out::Link(other, message) => send(alloc, &mut world.links, node, other, message),
        Out::Mark(ask, counts) => mark(world, ask, MarkKind::Home(counts)),
        Out::Told(ask, how) => mark(world, ask, MarkKind::Told(how)),
    }
}

fn mark(world: &mut World, ask: AskId, kind: MarkKind) -> Result<(), Memory>
    ensures { OnOk result (world.new ≡ marked world.old ask kind) }
{
    let step = world.steps;
    world.marks.push(Mark { step, ask, kind })
}

#[tactic(auto, unfolding(crate::specs::World::given_more))]
fn give(world: &mut World, conn: u64, bytes: &Bytes) -> Result<(), Memory>
    ensures { OnOk result (world.new ≡ given_more world.old conn bytes.now (client_at world.old conn)) }
{
    match world.clients.get_mut(&conn) {
        Some(client) => client.given.extend_from_slice(bytes.as_slice()),
        None => Ok(()),
    }
}
