// What each event does.
ghost use Rattle.std.specs.Prelude.{◌≡◌, ◌+◌, ◌<◌, ◌≤◌, ◌^◌, length, OnOk, IfSome};
ghost use Rattle.schedule_text.specs.Brings.{most_links};
ghost use Rattle.schedule_text.specs.declared.event.Event.TheVariants.{Open, Data, Hang};
ghost use Rattle.node_step.specs.Room.{HasRoomToTake};
ghost use Rattle.cluster_core.specs.Room.{HasRoom};
ghost use Rattle.cluster_core.specs.World.{client_at, client_does, node_at, steps_by};
ghost use Rattle.cluster_core.specs.Flow.{happens};

use crate::breaks::{cut, join};
use crate::coming::comes;
use crate::delivery::deliver;
use crate::flow::flow;
use crate::heal::heal;
use crate::layout::Layout;
use crate::world::{Client, World};
use mur_base::{Bytes, Memory, NodeName};
use node_step::NodeInput;
use schedule_text::Event;
use std::alloc::Global;

/// Carries an event out; one of disks or of a crash is a step that changes nothing else. For want of memory the world is spent.
#[tactic(auto, unfolding(crate::specs::Flow::happens, crate::specs::World::takes))]
pub fn happens(
    alloc: Global,
    layout: &Layout,
    world: &mut World,
    event: Event,
) -> Result<(), Memory>
    requires room { HasRoom world.old event }
    requires links { length layout.now.pairs ≤ most_links }
    ensures { OnOk result (world.new ≡ happens layout.now world.old event) }
{
    match event {
        Event::Flow(count) => flow(alloc, layout, world, count),
        Event::Open(node, conn) => open(alloc, layout, world, node, conn),
        Event::Data(conn, bytes) => data(alloc, world, conn, bytes),
        Event::Hang(conn) => hang(alloc, world, conn),
        Event::Deliver(from, to) => deliver(alloc, world, &from, &to),
        Event::Cut(one, other, kept, kept_back) => cut(alloc, world, &one, &other, kept, kept_back),
        Event::Join(one, other) => join(alloc, world, &one, &other),
        Event::Heal => heal(alloc, layout, world),
        Event::Crash(..) | Event::Arm(..) | Event::Start(_) => {
            world.steps += 1;
            Ok(())
        }
    }
}

/// A connection is opened at a node, unless there is one of its number.
#[tactic(auto, unfolding(crate::specs::World::takes, crate::specs::World::opens))]
fn open(
    alloc: Global,
    layout: &Layout,
    world: &mut World,
    node: NodeName,
    conn: u64,
) -> Result<(), Memory>
    requires { world.old.steps + 1 < 2 ^ 64 }
    ensures { OnOk result (world.new ≡ steps_by world.old (Open node conn)) }
{
    world.steps += 1;
    if world.clients.contains_key(&conn) {
        return Ok(());
    }
    let client = Client {
        at: layout.shared_name(alloc, &node)?,
        given: Bytes::new(alloc),
    };
    world.clients.insert(conn, client)?;
    comes(alloc, world, &node, NodeInput::Opened(conn))
}

/// Bytes come from the client of a connection.
#[tactic(auto, unfolding(crate::specs::World::takes))]
fn data(alloc: Global, world: &mut World, conn: u64, bytes: Bytes) -> Result<(), Memory>
    requires { HasRoom world.old (Data conn bytes) }
    ensures { OnOk result (world.new ≡ steps_by world.old (Data conn bytes)) }
{
    world.steps += 1;
    client_does(alloc, world, conn, NodeInput::Piece(conn, bytes))
}

/// The client of a connection closes it.
#[tactic(auto, unfolding(crate::specs::World::takes))]
fn hang(alloc: Global, world: &mut World, conn: u64) -> Result<(), Memory>
    requires { world.old.steps + 1 < 2 ^ 64 }
    ensures { OnOk result (world.new ≡ steps_by world.old (Hang conn)) }
{
    world.steps += 1;
    client_does(alloc, world, conn, NodeInput::Hung(conn))
}

/// What a client does comes to the node to which it is connected.
#[tactic(auto, unfolding(crate::specs::World::client_does))]
fn client_does(alloc: Global, world: &mut World, conn: u64, input: NodeInput) -> Result<(), Memory>
    requires { IfSome (client_at world.old conn) (λ client. IfSome (node_at world.old client.at) (λ it. HasRoomToTake it input)) }
    ensures { OnOk result (world.new ≡ client_does world.old input (client_at world.old conn)) }
{
    match world.clients.get(&conn) {
        Some(client) => {
            let node = client.at.share()?;
            comes(alloc, world, node.get(), input)
        }
        None => Ok(()),
    }
}
