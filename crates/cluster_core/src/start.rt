// The cluster before its first event.
ghost use Rattle.std.specs.Prelude.{◌≡◌, ◌<◌, length, IfOk, OnOk};
ghost use Rattle.front_core.specs.Front.{new_front};
ghost use Rattle.imap_command.specs.Ruled.{IsDate};
ghost use Rattle.node_step.specs.declared.node.NodeState.TheVariants as state;
ghost use Rattle.cluster_core.specs.World.{start, layout_of, first_name, home_of, master_of, setting_of, first_state, told_up, with_disk, with_node, with_nodes, with_ups};

use crate::coming::comes;
use crate::layout::Layout;
use crate::world::{Disks, World};
use back_node::BackNode;
use front_core::Front;
use link_msg::LinkMsg;
use master_core::Master;
use mur_base::{Copied, Items, Location, Map, Memory, NodeName};
use mur_config::{Config, Kind, Link, Node};
use mur_model::Setting;
use node_disk::NodeDisk;
use node_step::{NodeInput, NodeState};
use std::alloc::Global;

/// The date of a configuration is one, which its type keeps. The call does nothing.
#[tactic(auto, using(mail_fetch::proofs::PartLaws::dated))]
pub fn dated(config: &Config)
    ensures { IsDate config.now.date }
{
    let _text = config.date.as_bytes();
}

/// Every node as it begins, with its links whole and up: no connection, nothing on its way, nothing on a disk.
#[tactic(auto, unfolding(crate::specs::World::start))]
pub fn start(alloc: Global, config: &Config, layout: &Layout) -> Result<World, Memory>
    requires { layout.now ≡ layout_of config.now }
    ensures { IfOk result (λ world. world ≡ start config.now) }
{
    let nodes = config.nodes.as_slice();
    let mut world = World {
        nodes: Map::new(alloc),
        disks: Map::new(alloc),
        clients: Map::new(alloc),
        broken: Map::new(alloc),
        links: Map::new(alloc),
        marks: Items::new(alloc),
        steps: 0,
    };
    add_nodes(alloc, config, layout, &mut world, nodes)?;
    links_up(alloc, &mut world, layout.pairs.as_slice())?;
    Ok(world)
}

/// Each node is told that each link to it is up, which is no step. For want of memory the world is spent.
#[tactic(auto, unfolding(crate::specs::World::with_ups))]
fn links_up(alloc: Global, world: &mut World, links: &[Link]) -> Result<(), Memory>
    ensures { OnOk result (world.new ≡ with_ups world.old links.now) }
{
    for link in links {
        link_up(alloc, world, link)?;
    }
    Ok(())
}

fn link_up(alloc: Global, world: &mut World, link: &Link) -> Result<(), Memory>
    ensures { OnOk result (world.new ≡ told_up world.old link.now) }
{
    let sender = link.from.copy(alloc)?;
    comes(alloc, world, &link.to, NodeInput::From(sender, LinkMsg::Up))
}

fn first_name(alloc: Global, names: &Items<NodeName>) -> Result<NodeName, Memory>
    requires { 0 < length names.now }
    ensures { IfOk result (λ name. name ≡ first_name names.now) }
{
    names.as_slice()[0].copy(alloc)
}

#[tactic(auto, unfolding(crate::specs::World::with_nodes))]
fn add_nodes(
    alloc: Global,
    config: &Config,
    layout: &Layout,
    world: &mut World,
    nodes: &[Node],
) -> Result<(), Memory>
    requires layout { layout.now ≡ layout_of config.now }
    requires backends { 0 < length (layout.now).backends }
    ensures { OnOk result (world.new ≡ with_nodes config.now world.old nodes.now) }
{
    for node in nodes {
        add_node(alloc, config, layout, world, node)?;
    }
    Ok(())
}

fn add_node(
    alloc: Global,
    config: &Config,
    layout: &Layout,
    world: &mut World,
    node: &Node,
) -> Result<(), Memory>
    requires layout { layout.now ≡ layout_of config.now }
    requires backends { 0 < length (layout.now).backends }
    ensures { OnOk result (world.new ≡ with_node config.now world.old node.now) }
{
    let first = first_state(alloc, config, layout, node)?;
    world.nodes.insert(node.name.copy(alloc)?, first)?;
    add_disk(alloc, &mut world.disks, node)
}

/// The disk of a node as it begins, if it has one.
#[tactic(auto, unfolding(crate::specs::World::with_disk))]
fn add_disk(alloc: Global, disks: &mut Disks, node: &Node) -> Result<(), Memory>
    ensures { OnOk result (disks.new ≡ with_disk disks.old (node.now).name (node.now).kind) }
{
    match node.kind {
        Kind::Master | Kind::Backend => {
            disks.insert(node.name.copy(alloc)?, NodeDisk::new(alloc)?)?;
            Ok(())
        }
        Kind::Frontend => Ok(()),
    }
}

/// A node as it begins.
#[tactic(auto, unfolding(crate::specs::World::first_state))]
fn first_state(
    alloc: Global,
    config: &Config,
    layout: &Layout,
    node: &Node,
) -> Result<NodeState, Memory>
    requires layout { layout.now ≡ layout_of config.now }
    requires backends { 0 < length (layout.now).backends }
    ensures { IfOk result (λ it. it ≡ first_state config.now node.now (node.now).kind) }
{
    let name = node.name.copy(alloc)?;
    match node.kind {
        Kind::Master => {
            let backends = layout.backends.copy(alloc)?;
            Ok(NodeState::Master(Master::new(alloc, name, backends)))
        }
        Kind::Frontend => first_front(alloc, config, layout, name),
        Kind::Backend => {
            let me = Location {
                server: name,
                partition: Items::from_slice(alloc, node.partition.as_slice())?,
            };
            let master = layout.master.copy(alloc)?;
            Ok(NodeState::Back(BackNode::new(alloc, me, master)?))
        }
    }
}

/// A frontend as it begins.
fn first_front(
    alloc: Global,
    config: &Config,
    layout: &Layout,
    name: NodeName,
) -> Result<NodeState, Memory>
    requires layout { layout.now ≡ layout_of config.now }
    requires backends { 0 < length (layout.now).backends }
    ensures { IfOk result (λ it. it ≡ state.Front (new_front name (home_of config.now) (master_of config.now) (setting_of config.now))) }
{
    let first = first_name(alloc, &layout.backends)?;
    let master = layout.master.copy(alloc)?;
    let setting = setting_of(alloc, config)?;
    Ok(NodeState::Front(Front::new(name, first, master, setting, alloc)))
}

fn setting_of(alloc: Global, config: &Config) -> Result<Setting, Memory>
    ensures { IfOk result (λ setting. setting ≡ setting_of config.now) }
{
    Ok(Setting {
        users: config.users.copy(alloc)?,
        date: config.date,
    })
}
