// How the nodes are linked, which no step changes.
ghost use Rattle.std.specs.Prelude.{◌≡◌, ◌≤◌, map, IfOk};
ghost use Rattle.mur_config.specs.declared.node.Kind.TheVariants.{Master};
ghost use Rattle.mur_config.specs.Nodes.{AreNodes, count_of_kind};
ghost use Rattle.cluster_core.specs.World.{backends_of, layout_of, master_among};

use crate::shared_name::SharedName;
use mur_base::{Copied, Items, Memory, NodeName};
use mur_config::{Config, Kind, Links, Node};
use std::alloc::Global;

/// What a run of the cluster reads beside its world.
#[derive(Drop)]
pub struct Layout {
    /// The master.
    pub master: NodeName,
    /// The directed pairs of linked nodes in the order in which a flow goes over them.
    pub pairs: Links,
    /// The backends in the configuration's order.
    pub backends: Items<NodeName>,
    /// The names of all nodes, which their clients share.
    pub names: Items<SharedName>,
}

impl Layout {
    /// The layout of a configuration.
    pub fn new(alloc: Global, config: &Config) -> Result<Layout, Memory>
        ensures layout { IfOk result (λ layout. layout ≡ layout_of config.now) }
        ensures nodes { AreNodes config.now.nodes }
    {
        let nodes = config.nodes.as_slice();
        Ok(Layout {
            master: master_of(alloc, nodes)?,
            pairs: config.nodes.links(alloc)?,
            backends: backends_of(alloc, nodes)?,
            names: names_of(alloc, nodes)?,
        })
    }

    /// The name of a node. It takes no memory where the node is one of the configuration.
    pub fn shared_name(&self, alloc: Global, node: &NodeName) -> Result<SharedName, Memory>
        ensures { IfOk result (λ name. name ≡ node.now) }
    {
        for name in self.names.as_slice() {
            if *name.get() == *node {
                let name = name.share()?;
                return Ok(name);
            }
        }
        let name = SharedName::new(alloc, node.copy(alloc)?)?;
        Ok(name)
    }
}

/// The name of the master.
#[tactic(auto, unfolding(crate::specs::World::master_among, crate::specs::World::or_master))]
fn master_of(alloc: Global, nodes: &[Node]) -> Result<NodeName, Memory>
    requires { 1 ≤ count_of_kind Master nodes.now }
    ensures { IfOk result (λ name. name ≡ master_among nodes.now) }
{
    for node in nodes {
        if node.kind == Kind::Master {
            return node.name.copy(alloc);
        }
    }
    unreachable!()
}

#[tactic(auto, unfolding(crate::specs::World::backends_of, crate::specs::World::or_backend))]
fn backends_of(alloc: Global, nodes: &[Node]) -> Result<Items<NodeName>, Memory>
    ensures { IfOk result (λ names. names ≡ backends_of nodes.now) }
{
    let mut names = Items::new(alloc);
    for node in nodes {
        if node.kind == Kind::Backend {
            names.push(node.name.copy(alloc)?)?;
        }
    }
    Ok(names)
}

fn names_of(alloc: Global, nodes: &[Node]) -> Result<Items<SharedName>, Memory>
    ensures { IfOk result (λ names. names ≡ map (λ node. node.name) nodes.now) }
{
    let mut names = Items::new(alloc);
    for node in nodes {
        names.push(SharedName::new(alloc, node.name.copy(alloc)?)?)?;
    }
    Ok(names)
}
