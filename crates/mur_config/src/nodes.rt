// The nodes of a cluster.
ghost use Rattle.std.specs.Prelude.{◌≡◌, ◌++◌, IfSome, IfOk, OnOk};
ghost use Rattle.std.specs.Option.{option_copied};
ghost use Rattle.std.specs.List.{list_any, list_all};
ghost use Rattle.mur_config.specs.Nodes.{nodes_fault, has_valid_name, node_names_differ, is_node_named, is_of_kind, is_node_of_kind, count_of_kind};
ghost use Rattle.mur_config.specs.Nodes.{is_some_within, has_node_counts, fits_kind, has_partition, node_named, links_from, links_of};
ghost use Rattle.mur_config.specs.Nodes.{AreTakenAsNodes, AreNodes};

use crate::node::{Kind, Links, Node};
use mur_base::limits::{BACKEND_LIMIT, FRONTEND_LIMIT};
use mur_base::{Items, Memory, NameRule, NodeRule};
use std::alloc::Global;
use std::marker::Model;
use thiserror::Error;

/// The first rule that a list of nodes breaks, in this order.
#[derive(Clone, Copy, Debug, PartialEq, Eq, Error)]
pub enum NodesFault {
    /// No list has this fault, since each `NodeName` keeps the rules: the test makes them known of the whole list.
    #[error("a node's name has another form than it needs")]
    BadName,
    #[error("two nodes have one name")]
    NameTwice,
    #[error("there isn't one master, or there are no or too many frontends or backends")]
    NodeCount,
    #[error("a backend's partition has no name, or another node has one")]
    BadPartition,
}

/// The nodes of a cluster, in the configuration's order: one master, 1 to `FRONTEND_LIMIT` frontends and 1 to
/// `BACKEND_LIMIT` backends, each under a valid name of its own.
#[derive(Drop)]
pub struct Nodes {
    nodes: Items<Node>,
}

impl Model for Nodes {
    ghost use Rattle.std.specs.Prelude.{◌≡◌, List, None};
    ghost use Rattle.mur_config.specs.declared.node.Node.{Node};
    ghost use Rattle.mur_config.specs.Nodes.{nodes_fault};

    ghost Value = { List Node };

    ghost view = { λ list. list.nodes };

    ghost invariant = { λ list. nodes_fault list.nodes ≡ None };
}

impl Nodes {
    /// The nodes of a list, which isn't copied. Each name is compared with each later one.
    #[tactic(auto, unfolding(crate::specs::Nodes::nodes_fault))]
    pub fn new(nodes: Items<Node>) -> Result<Nodes, NodesFault>
        ensures { AreTakenAsNodes nodes result }
    {
        if !have_valid_names(nodes.as_slice()) {
            Err(NodesFault::BadName)
        } else if !node_names_differ(nodes.as_slice()) {
            Err(NodesFault::NameTwice)
        } else if !has_node_counts(nodes.as_slice()) {
            Err(NodesFault::NodeCount)
        } else if !have_partitions(nodes.as_slice()) {
            Err(NodesFault::BadPartition)
        } else {
            Ok(Nodes { nodes })
        }
    }

    /// The nodes in the configuration's order.
    pub fn as_slice(&self) -> &[Node]
        ensures nodes { result.now ≡ self.now }
        ensures kept { AreNodes self.now }
    {
        self.nodes.as_slice()
    }

    /// The node of a name, if there is one.
    #[tactic(auto, unfolding(crate::specs::Nodes::node_named))]
    pub fn named(&self, name: &[u8]) -> Option<&Node>
        ensures node { option_copied result ≡ node_named name.now self.now }
        ensures named { IfSome result (λ node. node.now.name ≡ name.now) }
    {
        for node in self.as_slice() {
            if node.is_named(name) {
                return Some(node);
            }
        }
        None
    }

    /// Each two linked nodes in both directions, by the place of the first and then of the second in the configuration.
    #[tactic(auto, unfolding(crate::specs::Nodes::links_of, crate::specs::Nodes::links_between))]
    pub fn links(&self, alloc: Global) -> Result<Links, Memory>
        ensures { IfOk result (λ links. links ≡ links_of self.now) }
    {
        let mut links = Items::new(alloc);
        for from in self.as_slice() {
            put_links(alloc, from, self.as_slice(), &mut links)?;
        }
        Ok(links)
    }
}

/// Puts the links from one node to others at the end; for want of memory the links are spent.
#[tactic(auto, unfolding(crate::specs::Nodes::links_from))]
fn put_links(alloc: Global, from: &Node, nodes: &[Node], links: &mut Links) -> Result<(), Memory>
    ensures { OnOk result (links.new ≡ links.old ++ links_from from.now nodes.now) }
{
    for to in nodes {
        if from.is_linked_with(to) {
            links.push(from.link_to(alloc, to)?)?;
        }
    }
    Ok(())
}

fn have_valid_names(nodes: &[Node]) -> bool
    ensures { result ≡ list_all has_valid_name nodes.now }
{
    nodes.iter().all(|node| has_valid_name(node))
}

#[tactic(auto, unfolding(crate::specs::Nodes::has_valid_name))]
fn has_valid_name(node: &Node) -> bool
    ensures { result ≡ has_valid_name node.now }
{
    NodeRule::fault_of(node.name.as_bytes()).is_none()
}

#[tactic(auto, unfolding(crate::specs::Nodes::node_names_differ))]
fn node_names_differ(nodes: &[Node]) -> bool
    ensures { result ≡ node_names_differ nodes.now }
{
    let mut left = nodes;
    while let [node, later @ ..] = left {
        if has_name(later, node.name.as_bytes()) {
            return false;
        }
        left = later;
    }
    true
}

fn has_name(nodes: &[Node], name: &[u8]) -> bool
    ensures { result ≡ list_any (is_node_named name.now) nodes.now }
{
    nodes.iter().any(|node| node.is_named(name))
}

#[tactic(auto, unfolding(crate::specs::Nodes::has_node_counts))]
fn has_node_counts(nodes: &[Node]) -> bool
    ensures { result ≡ has_node_counts nodes.now }
{
    count_of_kind(nodes, Kind::Master) == 1
        && is_some_within(FRONTEND_LIMIT, count_of_kind(nodes, Kind::Frontend))
        && is_some_within(BACKEND_LIMIT, count_of_kind(nodes, Kind::Backend))
}

#[tactic(auto, unfolding(crate::specs::Nodes::is_some_within))]
pub fn is_some_within(limit: usize, count: usize) -> bool
    ensures { result ≡ is_some_within limit count }
{
    0 < count && count <= limit
}

#[tactic(auto, unfolding(crate::specs::Nodes::count_of_kind))]
fn count_of_kind(nodes: &[Node], kind: Kind) -> usize
    ensures { result ≡ count_of_kind kind nodes.now }
{
    nodes
        .iter()
        .filter(|node| is_node_of_kind(node, kind))
        .count()
}

#[tactic(auto, unfolding(crate::specs::Nodes::is_node_of_kind, crate::specs::Nodes::is_of_kind))]
fn is_node_of_kind(node: &Node, kind: Kind) -> bool
    ensures { result ≡ is_node_of_kind kind node.now }
{
    node.kind == kind
}

fn have_partitions(nodes: &[Node]) -> bool
    ensures { result ≡ list_all has_partition nodes.now }
{
    nodes.iter().all(|node| has_partition(node))
}

#[tactic(auto, unfolding(crate::specs::Nodes::has_partition))]
fn has_partition(node: &Node) -> bool
    ensures { result ≡ has_partition node.now }
{
    fits_kind(node.kind, node.partition.as_slice())
}

/// Whether a backend has the name of a partition, and another node none.
#[tactic(auto, unfolding(crate::specs::Nodes::fits_kind))]
pub fn fits_kind(kind: Kind, partition: &[u8]) -> bool
    ensures { result ≡ fits_kind kind partition.now }
{
    match kind {
        Kind::Backend => NodeRule::fault_of(partition).is_none(),
        Kind::Master | Kind::Frontend => partition.is_empty(),
    }
}
