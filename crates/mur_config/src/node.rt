// A node of a cluster, and the links that join nodes.
ghost use Rattle.std.specs.Prelude.{◌≡◌, false, IfOk};
ghost use Rattle.std.specs.Bool.{OnTrue};
ghost use Rattle.mur_config.specs.Nodes.{is_node_named, are_kinds_linked, are_linked, link};

use mur_base::{Bytes, Copied, Items, Memory, NodeName};
use std::alloc::Global;

/// Where a master takes connections that names no port.
pub const MASTER_PORT: u16 = 3905;

/// Where a frontend takes connections that names no port.
pub const FRONTEND_PORT: u16 = 143;

/// The port of a backend that names none, since it takes no connections.
pub const NO_PORT: u16 = 0;

/// What a node does.
#[derive(Clone, Copy, Debug, PartialEq, Eq)]
pub enum Kind {
    /// It keeps the directory of all mailboxes.
    Master,
    /// It speaks to mail clients.
    Frontend,
    /// It keeps mailboxes.
    Backend,
}

/// A node of the cluster.
#[derive(Drop)]
pub struct Node {
    pub name: NodeName,
    pub kind: Kind,
    /// The name of a backend's partition; that of another node is empty.
    pub partition: Bytes,
    /// Where the node takes connections; `NO_PORT` for a backend that names none.
    pub port: u16,
}

/// One direction of what joins two nodes.
#[derive(Drop)]
pub struct Link {
    pub from: NodeName,
    pub to: NodeName,
}

/// Links, in order.
pub type Links = Items<Link>;

impl Node {
    /// Whether the node has this name.
    #[tactic(auto, unfolding(crate::specs::Nodes::is_node_named))]
    pub fn is_named(&self, name: &[u8]) -> bool
        ensures value { result ≡ is_node_named name.now self.now }
        ensures named { OnTrue result (self.now.name ≡ name.now) }
    {
        self.name.as_bytes() == name
    }

    /// Whether a link joins two nodes: the master and another node, a frontend and a backend, or two backends. It is so
    /// in both directions, and no node is linked with itself.
    #[tactic(auto, unfolding(crate::specs::Nodes::are_linked))]
    pub fn is_linked_with(&self, other: &Node) -> bool
        ensures value { result ≡ are_linked self.now other.now }
        ensures both_ways { are_linked other.now self.now ≡ are_linked self.now other.now }
        ensures not_itself { are_linked self.now self.now ≡ false }
    {
        are_kinds_linked(self.kind, other.kind) && !self.is_named(other.name.as_bytes())
    }

    /// The direction from this node to another one.
    pub fn link_to(&self, alloc: Global, other: &Node) -> Result<Link, Memory>
        ensures { IfOk result (λ made. made ≡ link self.now other.now) }
    {
        Ok(Link {
            from: self.name.copy(alloc)?,
            to: other.name.copy(alloc)?,
        })
    }
}

#[tactic(auto, unfolding(crate::specs::Nodes::are_kinds_linked))]
fn are_kinds_linked(one: Kind, other: Kind) -> bool
    ensures { result ≡ are_kinds_linked one other }
{
    match one {
        Kind::Frontend => other != Kind::Frontend,
        Kind::Master | Kind::Backend => true,
    }
}
