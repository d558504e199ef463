// The whole cluster at one moment.
ghost use Rattle.std.specs.Prelude.{◌≡◌};
ghost use Rattle.std.specs.Option.{option_copied, option_map};
ghost use Rattle.master_core.specs.declared.master.Master.{Master};
ghost use Rattle.cluster_core.specs.World.{home_at, master_at};

use crate::shared_name::SharedName;
use back_node::BackNode;
use link_msg::LinkMsg;
use link_queue::{Broken, Links};
use mark_history::Mark;
use mur_base::{Bytes, Items, Map, NodeName};
use node_disk::NodeDisk;
use node_record::Table;
use node_step::NodeState;

/// A client: the node that it connected to, and all bytes that it was given.
#[derive(Drop)]
pub struct Client {
    pub at: SharedName,
    pub given: Bytes,
}

/// The disks of nodes, by their names.
pub type Disks = Map<NodeName, NodeDisk>;

/// The cluster: its nodes, their disks, what is on its way between them, its clients, and what its steps did.
#[derive(Drop)]
pub struct World {
    /// The nodes, by their names.
    pub nodes: Map<NodeName, NodeState>,
    /// The disks of the master and the backends.
    pub disks: Disks,
    /// The clients, by the numbers of their connections.
    pub clients: Map<u64, Client>,
    /// The links that are broken.
    pub broken: Broken,
    /// The messages on their way.
    pub links: Links<LinkMsg>,
    /// The steps that count as points, in order.
    pub marks: Items<Mark>,
    /// How many steps were taken, and so the number of the last one.
    pub steps: u64,
}

impl World {
    /// The backend of a name, if there is one.
    #[tactic(auto, unfolding(node_step::specs::NodeStep::as_back))]
    pub fn home(&self, node: &NodeName) -> Option<&BackNode>
        ensures { option_copied result ≡ home_at self.now node.now }
    {
        match self.nodes.get(node) {
            Some(it) => it.as_back(),
            None => None,
        }
    }

    /// The table of the master of a name, if there is one.
    #[tactic(auto, unfolding(node_step::specs::NodeStep::as_master))]
    pub fn table(&self, node: &NodeName) -> Option<&Table>
        ensures { option_copied result ≡ option_map (λ (master : Master). master.table) (master_at self.now node.now) }
    {
        match self.nodes.get(node) {
            Some(NodeState::Master(master)) => Some(&master.table),
            Some(NodeState::Front(_) | NodeState::Back(_)) | None => None,
        }
    }
}
