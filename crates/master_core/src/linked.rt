// What a message of a node does at the master.
ghost use Rattle.std.specs.Prelude.{◌≡◌, nat_eq, IfOk};
ghost use Rattle.std.specs.List.{list_any};
ghost use Rattle.std.specs.Cmp.Lexicographic.{pointwise};
ghost use Rattle.master_core.specs.Linked.{node_entry, node_says, sender_of};

use crate::master::Master;
use crate::plan::MasterPlan;
use crate::sender::Sender;
use link_msg::LinkMsg;
use mur_base::{Memory, NodeName};
use std::alloc::Global;

/// Whether the name is among these.
fn is_among(names: &[NodeName], node: &NodeName) -> bool
    ensures { result ≡ list_any (pointwise nat_eq node.now) names.now }
{
    names.iter().any(|name| *node == *name)
}

impl Master {
    /// Who a node of this name is.
    fn sender_of(&self, node: NodeName) -> Sender
        ensures { result ≡ sender_of self.now node }
    {
        if is_among(self.backends.as_slice(), &node) {
            Sender::Backend(node)
        } else {
            Sender::Frontend(node)
        }
    }

    /// Takes a message of a node: a line of MUPDATE is carried out (RFC 3656, 4), and where the link ends, so does the node's stream. No
    /// other message means anything here. The entry goes to the disk, and then `settle` hands the outputs out. For want of memory the master is
    /// spent.
    #[tactic(auto, unfolding(crate::specs::Linked::node_says))]
    pub fn node_says(
        &mut self,
        alloc: Global,
        node: NodeName,
        message: LinkMsg,
    ) -> Result<MasterPlan, Memory>
        ensures step { IfOk result (λ plan. record { master = self.new; outs = plan.out } ≡ node_says self.old node message) }
        ensures entry { IfOk result (λ plan. plan.entry ≡ node_entry self.old node message) }
    {
        let sender = self.sender_of(node);
        match message {
            LinkMsg::Line(bytes) => self.plan(alloc, &sender, bytes.as_slice()),
            LinkMsg::End => {
                self.ended(&sender);
                Ok(MasterPlan::nothing(alloc))
            }
            LinkMsg::Up | LinkMsg::Ask(_) | LinkMsg::Answer(_) => Ok(MasterPlan::nothing(alloc)),
        }
    }
}
