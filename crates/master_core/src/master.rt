// The master of the Murder.
ghost use Rattle.std.specs.Prelude.{◌≡◌, IfOk};
ghost use Rattle.master_core.specs.Step.{line_step};

use crate::outside::Outside;
use crate::plan::MasterPlan;
use crate::sender::Sender;
use link_msg::Outs;
use mupdate_codec::Tag;
use mur_base::{Items, Map, Memory, NodeName};
use node_record::Table;
use std::alloc::Global;

/// The master: the table of all mailboxes, and who is told of its changes.
#[derive(Drop)]
pub struct Master {
    /// The name of this node.
    pub me: NodeName,
    /// The names of the nodes that are backends. Every other node is a frontend.
    pub backends: Items<NodeName>,
    /// The table that the entries of its disk make.
    pub table: Table,
    /// The nodes that have sent UPDATE, with its tag.
    pub streams: Map<NodeName, Tag>,
    /// The outside connections that have sent UPDATE, with its tag.
    pub watchers: Map<u64, Tag>,
    /// The outside connections.
    pub outside: Map<u64, Outside>,
}

impl Master {
    /// Carries a line out in memory. Its entry goes to the disk, and then `settle` hands its outputs out. A change costs its look-up,
    /// and a line a stream. For want of memory the master is spent.
    pub fn plan(&mut self, alloc: Global, from: &Sender, line: &[u8]) -> Result<MasterPlan, Memory>
        ensures { IfOk result (λ plan. record { master = self.new; entry = plan.entry; outs = plan.out } ≡ line_step self.old from.now line.now) }
    {
        let mut out = Outs::new(alloc);
        let entry = self.line_comes(alloc, from, line, &mut out)?;
        Ok(MasterPlan { entry, out })
    }

    /// Hands out the outputs of a step. It takes no memory.
    pub fn settle(&mut self, plan: MasterPlan) -> Outs
        ensures outs { result ≡ plan.out }
        ensures same { self.new ≡ self.old }
    {
        plan.out
    }
}
