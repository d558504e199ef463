// A backend and its step.
ghost use Rattle.std.specs.Prelude.{◌≡◌, nat_eq, IfOk};
ghost use Rattle.std.specs.Cmp.Lexicographic.{pointwise};
ghost use Rattle.std.specs.List.{AllByRecursion};
ghost use Rattle.std.specs.Option.{IfSome};
ghost use Rattle.node_record.specs.Held.{EntryLeavesNext};
ghost use Rattle.back_node.specs.Acted.{acted, listed_entry};
ghost use Rattle.back_node.specs.Node.{is_my_master, new_node};
ghost use Rattle.back_node.specs.Takes.{taken_up};

use crate::rest::{Rest, Says};
use backend_core::{BackPlan, Backend, Entries};
use link_msg::{LinkMsg, Outs};
use mur_base::{Location, Memory, NodeName};
use name_flows::Flows;
use node_record::{BackendRecord, copied_place};
use std::alloc::Global;

/// A backend.
#[derive(Drop)]
pub struct BackNode {
    /// Its mailboxes.
    pub home: Backend,
    /// Its talk with the master about their names.
    pub flows: Flows,
}

/// The entry of a step as a list.
#[tactic(auto, using(crate::proofs::RestNext::next_as_list))]
fn listed_entry(alloc: Global, entry: Option<BackendRecord>) -> Result<Entries, Memory>
    requires { IfSome entry EntryLeavesNext }
    ensures list { IfOk result (λ entries. entries ≡ listed_entry entry) }
    ensures next { IfOk result (λ entries. AllByRecursion EntryLeavesNext entries) }
{
    let mut entries = Entries::new(alloc);
    if let Some(entry) = entry {
        entries.push(entry)?;
    }
    Ok(entries)
}

impl BackNode {
    /// A backend without mailboxes, whose links are down: the first of its steps is the `Up` of the master.
    pub fn new(alloc: Global, me: Location, master: NodeName) -> Result<BackNode, Memory>
        ensures { IfOk result (λ node. node ≡ new_node me master) }
    {
        let place = copied_place(alloc, &me)?;
        Ok(BackNode {
            home: Backend::boot(alloc, place),
            flows: Flows::new(alloc, me, master),
        })
    }

    /// Whether a node is the master.
    pub fn is_my_master(&self, node: &NodeName) -> bool
        ensures { result ≡ is_my_master self.now node.now }
    {
        *node == self.flows.master
    }

    /// Takes a message of a node, up to the entry of the step, which isn't carried out yet. For want of memory the backend is spent.
    #[tactic(auto, unfolding(crate::specs::Takes::taken_up))]
    pub fn plan(&mut self, alloc: Global, from: NodeName, message: LinkMsg) -> Result<Rest, Memory>
        ensures step { IfOk result (λ rest. record { node = self.new; rest = rest } ≡ taken_up self.old from message) }
        ensures next { IfOk result (λ rest. IfSome rest.entry EntryLeavesNext) }
    {
        match message {
            LinkMsg::Up if self.is_my_master(&from) => self.link_up(alloc),
            LinkMsg::End if self.is_my_master(&from) => self.link_ended(alloc),
            LinkMsg::Line(line) if self.is_my_master(&from) => self.line_comes(alloc, &line),
            LinkMsg::Ask(ask) => self.ask_comes(alloc, from, ask),
            _ => Ok(Rest::nothing(alloc)),
        }
    }

    /// Carries the entry of a step out, and gives what goes out. It is the one that `plan` gave, so no message has the greatest UID of 32 bits. For
    /// want of memory the backend is spent.
    pub fn settle(&mut self, alloc: Global, it: Rest) -> Result<Outs, Memory>
        requires { IfSome it.entry EntryLeavesNext }
        ensures { IfOk result (λ outs. record { state = self.new; entry = it.entry; outs = outs } ≡ acted self.old it) }
    {
        let Rest { entry, says } = it;
        let entries = listed_entry(alloc, entry)?;
        match says {
            Says::Owed(owed) => self.home.settle(alloc, BackPlan { entries, owed }),
            Says::Now(outs) => {
                let owed = None;
                self.home.settle(alloc, BackPlan { entries, owed })?;
                Ok(outs)
            }
        }
    }
}
