// A frontend asks for something.
ghost use Rattle.std.specs.Prelude.{◌≡◌, IfOk};
ghost use Rattle.backend_core.specs.Plan.{back_plan};
ghost use Rattle.name_flows.specs.Asked.{asked_step};
ghost use Rattle.back_node.specs.Takes.{ask_by, name_ask, name_kind, only_entry, serves, talks};

use crate::node::BackNode;
use crate::rest::{Rest, Says};
use crate::talk::rest_of;
use backend_core::Entries;
use link_msg::{FrontAsk, Op};
use mur_base::{Memory, NodeName};
use name_flows::{AskKind, NameAsk};
use node_record::BackendRecord;
use std::alloc::Global;

/// What is asked of a name, if it is no ask for messages.
fn name_kind(op: &Op) -> Option<AskKind>
    ensures { result ≡ name_kind op.now }
{
    match op {
        Op::Create => Some(AskKind::Create),
        Op::Delete => Some(AskKind::Delete),
        _ => None,
    }
}

/// The entry of an ask for messages.
fn only_entry(entries: Entries) -> Option<BackendRecord>
    ensures { result ≡ only_entry entries }
{
    entries.into_vec().into_iter().next()
}

impl BackNode {
    /// CREATE or DELETE.
    fn name_ask_comes(&mut self, alloc: Global, ask: NameAsk) -> Result<Rest, Memory>
        ensures { IfOk result (λ rest. record { node = self.new; rest = rest } ≡ talks self.old (asked_step self.old.flows self.old.home.held ask)) }
    {
        let step = self.flows.asked(alloc, &self.home.held, ask)?;
        rest_of(alloc, &self.flows.master, step)
    }

    /// An ask for messages.
    fn serve(&self, alloc: Global, from: NodeName, ask: FrontAsk) -> Result<Rest, Memory>
        ensures { IfOk result (λ rest. record { node = self.now; rest = rest } ≡ serves self.now (back_plan self.now.home from ask)) }
    {
        let plan = self.home.plan(alloc, from, ask)?;
        Ok(Rest {
            entry: only_entry(plan.entries),
            says: Says::Owed(plan.owed),
        })
    }

    /// An ask of a frontend.
    pub fn ask_comes(
        &mut self,
        alloc: Global,
        from: NodeName,
        ask: FrontAsk,
    ) -> Result<Rest, Memory>
        ensures { IfOk result (λ rest. record { node = self.new; rest = rest } ≡ ask_by self.old from ask (name_kind ask.op)) }
    {
        let Some(kind) = name_kind(&ask.op) else {
            return self.serve(alloc, from, ask);
        };
        let asked = NameAsk {
            front: from,
            id: ask.id,
            name: ask.name,
            kind,
        };
        self.name_ask_comes(alloc, asked)
    }
}
