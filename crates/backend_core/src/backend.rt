// A backend: a home of mailboxes.
ghost use Rattle.std.specs.Prelude.{◌≡◌, IfOk, OnOk};
ghost use Rattle.std.specs.List.{AllByRecursion};
ghost use Rattle.std.specs.Option.{option_copied, option_map};
ghost use Rattle.node_record.specs.declared.held.Held.{Held};
ghost use Rattle.node_record.specs.Held.{EntryLeavesNext};
ghost use Rattle.backend_core.specs.HomeStep.{held_at};
ghost use Rattle.backend_core.specs.OpPlan.{home_after};
ghost use Rattle.backend_core.specs.Plan.{back_plan, booted, owed_outs, owes, settles};

use crate::op_plan::{Entries, OpPlan};
use crate::plan::{BackPlan, Owed};
use crate::response::Response;
use crate::step::serve;
use link_msg::{BackAnswer, FrontAsk, LinkMsg, Out, Outs};
use mur_base::{Location, MailName, Map, Memory, NodeName, Phase};
use node_record::{Held, apply_backend};
use std::alloc::Global;

/// A backend.
#[derive(Drop)]
pub struct Backend {
    /// Where it keeps its mailboxes.
    pub me: Location,
    /// What it has of each name.
    pub held: Map<MailName, Held>,
}

impl Backend {
    /// A backend without mailboxes. It takes no memory.
    pub fn boot(alloc: Global, me: Location) -> Backend
        ensures { result ≡ booted me }
    {
        Backend {
            me,
            held: Map::new(alloc),
        }
    }

    /// What the step for a frontend's ask writes, and the answer that it owes. Nothing is changed, and no body is copied but one that is read.
    pub fn plan(&self, alloc: Global, from: NodeName, ask: FrontAsk) -> Result<BackPlan, Memory>
        ensures plan { IfOk result (λ plan. plan ≡ back_plan self.now from ask) }
        ensures next { IfOk result (λ plan. AllByRecursion EntryLeavesNext plan.entries) }
    {
        let id = ask.id;
        match serve(alloc, self, ask)? {
            Some(OpPlan { entries, telling }) => Ok(BackPlan {
                entries,
                owed: Some(Owed {
                    to: from,
                    id,
                    telling,
                }),
            }),
            None => Ok(BackPlan {
                entries: Entries::new(alloc),
                owed: None,
            }),
        }
    }

    /// Carries the entries of a step out, and hands its outputs out. They are those that `plan` gave, so no message has the greatest UID of 32 bits.
    /// For want of memory the backend is spent.
    pub fn settle(&mut self, alloc: Global, plan: BackPlan) -> Result<Outs, Memory>
        requires { AllByRecursion EntryLeavesNext plan.entries }
        ensures home { OnOk result (self.new ≡ (settles self.old plan).home) }
        ensures outs { IfOk result (λ outs. outs ≡ (settles self.old plan).outs) }
    {
        carry_out(alloc, self, plan.entries)?;
        owed_outs(alloc, self, plan.owed)
    }

    /// What a name is to this backend, if it knows of it. It takes no memory.
    pub fn phase(&self, name: &MailName) -> Option<&Phase>
        ensures { option_copied result ≡ option_map (λ (held : Held). held.phase) (held_at self.now name.now) }
    {
        match self.held.get(name) {
            Some(held) => Some(&held.phase),
            None => None,
        }
    }
}

fn carry_out(alloc: Global, home: &mut Backend, entries: Entries) -> Result<(), Memory>
    requires { AllByRecursion EntryLeavesNext entries }
    ensures { OnOk result (home.new ≡ home_after home.old entries) }
{
    for entry in entries.into_vec() {
        apply_backend(alloc, &mut home.held, entry)?;
    }
    Ok(())
}

#[tactic(auto, unfolding(crate::specs::Plan::answer_outs))]
fn owed_outs(alloc: Global, home: &Backend, owed: Option<Owed>) -> Result<Outs, Memory>
    ensures { IfOk result (λ outs. outs ≡ owed_outs home.now owed) }
{
    let mut outs = Outs::new(alloc);
    if let Some(Owed { to, id, telling }) = owed {
        let Response { body, counts } = telling.by(alloc, home)?;
        outs.push(Out::Link(to, LinkMsg::Answer(BackAnswer { id, body })))?;
        outs.push(Out::Mark(id, counts))?;
    }
    Ok(outs)
}
