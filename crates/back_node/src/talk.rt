// The talk with the master: its link comes up and ends, and its lines come.
ghost use Rattle.std.specs.Prelude.{◌≡◌, ◌++◌, map, IfOk, OnOk};
ghost use Rattle.mupdate_codec.specs.Whole.{response_in};
ghost use Rattle.name_flows.specs.Link.{end_step};
ghost use Rattle.name_flows.specs.Listing.{up_step};
ghost use Rattle.back_node.specs.declared.rest.Says.TheVariants.{Now};
ghost use Rattle.back_node.specs.Takes.{answer_out, line_by, line_out, step_outs, talks};

use crate::node::BackNode;
use crate::rest::{Rest, Says};
use link_msg::{LinkMsg, Out, Outs};
use mupdate_codec::response_in;
use mur_base::{Bytes, Copied, Memory, NodeName};
use name_flows::{Answers, Lines, Step};
use std::alloc::Global;

/// Puts lines for the master behind other outputs.
fn put_lines(alloc: Global, master: &NodeName, lines: Lines, outs: &mut Outs) -> Result<(), Memory>
    ensures { OnOk result (outs.new ≡ outs.old ++ map (line_out master.now) lines) }
{
    for line in lines.into_vec() {
        outs.push(Out::Link(master.copy(alloc)?, LinkMsg::Line(line)))?;
    }
    Ok(())
}

/// Puts answers for frontends behind other outputs.
fn put_answers(answers: Answers, outs: &mut Outs) -> Result<(), Memory>
    ensures { OnOk result (outs.new ≡ outs.old ++ map answer_out answers) }
{
    for told in answers.into_vec() {
        outs.push(Out::Link(told.front, LinkMsg::Answer(told.answer)))?;
    }
    Ok(())
}

/// The rest of a step of the talk.
pub fn rest_of(alloc: Global, master: &NodeName, step: Step) -> Result<Rest, Memory>
    ensures { IfOk result (λ rest. rest ≡ record { entry = step.entry; says = Now (step_outs master.now step) }) }
{
    let Step {
        entry,
        lines,
        answers,
    } = step;
    let mut outs = Outs::new(alloc);
    put_lines(alloc, master, lines, &mut outs)?;
    put_answers(answers, &mut outs)?;
    Ok(Rest {
        entry,
        says: Says::Now(outs),
    })
}

impl BackNode {
    /// The link with the master is up: LIST.
    pub fn link_up(&mut self, alloc: Global) -> Result<Rest, Memory>
        ensures { IfOk result (λ rest. record { node = self.new; rest = rest } ≡ talks self.old (up_step self.old.flows)) }
    {
        let step = self.flows.link_up(alloc, &self.home.held)?;
        rest_of(alloc, &self.flows.master, step)
    }

    /// The link with the master ended: its commands are answered.
    pub fn link_ended(&mut self, alloc: Global) -> Result<Rest, Memory>
        ensures { IfOk result (λ rest. record { node = self.new; rest = rest } ≡ talks self.old (end_step self.old.flows)) }
    {
        let answers = self.flows.link_ended(alloc)?;
        let step = Step {
            entry: None,
            lines: Lines::new(alloc),
            answers,
        };
        rest_of(alloc, &self.flows.master, step)
    }

    /// A line of the master.
    pub fn line_comes(&mut self, alloc: Global, line: &Bytes) -> Result<Rest, Memory>
        ensures { IfOk result (λ rest. record { node = self.new; rest = rest } ≡ line_by self.old (response_in line.now)) }
    {
        let Some((tag, response)) = response_in(alloc, line.as_slice())? else {
            return Ok(Rest::nothing(alloc));
        };
        let step = self.flows.heard(alloc, &self.home.held, &tag, response)?;
        rest_of(alloc, &self.flows.master, step)
    }
}
