// The link with the master comes up, and ends.
ghost use Rattle.std.specs.Prelude.{◌≡◌, ◌++◌, map, IfOk, OnOk};
ghost use Rattle.name_flows.specs.Link.{broken_body, broken_answer, broken_answer_in, unreached_answer, waiting_in, end_step};
ghost use Rattle.name_flows.specs.Running.{new_flows};
ghost use Rattle.name_flows.specs.Steps.{answering};

use crate::ask::{Answers, NameAsk, Told};
use crate::flow::{Flow, Stage};
use crate::flows::{Flows, answer_to};
use crate::resync::Resync;
use link_msg::AnswerBody;
use mur_base::{Copied, MailName, Map, Memory, NodeName, Queue};
use std::alloc::Global;
use std::mem;

/// What a flow's client is told: where the line by which the master makes or deletes the mailbox was sent, what became of it can't be known.
fn broken_body(alloc: Global, master: &NodeName, stage: Stage) -> Result<AnswerBody, Memory>
    ensures { IfOk result (λ body. body ≡ broken_body master.now stage) }
{
    match stage {
        Stage::Making | Stage::Deleting => Ok(AnswerBody::Lost),
        Stage::Reserving | Stage::Deactivating => Ok(AnswerBody::Unreached(master.copy(alloc)?)),
    }
}

/// The answer to a flow's frontend.
fn broken_answer(alloc: Global, master: &NodeName, flow: &Flow) -> Result<Told, Memory>
    ensures { IfOk result (λ it. it ≡ broken_answer master.now flow.now) }
{
    let body = broken_body(alloc, master, flow.stage)?;
    Ok(answer_to(flow.front.copy(alloc)?, flow.ask, body))
}

/// The answer to an ask that waited.
fn unreached_answer(alloc: Global, master: &NodeName, ask: NameAsk) -> Result<Told, Memory>
    ensures { IfOk result (λ it. it ≡ unreached_answer master.now ask) }
{
    let body = AnswerBody::Unreached(master.copy(alloc)?);
    Ok(answer_to(ask.front, ask.id, body))
}

/// Puts the answers to the flows' frontends behind others.
fn put_broken(
    alloc: Global,
    master: &NodeName,
    running: &Map<MailName, Flow>,
    answers: &mut Answers,
) -> Result<(), Memory>
    ensures { OnOk result (answers.new ≡ answers.old ++ map (broken_answer_in master.now) running.now) }
{
    for (_name, flow) in running.iter() {
        answers.push(broken_answer(alloc, master, flow)?)?;
    }
    Ok(())
}

/// Puts the answers to asks that waited behind others.
fn put_unreached(
    alloc: Global,
    master: &NodeName,
    waiting: Queue<NameAsk>,
    answers: &mut Answers,
) -> Result<(), Memory>
    ensures { OnOk result (answers.new ≡ answers.old ++ map (unreached_answer master.now) waiting) }
{
    let mut waiting = waiting;
    while let Some(ask) = waiting.pop() {
        answers.push(unreached_answer(alloc, master, ask)?)?;
    }
    Ok(())
}

/// What was asked during a resync, if one runs.
pub fn waiting_in(alloc: Global, resync: Option<Resync>) -> Queue<NameAsk>
    ensures { result ≡ waiting_in resync }
{
    match resync {
        Some(it) => it.waiting,
        None => Queue::new(alloc),
    }
}

impl Flows {
    /// Begins anew, with the link down.
    fn reset(&mut self, alloc: Global)
        ensures { self.new ≡ new_flows self.old.me self.old.master }
    {
        self.up = false;
        self.running = Map::new(alloc);
        self.sent.clear();
        self.found = false;
        self.resync = None;
    }

    /// The link with the master ended: the flows and the resync end, and so does what waited for it. For want of memory the state is spent.
    pub fn link_ended(&mut self, alloc: Global) -> Result<Answers, Memory>
        ensures { IfOk result (λ answers. answering self.new answers ≡ end_step self.old) }
    {
        let mut answers = Answers::new(alloc);
        put_broken(alloc, &self.master, &self.running, &mut answers)?;
        let waiting = waiting_in(alloc, mem::replace(&mut self.resync, None));
        put_unreached(alloc, &self.master, waiting, &mut answers)?;
        self.reset(alloc);
        Ok(answers)
    }
}
