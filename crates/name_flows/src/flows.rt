// The state of a backend's talk with the master.
ghost use Rattle.std.specs.Prelude.{◌≡◌, IfOk, OnOk, is_some};
ghost use Rattle.std.specs.Option.{option_copied};
ghost use Rattle.name_flows.specs.Running.{flow_at, has_flow, is_at, goes_on, ended, answers_for, answer_to, new_flows, done, forget};
ghost use Rattle.name_flows.specs.Steps.{given, finished};

use crate::ask::{Answers, Told};
use crate::flow::{Flow, Stage};
use crate::gives::Gives;
use crate::resync::Resync;
use crate::sent::SentLine;
use link_msg::{AnswerBody, BackAnswer, Outcome};
use mail_message::{OrderedRows, Snapshot};
use mur_base::{AskId, Location, MailName, Map, Memory, NodeName, Queue};
use node_record::{BackendRecord, MailNames};
use std::alloc::Global;

/// A backend's talk with the master, beside the mailboxes that it has.
#[derive(Drop)]
pub struct Flows {
    /// Where this backend keeps its mailboxes.
    pub me: Location,
    /// The node that has the table of all mailboxes.
    pub master: NodeName,
    /// Whether the link with it is up.
    pub up: bool,
    /// The flows under way, by name.
    pub running: Map<MailName, Flow>,
    /// The lines sent whose last answer hasn't come, in their order: an answer is the first one's.
    pub sent: Queue<SentLine>,
    /// Whether a record was told in answer to the first of them.
    pub found: bool,
    /// The resync, while one runs.
    pub resync: Option<Resync>,
}

/// An answer to a frontend's command.
pub fn answer_to(front: NodeName, id: AskId, body: AnswerBody) -> Told
    ensures { result ≡ answer_to front id body }
{
    Told {
        front,
        answer: BackAnswer { id, body },
    }
}

/// The answer to a command that was carried out, or refused for good.
pub fn done(alloc: Global, outcome: Outcome) -> AnswerBody
    ensures { result ≡ done outcome }
{
    let snapshot = Snapshot {
        serial: 0,
        next: 0,
        size: 0,
        rows: OrderedRows::new(alloc),
    };
    AnswerBody::Done(outcome, snapshot)
}

/// The entry by which a mailbox is here no more.
pub fn forget(alloc: Global, name: MailName) -> Result<BackendRecord, Memory>
    ensures { IfOk result (λ entry. entry ≡ forget name) }
{
    let mut names = MailNames::new(alloc);
    names.push(name)?;
    Ok(BackendRecord::Forget(names))
}

impl Flows {
    /// Nothing is under way, and the link is down. It takes no memory.
    pub fn new(alloc: Global, me: Location, master: NodeName) -> Flows
        ensures { result ≡ new_flows me master }
    {
        Flows {
            me,
            master,
            up: false,
            running: Map::new(alloc),
            sent: Queue::new(alloc),
            found: false,
            resync: None,
        }
    }

    /// Whether a flow runs on the name.
    pub fn has_flow(&self, name: &MailName) -> bool
        ensures { result ≡ has_flow self.now name.now }
    {
        self.running.contains_key(name)
    }

    /// Whether a flow runs on the name and waits for this answer.
    pub fn is_at(&self, name: &MailName, stage: Stage) -> bool
        ensures { result ≡ is_at self.now name.now stage }
    {
        match self.running.get(name) {
            Some(flow) => flow.stage.is(stage),
            None => false,
        }
    }

    /// The flow on the name, if there is one, waits for this answer from here on.
    pub fn go_on(&mut self, name: &MailName, stage: Stage)
        ensures { self.new ≡ goes_on self.old name.now stage }
    {
        if let Some(flow) = self.running.get_mut(name) {
            flow.stage = stage;
        }
    }

    /// Ends the flow on the name, and answers its frontend.
    pub fn end(
        &mut self,
        alloc: Global,
        name: &MailName,
        body: AnswerBody,
    ) -> Result<Answers, Memory>
        ensures flows { OnOk result (self.new ≡ ended self.old name.now) }
        ensures answers { IfOk result (λ answers. answers ≡ answers_for body (flow_at self.old name.now)) }
    {
        let mut answers = Answers::new(alloc);
        if let Some(flow) = self.running.remove(name) {
            answers.push(answer_to(flow.front, flow.ask, body))?;
        }
        Ok(answers)
    }

    /// Ends the flow on the name with an answer alone.
    pub fn finish(
        &mut self,
        alloc: Global,
        name: &MailName,
        body: AnswerBody,
    ) -> Result<Gives, Memory>
        ensures { IfOk result (λ it. given self.new it ≡ finished self.old name.now body) }
    {
        let answers = self.end(alloc, name, body)?;
        Ok(Gives::answers(alloc, answers))
    }
}
