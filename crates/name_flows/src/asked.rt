// A CREATE or DELETE comes from a frontend.
ghost use Rattle.std.specs.Prelude.{◌≡◌, IfOk, OnOk};
ghost use Rattle.name_flows.specs.Asked.{first_stage, first_line, create_refusal, delete_refusal, delete_refusal_in, refusal, begun_flow, begun_line, tested, asked_step};
ghost use Rattle.name_flows.specs.Steps.{given, handed};

use crate::ask::{AskKind, NameAsk};
use crate::flow::{Flow, Stage};
use crate::flows::{Flows, answer_to};
use crate::gives::{Gives, Step, asked_line};
use crate::phases::{is_closing, is_open, pointer_at};
use crate::sent::{Sent, SentLine};
use link_msg::AnswerBody;
use mur_base::{Copied, MailName, Memory};
use node_record::HeldNames;
use std::alloc::Global;

impl AskKind {
    /// The stage in which its flow begins.
    fn stage(self) -> Stage
        ensures { result ≡ first_stage self }
    {
        match self {
            AskKind::Create => Stage::Reserving,
            AskKind::Delete => Stage::Deactivating,
        }
    }

    /// The line with which its flow begins.
    fn line(self, name: MailName) -> Sent
        ensures { result ≡ first_line self name }
    {
        match self {
            AskKind::Create => Sent::Reserve(name),
            AskKind::Delete => Sent::Deactivate(name),
        }
    }
}

impl Flows {
    /// The master isn't reached.
    fn unreached(&self, alloc: Global) -> Result<AnswerBody, Memory>
        ensures { IfOk result (λ body. body ≡ AnswerBody.Unreached self.now.master) }
    {
        Ok(AnswerBody::Unreached(self.master.copy(alloc)?))
    }

    /// What is answered to a CREATE that isn't begun.
    #[tactic(auto, unfolding(crate::specs::Asked::create_refusal))]
    fn create_refusal(
        &self,
        alloc: Global,
        held: &HeldNames,
        name: &MailName,
    ) -> Result<Option<AnswerBody>, Memory>
        ensures { IfOk result (λ body. body ≡ create_refusal self.now held.now name.now) }
    {
        if self.has_flow(name) {
            return Ok(Some(AnswerBody::NotNow));
        }
        if !self.up {
            return Ok(Some(self.unreached(alloc)?));
        }
        if is_closing(held, name) {
            return Ok(Some(AnswerBody::NotNow));
        }
        Ok(None)
    }

    /// What is answered to a DELETE that isn't begun.
    #[tactic(auto, unfolding(crate::specs::Asked::delete_refusal, crate::specs::Asked::delete_refusal_in))]
    fn delete_refusal(
        &self,
        alloc: Global,
        held: &HeldNames,
        name: &MailName,
    ) -> Result<Option<AnswerBody>, Memory>
        ensures { IfOk result (λ body. body ≡ delete_refusal self.now held.now name.now) }
    {
        if let Some(server) = pointer_at(held, name) {
            return Ok(Some(AnswerBody::Moved(server.copy(alloc)?)));
        }
        if !is_open(held, name) || self.has_flow(name) {
            return Ok(Some(AnswerBody::NotNow));
        }
        if !self.up {
            return Ok(Some(self.unreached(alloc)?));
        }
        Ok(None)
    }

    /// What is answered to an ask that isn't begun.
    pub fn refusal(
        &self,
        alloc: Global,
        held: &HeldNames,
        ask: &NameAsk,
    ) -> Result<Option<AnswerBody>, Memory>
        ensures { IfOk result (λ body. body ≡ refusal self.now held.now ask.now.name ask.now.kind) }
    {
        match ask.kind {
            AskKind::Create => self.create_refusal(alloc, held, &ask.name),
            AskKind::Delete => self.delete_refusal(alloc, held, &ask.name),
        }
    }

    /// Begins a flow, and gives its first line.
    pub fn begin(&mut self, alloc: Global, ask: NameAsk) -> Result<SentLine, Memory>
        ensures flows { OnOk result (self.new ≡ begun_flow self.old ask) }
        ensures line { IfOk result (λ line. line ≡ begun_line ask) }
    {
        let NameAsk {
            front,
            id,
            name,
            kind,
        } = ask;
        let line = asked_line(alloc, &id, kind.line(name.copy(alloc)?))?;
        let stage = kind.stage();
        let flow = Flow {
            front,
            ask: id,
            stage,
        };
        self.running.insert(name, flow)?;
        Ok(line)
    }

    /// Tests an ask, and answers it or begins a flow.
    pub fn test(&mut self, alloc: Global, held: &HeldNames, ask: NameAsk) -> Result<Gives, Memory>
        ensures { IfOk result (λ it. given self.new it ≡ tested self.old held.now ask) }
    {
        match self.refusal(alloc, held, &ask)? {
            Some(body) => Gives::answer(alloc, answer_to(ask.front, ask.id, body)),
            None => {
                let line = self.begin(alloc, ask)?;
                Gives::nothing(alloc).and_line(line)
            }
        }
    }

    /// Tests an ask; while a resync runs it waits.
    #[tactic(auto, unfolding(crate::specs::Asked::asked_step, crate::specs::Asked::asked_by))]
    fn ask_comes(&mut self, alloc: Global, held: &HeldNames, ask: NameAsk) -> Result<Gives, Memory>
        ensures { IfOk result (λ it. given self.new it ≡ asked_step self.old held.now ask) }
    {
        match &mut self.resync {
            Some(resync) => {
                resync.waiting.push(ask)?;
                Ok(Gives::nothing(alloc))
            }
            None => self.test(alloc, held, ask),
        }
    }

    /// A frontend asks for a mailbox to be made or deleted. For want of memory the state is spent.
    pub fn asked(&mut self, alloc: Global, held: &HeldNames, ask: NameAsk) -> Result<Step, Memory>
        ensures { IfOk result (λ step. record { flows = self.new; step = step } ≡ handed held.now (asked_step self.old held.now ask)) }
    {
        let gives = self.ask_comes(alloc, held, ask)?;
        self.hand_out(alloc, held, gives)
    }
}
