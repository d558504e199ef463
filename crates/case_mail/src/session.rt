// One session over one home of mailboxes: what its client is told.
use crate::home;
use crate::line::{command_of, put_reply};
use crate::model::setting;
use backend_core::Backend;
use case_base::{Fault, Steps, put_steps};
use imap_types::Command;
use link_msg::{AnswerBody, FrontAsk, LinkMsg, Op, Out, Outcome};
use mail_message::{OrderedRows, Snapshot};
use mur_base::{Bytes, MailName, What, node_name};
use mur_model::{Gathered, Listing, Setting};
use session_core::{Asking, Awaited, Need, OpResult, Session};
use std::alloc::Global;

/// What becomes of what a session asks.
#[derive(Clone, Copy)]
enum Course {
    /// Its home answers it.
    Answered,
    /// The mailbox is being moved.
    BeingMoved,
    /// The home isn't reached.
    NotReached,
}

/// A client's session, until its client is told that it has ended; and the home that it asks.
#[derive(Drop)]
pub struct Stage {
    setting: Setting,
    home: Backend,
    session: Session,
    has_left: bool,
}

/// Takes steps of a session in which nobody has logged in, over a home without mailboxes, and prints what each gives.
pub fn put(alloc: Global, steps: &[&str], out: &mut Bytes) -> Result<(), Fault> {
    let mut stage = empty(alloc)?;
    put_steps(alloc, &mut stage, steps, out)
}

/// A session in which nobody has logged in, over a home without mailboxes.
fn empty(alloc: Global) -> Result<Stage, Fault> {
    let setting = setting(alloc)?;
    Ok(Stage {
        setting,
        home: home::empty(alloc)?,
        session: Session::new(),
        has_left: false,
    })
}

impl Steps for Stage {
    fn take_step(&mut self, alloc: Global, step: &str, out: &mut Bytes) -> Result<(), Fault> {
        match step.split_once(' ') {
            Some(("home", step)) => home::take(alloc, &mut self.home, step, out),
            _ if self.has_left => Ok(()),
            Some(("moved", line)) => self.put_told(alloc, line, Course::BeingMoved, out),
            Some(("unreached", line)) => self.put_told(alloc, line, Course::NotReached, out),
            _ => self.put_told(alloc, step, Course::Answered, out),
        }
    }
}

impl Stage {
    /// Prints what the client is told for a line.
    fn put_told(
        &mut self,
        alloc: Global,
        line: &str,
        course: Course,
        out: &mut Bytes,
    ) -> Result<(), Fault> {
        let command = command_of(alloc, line)?;
        self.put_for(alloc, line, command, course, out)
    }

    fn put_for(
        &mut self,
        alloc: Global,
        line: &str,
        command: Command,
        course: Course,
        out: &mut Bytes,
    ) -> Result<(), Fault> {
        let need = self.need_of(alloc, command, course)?;
        self.put_need(alloc, line, &need, out)
    }

    /// Prints the reply that is needed, and takes note if the session has ended with it.
    fn put_need(
        &mut self,
        alloc: Global,
        line: &str,
        need: &Need,
        out: &mut Bytes,
    ) -> Result<(), Fault> {
        match need {
            Need::Reply(reply) => Ok(put_reply(alloc, line, reply, out)?),
            Need::Leave(reply) => {
                self.has_left = true;
                Ok(put_reply(alloc, line, reply, out)?)
            }
            Need::Home(_, _) | Need::Names(_) => Err(Fault::Unreadable("another ask")),
        }
    }

    /// What the session needs for a command once what it asked was answered or refused.
    fn need_of(&mut self, alloc: Global, command: Command, course: Course) -> Result<Need, Fault> {
        match self.session.begin(alloc, &self.setting, command)? {
            Need::Home(name, asking) => match course {
                Course::Answered => self.answered(alloc, name, asking),
                _ => self.refused(alloc, &asking.awaited, course),
            },
            Need::Names(it) => self.listed(alloc, &it),
            need => Ok(need),
        }
    }

    /// What a LIST is told of the mailboxes of the home.
    fn listed(&self, alloc: Global, it: &Listing) -> Result<Need, Fault> {
        let mut gathered = Gathered::new(alloc);
        for (name, _) in self.home.held.iter() {
            gathered.put(alloc, it, name)?;
        }
        Ok(Need::Reply(it.reply(alloc, &gathered)?))
    }

    fn answered(&mut self, alloc: Global, name: MailName, asking: Asking) -> Result<Need, Fault> {
        let Asking {
            op,
            selected,
            awaited,
        } = asking;
        let answer = match op {
            Op::Create => self.made(alloc, &name),
            Op::Delete => Ok(self.deleted(alloc, &name)),
            op => {
                let ask = home::ask_of(alloc, name, selected, op)?;
                answer_to(alloc, &mut self.home, ask)
            }
        };
        self.finished(alloc, &awaited, answer)
    }

    /// Makes a mailbox with the UIDVALIDITY 1, unless there is one. So a backend does that the name master lets.
    fn made(&mut self, alloc: Global, name: &MailName) -> Result<OpResult, Fault> {
        let outcome = if self.home.phase(name).is_some() {
            Outcome::Exists
        } else {
            home::make(alloc, &mut self.home, name, 1)?;
            Outcome::None
        };
        Ok(OpResult::Done(outcome, nothing_seen(alloc)))
    }

    /// Deletes a mailbox, if there is one.
    fn deleted(&mut self, alloc: Global, name: &MailName) -> OpResult {
        match self.home.held.remove(name) {
            Some(_) => OpResult::Done(Outcome::None, nothing_seen(alloc)),
            None => OpResult::Missing,
        }
    }

    fn finished(
        &mut self,
        alloc: Global,
        awaited: &Awaited,
        answer: Result<OpResult, Fault>,
    ) -> Result<Need, Fault> {
        match self.session.finish(alloc, awaited, answer?)? {
            Some(need) => Ok(need),
            None => Err(Fault::Unreadable("an answer that doesn't fit")),
        }
    }

    #[tactic(auto, unfolding(session_core::specs::Relocated::IsRelocation))]
    fn refused(&mut self, alloc: Global, awaited: &Awaited, course: Course) -> Result<Need, Fault> {
        match course {
            Course::NotReached => {
                let why = What::Unreached(node_name(alloc, b"b1")?);
                Ok(Need::Reply(self.session.relocated(alloc, awaited, &why)?))
            }
            _ => Ok(Need::Reply(self.session.relocated(alloc, awaited, &What::Reserved)?)),
        }
    }
}

/// What an answer shows that is to no ask for messages.
fn nothing_seen(alloc: Global) -> Snapshot {
    Snapshot {
        serial: 0,
        next: 0,
        size: 0,
        rows: OrderedRows::new(alloc),
    }
}

/// What the home answers.
fn answer_to(alloc: Global, home: &mut Backend, ask: FrontAsk) -> Result<OpResult, Fault> {
    let from = node_name(alloc, b"f1")?;
    let outs = home::outs_of(alloc, home, from, ask)?.into_vec();
    match outs.into_iter().find_map(|out| result_of(out)) {
        Some(answer) => Ok(answer),
        None => Err(Fault::Unreadable("no answer")),
    }
}

/// What an output answers, as a frontend takes it.
fn result_of(out: Out) -> Option<OpResult> {
    match out {
        Out::Link(_to, message) => match message {
            LinkMsg::Answer(answer) => match answer.body {
                AnswerBody::Done(outcome, seen) => Some(OpResult::Done(outcome, seen)),
                AnswerBody::NotNow => Some(OpResult::Missing),
                _ => None,
            },
            _ => None,
        },
        _ => None,
    }
}
