// What a step gives.
ghost use Rattle.std.specs.Prelude.{◌≡◌, ◌∷◌, ◌++◌, [], None, Some, map, IfOk, OnOk};
ghost use Rattle.name_flows.specs.Lines.{asked_line, line_text, unasked_line};
ghost use Rattle.name_flows.specs.Steps.{given, handed};

use crate::ask::{Answers, Told};
use crate::flows::Flows;
use crate::sent::{Sent, SentLine, SentLines};
use mupdate_codec::{Tag, UNASKED_TAG, tag_of};
use mur_base::{AskId, Bytes, Items, Location, Memory, Queue};
use node_record::{BackendRecord, HeldNames};
use std::alloc::Global;

/// What a step gives, with its lines as what they ask.
#[derive(Drop)]
pub struct Gives {
    pub entry: Option<BackendRecord>,
    pub sends: SentLines,
    pub answers: Answers,
}

/// Texts of lines, in their order.
pub type Lines = Items<Bytes>;

/// What a step gives.
#[derive(Drop)]
pub struct Step {
    /// The change of the mailboxes, if there is one, which goes to the disk first.
    pub entry: Option<BackendRecord>,
    /// The lines for the master.
    pub lines: Lines,
    /// The answers for frontends.
    pub answers: Answers,
}

/// The line that a client's command waits for.
pub fn asked_line(alloc: Global, id: &AskId, what: Sent) -> Result<SentLine, Memory>
    ensures { IfOk result (λ line. line ≡ asked_line id.now what) }
{
    Ok(SentLine {
        tag: tag_of(alloc, id)?,
        what,
    })
}

/// The line that no client's command waits for.
pub fn unasked_line(alloc: Global, what: Sent) -> Result<SentLine, Memory>
    ensures { IfOk result (λ line. line ≡ unasked_line what) }
{
    Ok(SentLine {
        tag: Tag::Text(Bytes::from_slice(alloc, UNASKED_TAG)?),
        what,
    })
}

impl Gives {
    /// Nothing.
    pub fn nothing(alloc: Global) -> Gives
        ensures { result ≡ record { entry = None; sends = []; answers = [] } }
    {
        Gives {
            entry: None,
            sends: SentLines::new(alloc),
            answers: Answers::new(alloc),
        }
    }

    /// Answers alone.
    pub fn answers(alloc: Global, answers: Answers) -> Gives
        ensures { result ≡ record { entry = None; sends = []; answers = answers } }
    {
        Gives {
            entry: None,
            sends: SentLines::new(alloc),
            answers,
        }
    }

    /// One answer alone.
    pub fn answer(alloc: Global, one: Told) -> Result<Gives, Memory>
        ensures { IfOk result (λ it. it ≡ record { entry = None; sends = []; answers = one ∷ [] }) }
    {
        let mut answers = Answers::new(alloc);
        answers.push(one)?;
        Ok(Gives::answers(alloc, answers))
    }

    /// An entry and answers.
    pub fn changed(alloc: Global, entry: BackendRecord, answers: Answers) -> Gives
        ensures { result ≡ record { entry = Some entry; sends = []; answers = answers } }
    {
        Gives {
            entry: Some(entry),
            sends: SentLines::new(alloc),
            answers,
        }
    }

    /// A line beside what it gives.
    pub fn and_line(self, line: SentLine) -> Result<Gives, Memory>
        ensures { IfOk result (λ it. it ≡ record self { sends = self.sends ++ line ∷ [] }) }
    {
        let mut gives = self;
        gives.sends.push(line)?;
        Ok(gives)
    }
}

/// Prints lines, which stand behind those sent from here on.
fn send_all(
    alloc: Global,
    me: &Location,
    held: &HeldNames,
    sends: SentLines,
    sent: &mut Queue<SentLine>,
) -> Result<Lines, Memory>
    ensures sent { OnOk result (sent.new ≡ sent.old ++ sends) }
    ensures lines { IfOk result (λ lines. lines ≡ map (line_text me.now held.now) sends) }
{
    let mut lines = Lines::new(alloc);
    for line in sends.into_vec() {
        lines.push(line.text(alloc, me, held)?)?;
        sent.push(line)?;
    }
    Ok(lines)
}

impl Flows {
    /// Hands out what a step gives.
    pub fn hand_out(&mut self, alloc: Global, held: &HeldNames, it: Gives) -> Result<Step, Memory>
        ensures { IfOk result (λ step. record { flows = self.new; step = step } ≡ handed held.now (given self.old it)) }
    {
        let Gives {
            entry,
            sends,
            answers,
        } = it;
        let lines = send_all(alloc, &self.me, held, sends, &mut self.sent)?;
        Ok(Step {
            entry,
            lines,
            answers,
        })
    }
}
