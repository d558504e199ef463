// What a home answers.
use crate::outcome::Outcome;
use mail_message::Snapshot;
use mur_base::{AskId, NodeName};

/// What a backend says to an ask.
#[derive(Drop)]
pub enum AnswerBody {
    /// This came of it, and then the mailbox looked like that.
    Done(Outcome, Snapshot),
    /// The mailbox can't be served here at present, or isn't here. Nothing was done.
    NotNow,
    /// The mailbox has moved to this server. Nothing was done.
    Moved(NodeName),
    /// It needs this node, which wasn't reached.
    Unreached(NodeName),
    /// Whether it was done can't be known.
    Lost,
}

/// The answer to an ask.
#[derive(Drop)]
pub struct BackAnswer {
    /// The command for which was asked.
    pub id: AskId,
    pub body: AnswerBody,
}
