// A command's reply: its change of the table, and its answers.
ghost use Rattle.std.specs.Prelude.{◌≡◌, [], ◌∷◌, ◌++◌, IfOk, codes};
ghost use Rattle.mupdate_codec.specs.declared.command.MResponse.TheVariants.{Ok as OkResponse, No as NoResponse};
ghost use Rattle.master_core.specs.Refusals.{refusal_text};
ghost use Rattle.master_core.specs.Replies.{told, refused, changed, noop_reply, logout_reply, bad_reply};

use crate::refusal::Refusal;
use link_msg::Counts;
use mupdate_codec::MResponse;
use mur_base::{Bytes, Items, Memory};
use node_record::MasterRecord;
use std::alloc::Global;

/// Responses in their order.
pub type Answers = Items<MResponse>;

/// A command's reply: its change of the table, and its answers.
#[derive(Drop)]
pub struct Reply {
    /// The change of the table, if there is one.
    pub entry: Option<MasterRecord>,
    /// When the step counts for the client's command that the line was sent for, if it may.
    pub counts: Option<Counts>,
    /// The answers to the sender.
    pub answers: Answers,
}

/// One answer.
fn answer_of(alloc: Global, answer: MResponse) -> Result<Answers, Memory>
    ensures { IfOk result (λ answers. answers ≡ answer ∷ []) }
{
    let mut answers = Answers::new(alloc);
    answers.push(answer)?;
    Ok(answers)
}

/// A step that may count, with one answer and no change.
fn answered(alloc: Global, counts: Option<Counts>, answer: MResponse) -> Result<Reply, Memory>
    ensures { IfOk result (λ reply. reply ≡ record { entry = None; counts = counts; answers = answer ∷ [] }) }
{
    Ok(Reply {
        entry: None,
        counts,
        answers: answer_of(alloc, answer)?,
    })
}

impl Reply {
    /// These lines, and OK.
    pub fn told(alloc: Global, lines: Answers) -> Result<Reply, Memory>
        ensures { IfOk result (λ reply. reply ≡ told lines) }
    {
        let mut answers = lines;
        answers.push(MResponse::Ok(Bytes::from_slice(alloc, b"done")?))?;
        Ok(Reply {
            entry: None,
            counts: None,
            answers,
        })
    }

    /// NO.
    pub fn refused(alloc: Global, counts: Option<Counts>, why: Refusal) -> Result<Reply, Memory>
        ensures { IfOk result (λ reply. reply ≡ refused counts why) }
    {
        let text = Bytes::from_slice(alloc, why.text())?;
        answered(alloc, counts, MResponse::No(text))
    }

    /// A change of the table, and OK with this text.
    pub fn changed(
        alloc: Global,
        entry: MasterRecord,
        counts: Option<Counts>,
        text: Bytes,
    ) -> Result<Reply, Memory>
        ensures { IfOk result (λ reply. reply ≡ changed entry counts text) }
    {
        Ok(Reply {
            entry: Some(entry),
            counts,
            answers: answer_of(alloc, MResponse::Ok(text))?,
        })
    }

    /// The answer to NOOP (RFC 3656, 4.8).
    #[tactic(auto, unfolding(crate::specs::Replies::noop_reply))]
    pub fn noop(alloc: Global) -> Result<Reply, Memory>
        ensures { IfOk result (λ reply. reply ≡ noop_reply) }
    {
        let text = Bytes::from_slice(alloc, b"done")?;
        answered(alloc, Some(Counts::IfAnswered), MResponse::Ok(text))
    }

    /// The answer to LOGOUT (RFC 3656, 4.7).
    #[tactic(auto, unfolding(crate::specs::Replies::logout_reply))]
    pub fn logout(alloc: Global) -> Result<Reply, Memory>
        ensures { IfOk result (λ reply. reply ≡ logout_reply) }
    {
        let text = Bytes::from_slice(alloc, b"bye")?;
        answered(alloc, None, MResponse::Ok(text))
    }

    /// The answer to what is no command, or none that may come there (RFC 3656, 3.3).
    #[tactic(auto, unfolding(crate::specs::Replies::bad_reply))]
    pub fn bad(alloc: Global) -> Result<Reply, Memory>
        ensures { IfOk result (λ reply. reply ≡ bad_reply) }
    {
        let text = Bytes::from_slice(alloc, b"syntax")?;
        answered(alloc, None, MResponse::Bad(text))
    }
}
