// What a home answers.
ghost use Rattle.std.specs.Prelude.{◌≡◌};
ghost use Rattle.backend_core.specs.Response.{no_snapshot, bare_snapshot, done, not_now, moved_to};

use link_msg::{AnswerBody, Counts, Outcome};
use mail_message::{MailBox, OrderedRows, Snapshot};
use mur_base::NodeName;
use std::alloc::Global;

/// What is answered to an ask, and when that step counts as its command's point.
#[derive(Drop)]
pub struct Response {
    pub body: AnswerBody,
    pub counts: Counts,
}

impl Response {
    /// The answer to an operation on messages.
    pub fn done(outcome: Outcome, snapshot: Snapshot) -> Response
        ensures { result ≡ done outcome snapshot }
    {
        Response {
            body: AnswerBody::Done(outcome, snapshot),
            counts: Counts::Always,
        }
    }

    /// The mailbox isn't here, or isn't served at present.
    pub fn not_now() -> Response
        ensures { result ≡ not_now }
    {
        Response {
            body: AnswerBody::NotNow,
            counts: Counts::IfAnswered,
        }
    }

    /// The mailbox is at this server.
    pub fn moved(server: NodeName) -> Response
        ensures { result ≡ moved_to server }
    {
        Response {
            body: AnswerBody::Moved(server),
            counts: Counts::IfAnswered,
        }
    }
}

/// Nothing of a mailbox.
pub fn no_snapshot(alloc: Global) -> Snapshot
    ensures { result ≡ no_snapshot }
{
    Snapshot {
        serial: 0,
        next: 0,
        size: 0,
        rows: OrderedRows::new(alloc),
    }
}

/// UIDVALIDITY and UIDNEXT of a mailbox, without a look at its messages.
pub fn bare(alloc: Global, content: &MailBox) -> Snapshot
    ensures { result ≡ bare_snapshot content.now }
{
    Snapshot {
        serial: content.serial(),
        next: content.next(),
        size: 0,
        rows: OrderedRows::new(alloc),
    }
}
