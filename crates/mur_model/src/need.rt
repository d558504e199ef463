// What a session needs of its frontend (RFC 9051, 6).
ghost use Rattle.std.specs.Prelude.{◌≡◌, None, IfOk};
ghost use Rattle.mur_model.specs.Asking.{unselected, view_op};
ghost use Rattle.mur_model.specs.Need.{begun_of};
ghost use Rattle.mur_model.specs.Needed.{at_mailbox, no_such_number, read_only, Refusal, Turned};
ghost use Rattle.mur_model.specs.declared.need.Need.TheVariants.{Home as home};

use crate::commands::list::Listing;
use crate::commands::select::Opening;
use crate::session::{Sess, Turn};
use crate::view::View;
use crate::work::ViewWork;
use imap_types::{BadText, NoText, Op, Reply, ReplyLines, StatusItems, Verdict};
use mur_base::{Bytes, Copied, MailName, Memory};
use std::alloc::Global;

/// What the client of an ask waits for, and what its reply is made of besides the home's answer and the session.
#[derive(Drop)]
pub enum Awaited {
    Create,
    Delete,
    Append,
    /// Under this name, of these items.
    Status(Bytes, StatusItems),
    /// The mailbox of this name.
    Select(MailName, Opening),
    /// What a command of a selected session does.
    Viewed(ViewWork),
}

/// What is asked of the home of a mailbox, and what is awaited then.
#[derive(Drop)]
pub struct Asking {
    pub op: Op,
    /// The UIDVALIDITY of the mailbox that the session has selected; None where none is (RFC 9051, 2.3.1.1).
    pub selected: Option<u32>,
    pub awaited: Awaited,
}

/// What a session needs behind a command, or behind the home's answer to it.
#[derive(Drop)]
pub enum Need {
    /// The client is given this reply, and the session goes on.
    Reply(Reply),
    /// The client is given this reply, with which the session has ended (RFC 9051, 3.4).
    Leave(Reply),
    /// The home of this mailbox is asked.
    Home(MailName, Asking),
    /// The names of all mailboxes are asked for (RFC 9051, 6.3.9).
    Names(Listing),
}

/// What comes of a command, or of the home's answer to it, for its session.
#[derive(Drop)]
pub struct Begun {
    /// The session then. None where it is as it was.
    pub session: Option<Sess>,
    pub need: Need,
}

impl Begun {
    /// A command that is refused whatever mailboxes there are.
    #[tactic(auto, unfolding(crate::specs::Need::begun_of))]
    pub fn refused(alloc: Global, verdict: Verdict) -> Begun
        ensures { result ≡ begun_of (Refusal verdict) }
    {
        Begun {
            session: None,
            need: Need::Reply(Reply {
                lines: ReplyLines::new(alloc),
                verdict,
            }),
        }
    }

    /// A command that is answered.
    #[tactic(auto, unfolding(crate::specs::Need::begun_of, crate::specs::Need::told_with))]
    pub fn told(turn: Turn) -> Begun
        ensures { result ≡ begun_of (Turned turn) }
    {
        let Turn { session, reply } = turn;
        match session {
            Some(Sess::Ended) => Begun {
                session: Some(Sess::Ended),
                need: Need::Leave(reply),
            },
            session => Begun {
                session,
                need: Need::Reply(reply),
            },
        }
    }

    /// A command that asks the home of a mailbox.
    pub fn asks(name: MailName, asking: Asking) -> Begun
        ensures { result ≡ record { session = None; need = home name asking } }
    {
        Begun {
            session: None,
            need: Need::Home(name, asking),
        }
    }

    /// A command that asks the home of a mailbox, whichever mailbox is selected.
    pub fn asks_any(name: MailName, op: Op, awaited: Awaited) -> Begun
        ensures { result ≡ record { session = None; need = home name (unselected op awaited) } }
    {
        let selected = None;
        Begun::asks(
            name,
            Asking {
                op,
                selected,
                awaited,
            },
        )
    }
}

/// The refusal of a change where the mailbox was selected to be read.
pub fn read_only(alloc: Global) -> Begun
    ensures { result ≡ begun_of read_only }
{
    Begun::refused(alloc, Verdict::No(NoText::Cannot))
}

/// The refusal of a number that no message has.
pub fn no_such_number(alloc: Global) -> Begun
    ensures { result ≡ begun_of no_such_number }
{
    Begun::refused(alloc, Verdict::Bad(BadText::Message))
}

/// A command of a session that has this view asks the home of its mailbox, and tells it the UIDVALIDITY (RFC 9051, 2.3.1.1).
#[tactic(auto, unfolding(crate::specs::Need::begun_of, crate::specs::Asking::asked_for))]
pub fn at_view(alloc: Global, view: &View, op: Op, work: ViewWork) -> Result<Begun, Memory>
    requires { op ≡ view_op view.now work }
    ensures { IfOk result (λ begun. begun ≡ begun_of (at_mailbox view.now work)) }
{
    Ok(Begun::asks(
        view.name.copy(alloc)?,
        Asking {
            op,
            selected: Some(view.serial),
            awaited: Awaited::Viewed(work),
        },
    ))
}
