// The traits of a command, a row each (RFC 9051, 6; RFC 4314, 3).
ghost use Rattle.std.specs.Prelude.{◌≡◌};
ghost use Rattle.mur_model.specs.Traits.{is_in, may_be, taken_in, traits_of, waits_in};

use crate::session::Sess;
use crate::wait::Wait;
use imap_types::Command;

/// The states of a session in which a command is taken (RFC 9051, 3).
#[derive(Clone, Copy, Debug, PartialEq, Eq)]
pub enum States {
    /// In any state (RFC 9051, 6.1).
    Any,
    /// Not authenticated (RFC 9051, 6.2).
    NotAuthenticated,
    /// Authenticated, whether a mailbox is selected or not (RFC 9051, 6.3).
    Authenticated,
    /// Selected (RFC 9051, 6.4).
    Selected,
}

impl States {
    /// Whether a session that has begun, or that has not, can be in one of them.
    #[tactic(auto, unfolding(crate::specs::Traits::may_be))]
    pub fn may_be(self, begun: bool) -> bool
        ensures { result ≡ may_be begun self }
    {
        match self {
            States::Any => true,
            States::NotAuthenticated => !begun,
            States::Authenticated | States::Selected => begun,
        }
    }

    /// Whether a session is in one of them; one that has ended is in none.
    #[tactic(auto, unfolding(crate::specs::Traits::is_in))]
    pub fn include(self, sess: &Sess) -> bool
        ensures { result ≡ is_in sess.now self }
    {
        match (sess, self) {
            (Sess::Ended, _) | (Sess::In(_), States::Selected) => false,
            (Sess::Off, states) => states.may_be(false),
            (_, states) => states.may_be(true),
        }
    }
}

/// What is known of a command by its kind.
#[derive(Clone, Copy)]
pub struct Traits {
    /// The states that have it.
    pub states: States,
    /// What it waits for of its client.
    pub waits: Option<Wait>,
}

fn taken_in(states: States) -> Traits
    ensures { result ≡ taken_in states }
{
    Traits {
        states,
        waits: None,
    }
}

fn waits_in(states: States, wait: Wait) -> Traits
    ensures { result ≡ waits_in states wait }
{
    Traits {
        states,
        waits: Some(wait),
    }
}

/// The traits of a command.
#[tactic(auto, unfolding(crate::specs::Traits::traits_of))]
pub fn traits_of(command: &Command) -> Traits
    ensures { result ≡ traits_of command.now }
{
    match command {
        Command::Capability => taken_in(States::Any),
        Command::Noop => taken_in(States::Any),
        Command::Logout => taken_in(States::Any),
        Command::Login(..) => taken_in(States::NotAuthenticated),
        Command::Authenticate(None) => waits_in(States::NotAuthenticated, Wait::Authenticate),
        Command::Authenticate(Some(_)) => taken_in(States::NotAuthenticated),
        Command::Enable(_) => taken_in(States::Authenticated),
        Command::Select(_) => taken_in(States::Authenticated),
        Command::Examine(_) => taken_in(States::Authenticated),
        Command::Create(_) => taken_in(States::Authenticated),
        Command::Delete(_) => taken_in(States::Authenticated),
        Command::List(..) => taken_in(States::Authenticated),
        Command::Append(..) => taken_in(States::Authenticated),
        Command::Status(..) => taken_in(States::Authenticated),
        Command::Idle(None) => waits_in(States::Authenticated, Wait::Idle),
        Command::Idle(Some(_)) => taken_in(States::Authenticated),
        Command::Xfer(..) => taken_in(States::Authenticated),
        Command::Close => taken_in(States::Selected),
        Command::Unselect => taken_in(States::Selected),
        Command::Expunge(_) => taken_in(States::Selected),
        Command::Search(..) => taken_in(States::Selected),
        Command::Fetch(..) => taken_in(States::Selected),
        Command::Store(..) => taken_in(States::Selected),
        Command::Copy(..) => taken_in(States::Authenticated),
        Command::LeftOut(_) => taken_in(States::Authenticated),
        Command::SetAcl(..) => taken_in(States::Any),
        Command::DeleteAcl(..) => taken_in(States::Any),
        Command::GetAcl(_) => taken_in(States::Any),
        Command::MyRights(_) => taken_in(States::Any),
    }
}
