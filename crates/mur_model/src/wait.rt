// Commands that wait for one line more of their client (RFC 9051, 6.2.2 and 6.3.13).
ghost use Rattle.std.specs.Prelude.{◌≡◌, IfOk, IsOkAnd, codes};
ghost use Rattle.mur_model.specs.Login.{login};
ghost use Rattle.mur_model.specs.Plain.{authenticate};
ghost use Rattle.mur_model.specs.Waits.{begins, begins_by, begins_session, begun_behind, wait_of, waits_begun, with_line};

use crate::commands::authenticate::authenticate;
use crate::commands::login::login;
use crate::need::Begun;
use crate::session::Sess;
use crate::setting::Setting;
use crate::traits::traits_of;
use imap_types::Command;
use mur_base::{Bytes, Memory};
use std::alloc::Global;

/// What waits for a line.
#[derive(Clone, Copy, Debug, PartialEq, Eq)]
pub enum Wait {
    /// AUTHENTICATE without a response.
    Authenticate,
    /// IDLE.
    Idle,
}

/// The command with its line, without the CRLF behind it.
#[tactic(auto, unfolding(crate::specs::Waits::with_line))]
pub fn with_line(wait: Wait, line: Bytes) -> Command
    ensures { result ≡ with_line wait line }
{
    match wait {
        Wait::Authenticate => Command::Authenticate(Some(line)),
        Wait::Idle => Command::Idle(Some(line)),
    }
}

/// Whether the session of what waits has begun.
#[tactic(auto, unfolding(crate::specs::Waits::waits_begun, crate::specs::Waits::with_line, crate::specs::Traits::may_be, crate::specs::Traits::traits_of))]
pub fn waits_begun(wait: Wait) -> bool
    ensures { result ≡ waits_begun wait }
{
    matches!(wait, Wait::Idle)
}

/// What a command waits for, in a session that has begun, or that has not.
#[tactic(auto, unfolding(crate::specs::Waits::wait_of))]
pub fn wait_of(begun: bool, command: &Command) -> Option<Wait>
    ensures { result ≡ wait_of begun command.now }
{
    let traits = traits_of(command);
    if !traits.states.may_be(begun) {
        return None;
    }
    traits.waits
}

/// Whether the session behind a command has begun.
#[tactic(auto, unfolding(crate::specs::Waits::begun_behind))]
pub fn begun_behind(
    alloc: Global,
    with: &Setting,
    begun: bool,
    command: &Command,
) -> Result<bool, Memory>
    ensures { IfOk result (λ behind. behind ≡ begun_behind with.now begun command.now) }
{
    if begun {
        return Ok(true);
    }
    begins(alloc, with, command)
}

#[tactic(auto, unfolding(crate::specs::Waits::begins))]
fn begins(alloc: Global, with: &Setting, command: &Command) -> Result<bool, Memory>
    ensures { IfOk result (λ begun. begun ≡ begins with.now command.now) }
{
    match command {
        Command::Login(name, password) => {
            login_begins(alloc, with, name.as_slice(), password.as_slice())
        }
        Command::Authenticate(Some(line)) => plain_begins(alloc, with, line),
        _ => Ok(false),
    }
}

fn login_begins(alloc: Global, with: &Setting, name: &[u8], password: &[u8]) -> Result<bool, Memory>
    ensures { IfOk result (λ begins. begins ≡ begins_by (login with.now.users (codes "LOGIN") name.now password.now)) }
{
    begins_if_made(login(alloc, &with.users, b"LOGIN", name, password))
}

fn plain_begins(alloc: Global, with: &Setting, line: &Bytes) -> Result<bool, Memory>
    ensures { IfOk result (λ begins. begins ≡ begins_by (authenticate with.now.users line.now)) }
{
    begins_if_made(authenticate(alloc, &with.users, line))
}

/// Whether a session begins with what comes of a command, where that was made.
fn begins_if_made(made: Result<Begun, Memory>) -> Result<bool, Memory>
    ensures { IfOk result (λ begins. IsOkAnd made (λ begun. begins ≡ begins_session begun.session)) }
{
    let begun = made?;
    let begins = begins_with(&begun.session);
    // By a call, so that the drops of its parts are proved elsewhere, and once.
    drop(begun);
    Ok(begins)
}

#[tactic(auto, unfolding(crate::specs::Waits::begins_session))]
fn begins_with(session: &Option<Sess>) -> bool
    ensures { result ≡ begins_session session.now }
{
    matches!(session, Some(Sess::In(_)))
}
