// A user with their password begins a session (RFC 9051, 6.2.2 and 6.2.3).
ghost use Rattle.std.specs.Prelude.{◌≡◌, IfOk};
ghost use Rattle.mur_model.specs.Login.{login, login_failed, begun_by};
ghost use Rattle.mur_model.specs.Need.{begun_of};

use crate::need::Begun;
use crate::rights::user_named;
use crate::session::{Sess, Turn};
use imap_types::{NoText, Verdict, completed};
use mur_base::{Copied, Memory, UserName, Users};
use std::alloc::Global;

/// What the command of this name needs, by which a client says that it has the password of this user: a session, where
/// they are those of a user.
#[tactic(auto, unfolding(crate::specs::Login::login, crate::specs::Login::login_as, crate::specs::Login::login_by))]
pub fn login(
    alloc: Global,
    users: &Users,
    command: &[u8],
    name: &[u8],
    password: &[u8],
) -> Result<Begun, Memory>
    ensures { IfOk result (λ begun. begun ≡ begun_of (login users.now command.now name.now password.now)) }
{
    match user_named(users, name) {
        Some(user) if user.password.as_slice() == password => {
            Ok(Begun::told(begun_by(alloc, command, &user.name)?))
        }
        _ => Ok(login_failed(alloc)),
    }
}

/// The refusal of a client that is no user.
pub fn login_failed(alloc: Global) -> Begun
    ensures { result ≡ begun_of login_failed }
{
    Begun::refused(alloc, Verdict::No(NoText::AuthenticationFailed))
}

fn begun_by(alloc: Global, command: &[u8], user: &UserName) -> Result<Turn, Memory>
    ensures { IfOk result (λ turn. turn ≡ begun_by command.now user.now) }
{
    Ok(Turn {
        session: Some(Sess::In(user.copy(alloc)?)),
        reply: completed(alloc, command)?,
    })
}
