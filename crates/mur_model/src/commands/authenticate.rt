// AUTHENTICATE PLAIN (RFC 9051, 6.2.2; RFC 4616).
ghost use Rattle.std.specs.Prelude.{◌≡◌, ◌<◌, IfOk, IfSome, length, position};
ghost use Rattle.std.specs.Option.{option_map};
ghost use Rattle.mur_model.specs.Plain.{acts_as, authenticate, authenticate_as, cut_at_nul, decoded, is_nul};
ghost use Rattle.mur_model.specs.Need.{begun_of};

use crate::commands::login::{login, login_failed};
use crate::need::Begun;
use base64::DecodeAllocError;
use base64::engine::general_purpose::STANDARD;
use imap_types::{BadText, Verdict};
use mur_base::{Bytes, Memory, Users};
use std::alloc::Global;

/// What AUTHENTICATE PLAIN with this response needs: a session, where it has the password of a user, who acts as themselves.
#[tactic(auto, unfolding(crate::specs::Plain::authenticate, crate::specs::Plain::authenticate_with))]
pub fn authenticate(alloc: Global, users: &Users, response: &Bytes) -> Result<Begun, Memory>
    ensures { IfOk result (λ begun. begun ≡ begun_of (authenticate users.now response.now)) }
{
    if response.as_slice() == b"*".as_slice() {
        return Ok(Begun::refused(alloc, Verdict::Bad(BadText::Syntax)));
    }
    match decoded(alloc, response.as_slice())? {
        Some(message) => authenticate_as(alloc, users, message.as_slice()),
        None => Ok(login_failed(alloc)),
    }
}

/// The bytes that a response stands for, if it is base64 of any.
#[tactic(auto, unfolding(crate::specs::Plain::decoded))]
fn decoded(alloc: Global, response: &[u8]) -> Result<Option<Bytes>, Memory>
    ensures { IfOk result (λ message. message ≡ decoded response.now) }
{
    if response == b"=".as_slice() {
        return Ok(Some(Bytes::new(alloc)));
    }
    match STANDARD.decode(alloc, response) {
        Ok(message) => Ok(Some(Bytes::from_vec(message))),
        Err(DecodeAllocError::DecodeError(_)) => Ok(None),
        Err(DecodeAllocError::OutOfMemory) => Err(Memory),
    }
}

#[tactic(auto, unfolding(crate::specs::Plain::authenticate_as, crate::specs::Plain::authenticate_by))]
fn authenticate_as(alloc: Global, users: &Users, message: &[u8]) -> Result<Begun, Memory>
    ensures { IfOk result (λ begun. begun ≡ begun_of (authenticate_as users.now (cut_at_nul message.now))) }
{
    let Some((authzid, rest)) = cut_at_nul(message) else {
        return Ok(login_failed(alloc));
    };
    match cut_at_nul(rest) {
        Some((user, password)) if acts_as(authzid, user) => {
            login(alloc, users, b"AUTHENTICATE", user, password)
        }
        _ => Ok(login_failed(alloc)),
    }
}

fn acts_as(authzid: &[u8], user: &[u8]) -> bool
    ensures { result ≡ acts_as authzid.now user.now }
{
    authzid.is_empty() || authzid == user
}

/// The text before the first NUL, and the one behind it.
#[tactic(auto, unfolding(crate::specs::Plain::cut_at_nul, crate::specs::Plain::cut_at))]
fn cut_at_nul(text: &[u8]) -> Option<(&[u8], &[u8])>
    ensures { option_map (λ cut. (cut.0.now, cut.1.now)) result ≡ cut_at_nul text.now }
{
    let at = nul_in(text)?;
    Some((&text[..at], &text[at + 1..]))
}

fn nul_in(text: &[u8]) -> Option<usize>
    ensures place { result ≡ position is_nul text.now }
    ensures within { IfSome result (λ at. at < length text.now) }
{
    text.iter().position(|byte| *byte == 0)
}
