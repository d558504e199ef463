// The access list of a new mailbox.
ghost use Rattle.std.specs.Prelude.{◌≡◌, ◌<◌, ◌==◌, IfOk, IfSome, length, position};
ghost use Rattle.mail_message.specs.FirstAcl.{first_level, first_acl};

use mur_base::{Bytes, MailName, Memory};
use std::alloc::Global;

/// The access list of a mailbox that is made with this name: the user NAME has all rights at `user.NAME` and below it,
/// and at other names nobody has a right of their own (RFC 4314, 2).
#[tactic(auto, unfolding(crate::specs::FirstAcl::first_acl, crate::specs::FirstAcl::owner_acl))]
pub fn first_acl(alloc: Global, name: &MailName) -> Result<Bytes, Memory>
    ensures { IfOk result (λ acl. acl ≡ first_acl name.now) }
{
    let name = name.as_bytes();
    let mut acl = Bytes::new(alloc);
    if name.starts_with(b"user.") {
        acl.extend_from_slice(first_level(&name[5..]))?;
        acl.extend_from_slice(b"\tlrswipkxtea\t")?;
    }
    Ok(acl)
}

#[tactic(auto, unfolding(crate::specs::FirstAcl::first_level))]
fn first_level(text: &[u8]) -> &[u8]
    ensures { result.now ≡ first_level text.now }
{
    match separator_in(text) {
        Some(at) => &text[..at],
        None => text,
    }
}

fn separator_in(text: &[u8]) -> Option<usize>
    ensures place { result ≡ position (λ b. b == 46) text.now }
    ensures within { IfSome result (λ at. at < length text.now) }
{
    text.iter().position(|byte| *byte == b'.')
}
