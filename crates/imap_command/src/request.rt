// What a frame asks for.
ghost use Rattle.std.specs.Prelude.{◌≡◌, IfOk};
ghost use Rattle.imap_command.specs.Request.{request_of, too_big_request, tag_or_star};

use crate::fault::ReadFault;
use crate::reader::{first_tag, read};
use imap_types::{Request, Tag};
use mur_base::Memory;
use std::alloc::Global;

/// What a whole frame asks for: the command that it spells, or a refusal under its first word where that is a tag with a
/// space behind it, else under `*` (RFC 9051, 2.2.1 and 7.1.3).
pub fn read_request(alloc: Global, frame: &[u8]) -> Result<Request, Memory>
    ensures { IfOk result (λ request. request ≡ request_of frame.now) }
{
    match read(alloc, frame) {
        Ok((tag, command)) => Ok(Request::Command(tag, command)),
        Err(ReadFault::Bad(bad)) => Ok(Request::Unknown(or_star(bad.tag))),
        Err(ReadFault::Memory) => Err(Memory),
    }
}

/// The refusal of a frame that is too big, under its first word where that is a tag with a space behind it, else under `*`.
#[tactic(auto, unfolding(crate::specs::Request::too_big_request))]
pub fn too_big(alloc: Global, frame: &[u8]) -> Result<Request, Memory>
    ensures { IfOk result (λ request. request ≡ too_big_request frame.now) }
{
    Ok(Request::TooBig(or_star(first_tag(alloc, frame)?)))
}

fn or_star(tag: Option<Tag>) -> Tag
    ensures { result ≡ tag_or_star tag }
{
    match tag {
        Some(tag) => tag,
        None => Tag::Star,
    }
}
