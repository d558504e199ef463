// The lines of a barrier.
ghost use Rattle.std.specs.Prelude.{◌≡◌, IfOk};
ghost use Rattle.ask_routes.specs.Barrier.{barrier_answered, begins_with_digit, noop_line, ok_under};

use mupdate_codec::{MCommand, MResponse, Tag, ask_of, print_command, response_in, tag_of};
use mur_base::{AskId, Bytes, Memory};
use std::alloc::Global;

/// The line by which a command waits for all that the master told before: a NOOP under the command's tag (RFC 3656, 4.8).
#[tactic(auto, unfolding(crate::specs::Barrier::noop_line))]
pub fn noop_line(alloc: Global, ask: &AskId) -> Result<Bytes, Memory>
    ensures { IfOk result (λ line. line ≡ noop_line ask.now) }
{
    let tag = tag_of(alloc, ask)?;
    print_command(alloc, &tag, &MCommand::Noop)
}

fn ok_under(tag: &Tag, response: &MResponse) -> Option<AskId>
    ensures { result ≡ ok_under tag.now response.now }
{
    match response {
        MResponse::Ok(_) => ask_of(tag),
        _ => None,
    }
}

/// Whether bytes begin as the tag of a client's command does; those of the frontend's stream don't.
#[tactic(auto, unfolding(crate::specs::Barrier::begins_with_digit, mur_base::specs::Number::is_digit))]
fn begins_with_digit(line: &[u8]) -> bool
    ensures { result ≡ begins_with_digit line.now }
{
    !line.is_empty() && line[0].is_ascii_digit()
}

#[tactic(auto, unfolding(crate::specs::Barrier::barrier_answered))]
fn read_answer(alloc: Global, line: &[u8]) -> Result<Option<AskId>, Memory>
    ensures { IfOk result (λ it. it ≡ barrier_answered line.now) }
{
    match response_in(alloc, line)? {
        Some((tag, response)) => Ok(ok_under(&tag, &response)),
        None => Ok(None),
    }
}

/// The command whose barrier's OK the bytes are, if they are one. A line of the frontend's stream isn't read, and takes no memory.
#[tactic(auto, using(crate::proofs::FirstByte::no_digit))]
pub fn barrier_answered(alloc: Global, line: &[u8]) -> Result<Option<AskId>, Memory>
    ensures { IfOk result (λ it. it ≡ barrier_answered line.now) }
{
    if begins_with_digit(line) {
        read_answer(alloc, line)
    } else {
        Ok(None)
    }
}
