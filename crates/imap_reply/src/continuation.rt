// Continuation requests (RFC 9051, 7.6).
ghost use Rattle.std.specs.Prelude.{◌≡◌, ◌++◌, OnOk};
ghost use Rattle.imap_reply.specs.Continuation.{challenge, continuation_line, idling, ready};

use mur_base::{Bytes, Memory};

/// What a client is told to send on (RFC 9051, 7.6).
#[derive(Clone, Copy, Debug, PartialEq, Eq)]
pub enum Continuation {
    /// A literal.
    Literal,
    /// The response of an AUTHENTICATE.
    Response,
    /// The line that ends an IDLE.
    Done,
}

/// Writes the line by which a client is told to go on.
#[tactic(auto, unfolding(crate::specs::Continuation::continuation_line))]
pub fn put_continuation(why: Continuation, out: &mut Bytes) -> Result<(), Memory>
    ensures { OnOk result (out.new ≡ out.old ++ continuation_line why) }
{
    match why {
        Continuation::Literal => put_ready(out),
        Continuation::Response => put_challenge(out),
        Continuation::Done => put_idling(out),
    }
}

/// Writes the line that a client waits for before it sends a literal.
#[tactic(auto, unfolding(crate::specs::Continuation::ready))]
fn put_ready(out: &mut Bytes) -> Result<(), Memory>
    ensures { OnOk result (out.new ≡ out.old ++ ready) }
{
    out.extend_from_slice(b"+ ready\r\n")
}

/// Writes the line that a client waits for before it sends its response to AUTHENTICATE.
#[tactic(auto, unfolding(crate::specs::Continuation::challenge))]
fn put_challenge(out: &mut Bytes) -> Result<(), Memory>
    ensures { OnOk result (out.new ≡ out.old ++ challenge) }
{
    out.extend_from_slice(b"+ \r\n")
}

/// Writes the line that a client waits for before it takes its IDLE as begun.
#[tactic(auto, unfolding(crate::specs::Continuation::idling))]
fn put_idling(out: &mut Bytes) -> Result<(), Memory>
    ensures { OnOk result (out.new ≡ out.old ++ idling) }
{
    out.extend_from_slice(b"+ idling\r\n")
}
