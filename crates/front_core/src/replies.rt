// What a client is given: the greeting, continuations, replies, and the line that tells of a fault.
ghost use Rattle.std.specs.Prelude.{◌≡◌, [], ◌∷◌, ◌++◌, IfOk, OnOk};
ghost use Rattle.imap_reply.specs.Continuation.{continuation_line};
ghost use Rattle.imap_reply.specs.ByeLine.{bye_line};
ghost use Rattle.imap_reply.specs.Greeting.{greeting};
ghost use Rattle.imap_reply.specs.ReplyText.{reply_text};
ghost use Rattle.imap_talk.specs.FaultBye.{bye_of};
ghost use Rattle.imap_types.specs.Reply.{reply_of};
ghost use Rattle.link_msg.specs.declared.out.Out.TheVariants.{Client};

use imap_reply::{Continuation, put_bye, put_continuation, put_greeting, write};
use imap_wire::FrameFault;
use link_msg::{Out, Outs};
use mur_base::{Bytes, Memory};
use mur_model::{Bye, Reply, ReplyLines, Tag, Verdict};
use std::alloc::Global;

/// What a client that connects is given.
pub fn greeting(alloc: Global) -> Result<Bytes, Memory>
    ensures { IfOk result (λ line. line ≡ greeting) }
{
    let mut line = Bytes::new(alloc);
    put_greeting(&mut line)?;
    Ok(line)
}

/// The client is given this.
pub fn given(alloc: Global, conn: u64, reply: Bytes) -> Result<Outs, Memory>
    ensures { IfOk result (λ outs. outs ≡ Client conn reply ∷ []) }
{
    let mut outs = Outs::new(alloc);
    outs.push(Out::Client(conn, reply))?;
    Ok(outs)
}

/// The client is asked to go on.
pub fn goes_on(alloc: Global, conn: u64, why: Continuation, outs: &mut Outs) -> Result<(), Memory>
    ensures { OnOk result (outs.new ≡ outs.old ++ Client conn (continuation_line why) ∷ []) }
{
    outs.push(Out::Client(conn, continuation_line(alloc, why)?))
}

fn continuation_line(alloc: Global, why: Continuation) -> Result<Bytes, Memory>
    ensures { IfOk result (λ line. line ≡ continuation_line why) }
{
    let mut line = Bytes::new(alloc);
    put_continuation(why, &mut line)?;
    Ok(line)
}

/// The line that says that a connection ends.
pub fn bye_line(alloc: Global, bye: Bye) -> Result<Bytes, Memory>
    ensures { IfOk result (λ line. line ≡ bye_line bye) }
{
    let mut line = Bytes::new(alloc);
    put_bye(bye, &mut line)?;
    Ok(line)
}

/// What it says of a fault.
#[tactic(auto, unfolding(imap_talk::specs::FaultBye::bye_of))]
pub fn bye_of(fault: FrameFault) -> Bye
    ensures { result ≡ bye_of fault }
{
    match fault {
        FrameFault::LineTooLong => Bye::LineTooLong,
        FrameFault::PlusTooLong => Bye::LiteralTooLong,
    }
}

/// A reply without lines of its own.
pub fn reply_of(alloc: Global, verdict: Verdict) -> Reply
    ensures { result ≡ reply_of verdict }
{
    Reply {
        lines: ReplyLines::new(alloc),
        verdict,
    }
}

/// Bytes that most replies have room in, so that they are written without growing.
const REPLY_ROOM: usize = 64;

/// The bytes of a reply.
pub fn reply_bytes(alloc: Global, tag: &Tag, reply: Reply) -> Result<Bytes, Memory>
    ensures { IfOk result (λ bytes. bytes ≡ reply_text tag.now reply) }
{
    let mut bytes = Bytes::from_vec(Vec::with_capacity(alloc, REPLY_ROOM)?);
    write(tag, &reply, &mut bytes)?;
    Ok(bytes)
}
