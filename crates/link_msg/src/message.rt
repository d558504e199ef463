// What stands on a link.
use crate::answer::BackAnswer;
use crate::ask::FrontAsk;
use mur_base::Bytes;

/// A message on a link between two nodes. Each direction keeps the order of sending.
#[derive(Drop)]
pub enum LinkMsg {
    /// The link is up from here on.
    Up,
    /// The link is down from here on; what was sent behind the last message before is lost.
    End,
    /// A line of MUPDATE, with its CRLF (RFC 3656, 3).
    Line(Bytes),
    /// A frontend asks the home of a mailbox.
    Ask(FrontAsk),
    /// A home answers a frontend.
    Answer(BackAnswer),
}
