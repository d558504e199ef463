// A command that waits for the home of its mailbox, or for the master.
use ask_routes::Why;
use link_msg::LinkMsg;
use mur_base::{MailName, NodeName};
use mur_model::Asking;

/// What a command waits for.
#[derive(Drop)]
pub enum At {
    /// The answer of this server, which was asked. No other node's counts.
    Home(NodeName),
    /// The master's OK to a NOOP.
    Barrier(Why),
}

/// A command that waits.
#[derive(Drop)]
pub struct Waiting {
    pub at: At,
    /// Its mailbox.
    pub name: MailName,
    /// What the home of the mailbox is asked; it may be asked anew.
    pub asking: Asking,
}

/// A message that goes out.
#[derive(Drop)]
pub struct Sent {
    /// The node to which it goes.
    pub to: NodeName,
    pub message: LinkMsg,
}
