// A resync: a backend compares its mailboxes with the master's table.
use crate::ask::NameAsk;
use mur_base::{MailName, Map, Queue};

/// The names that were listed.
pub type Listed = Map<MailName, ()>;

/// A resync, from its LIST to that LIST's OK.
#[derive(Drop)]
pub struct Resync {
    /// The names that were listed so far.
    pub listed: Listed,
    /// What was asked meanwhile, in order.
    pub waiting: Queue<NameAsk>,
}
