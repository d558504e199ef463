// What a frontend asks of a name, and what it is told.
use link_msg::BackAnswer;
use mur_base::{AskId, Items, MailName, NodeName};

/// What is asked of a name.
#[derive(Clone, Copy, Debug, PartialEq, Eq)]
pub enum AskKind {
    /// The mailbox is to be made (RFC 9051, 6.3.4).
    Create,
    /// The mailbox is to be deleted (RFC 9051, 6.3.5).
    Delete,
}

/// A frontend's CREATE or DELETE of a name.
#[derive(Drop)]
pub struct NameAsk {
    /// The frontend that asks.
    pub front: NodeName,
    /// The command for which it asks.
    pub id: AskId,
    pub name: MailName,
    pub kind: AskKind,
}

/// An answer, and the frontend that it goes to.
#[derive(Drop)]
pub struct Told {
    pub front: NodeName,
    pub answer: BackAnswer,
}

/// Answers in their order.
pub type Answers = Items<Told>;
