// What a client asks, and what it is answered, each as one value (RFC 9051, 2.2).
use crate::command::{Command, Tag};
use crate::reply::Reply;

/// What a client asked for, one at a time: each is answered under its tag.
#[derive(Drop)]
pub enum Request {
    /// A command (RFC 9051, 6).
    Command(Tag, Command),
    /// What spells no command (RFC 9051, 7.1.3).
    Unknown(Tag),
    /// What announces a literal that is too long (RFC 9051, 4.3).
    TooBig(Tag),
}

/// A reply under the tag of its request (RFC 9051, 7).
#[derive(Drop)]
pub struct Answer {
    pub tag: Tag,
    pub reply: Reply,
}
