//! One backend, the master and the messages between them, step by step of the nodes themselves. Nothing here runs.
//!
//! | What | Definition |
//! |---|---|
//! | what a backend can tell by lines that are read again | `specs/Spelled.antt` |
//! | the messages on the link, as commands and responses | `specs/Written.antt` |
//! | what holds of the master, a backend and the messages between them | `specs/OneTalk.antt` |
//! | the link comes up; the backend takes a message | `specs/BackEvents.antt` |
//! | the master takes a message, or a client from outside does something | `specs/MasterEvents.antt` |
//! | who has a name open | `specs/OneHome.antt` |
//! | UIDVALIDITYs | `specs/Validities.antt` |
//! | what a CREATE makes | `specs/Created.antt` |
//!
//! What `name_links` says of commands and responses holds of the bytes that the nodes send each other, of a backend whose link came up first
//! ([`each_event_keeps_a_talk`]). So a name is open at one backend ([`a_name_is_open_at_one_backend`]), no two mailboxes have one UIDVALIDITY
//! ([`no_two_mailboxes_have_one_uidvalidity`]), a CREATE makes a new mailbox ([`a_create_makes_a_new_mailbox_there`]), and messages are served
//! meanwhile ([`messages_are_served_meanwhile`]). Links here don't break, and nodes don't crash.
#![tactic(auto)]

mod laws;

pub use laws::{
    a_create_makes_a_new_mailbox_there, a_name_is_open_at_one_backend, each_event_keeps_a_talk,
    messages_are_served_meanwhile, no_two_mailboxes_have_one_uidvalidity,
};
