//! What the master and a backend do with the names of mailboxes is, to each name, the protocol of `home_law`. Nothing here runs.
//!
//! | What | Definition |
//! |---|---|
//! | the master's table, to one name | `specs/Known.antt` |
//! | a backend's line, to one name, read off its command and its tag | `specs/Lines.antt` |
//! | the lines that a step of the master puts on its links | `specs/Answers.antt` |
//! | the master's step on a line, to each name | `specs/MasterLaw.antt` |
//! | lines are read as they were sent | `specs/Reading.antt`, `specs/Spelled.antt` |
//! | one whole link: table, backend, both queues, its events, and what it is to one name | `specs/OneLink.antt` |
//! | what holds of it | `specs/LinkIs.antt` |
//! | access lists and contents, by the record of a name | `specs/Contents.antt` |
//! | which UIDVALIDITYs were given, and which mailbox has which | `specs/Serials.antt` |
//!
//! Of one link it holds for every name what `home_law` says of a backend and its link, and the responses on their way answer the backend's lines in
//! their order, each under its line's tag ([`each_event_keeps_every_name`]). A mailbox is where its record says, with the record's access list, and
//! only message steps change it ([`each_event_keeps_every_content`]); each has a UIDVALIDITY of its own, which no mailbox had
//! ([`each_mailbox_has_what_it_was_given`], [`no_uidvalidity_is_given_twice`]). Links here don't break, and nodes don't crash.
#![tactic(auto)]

mod laws;

pub use laws::{
    a_content_is_changed_by_message_steps, a_create_makes_a_new_mailbox,
    a_line_is_one_of_each_name, a_line_is_what_was_sent, each_event_keeps_every_content,
    each_event_keeps_every_name, each_mailbox_has_what_it_was_given, no_uidvalidity_is_given_twice,
};
