//! What the master's table and the backends' mailboxes are to the one store, and what each entry of theirs is to it. Nothing here runs.
//!
//! | What | Definition |
//! |---|---|
//! | a table and what its servers have, and the store that they show | `specs/Shown.antt` |
//! | the UIDVALIDITYs that the store gave | `specs/Given.antt` |
//! | CREATE, DELETE, and the master's other entries | `specs/TableEntries.antt` |
//! | a line that the master takes | `specs/Lines.antt` |
//! | entries about messages, and a backend's other entries | `specs/HeldEntries.antt` |
//! | a step of a backend | `specs/Steps.antt` |
//! | which names are mailboxes, and how many | `specs/Boxes.antt` |
//! | a name that is open at a home | `specs/OpenHome.antt` |
//!
//! A name that is active, or is reserved and was active, is a mailbox: the store's box is what the server of its record has. So the store makes a
//! mailbox where the master takes the ACTIVATE of a CREATE ([`an_activate_is_a_create`]), removes one where it takes a DELETE
//! ([`only_a_delete_removes_a_mailbox`]), and changes one with its backend ([`only_messages_change_a_mailbox`]). Each event of a link of `name_links` is
//! one command of the store or nothing ([`a_line_is_one_command_or_nothing`], [`a_step_changes_messages_or_nothing`]). No run is here.
#![tactic(auto)]

mod laws;

pub use laws::{
    a_line_is_one_command_or_nothing, a_step_changes_messages_or_nothing, a_uidvalidity_is_free,
    an_activate_is_a_create, an_open_mailbox_is_the_stores, each_mailbox_is_a_box,
    no_mailbox_is_the_empty_store, only_a_delete_removes_a_mailbox, only_messages_change_a_mailbox,
};
