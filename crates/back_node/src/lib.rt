//! A backend: its mailboxes, and its talk about their names with the MUPDATE master (RFC 3656), in one step a message.
//!
//! | What comes | From | What becomes of it |
//! |---|---|---|
//! | the link is up | the master | LIST: a resync begins |
//! | the link ended | the master | what was under way is answered, and what waited |
//! | a line | the master | it answers the first line sent, if it is a response |
//! | CREATE or DELETE of a mailbox | a frontend | a test, and then RESERVE or DEACTIVATE; during a resync it waits |
//! | an ask for messages | a frontend | carried out where the mailbox is open here, and else refused |
//! | anything else | any node | nothing |
//!
//! `specs/Takes.antt` is that table. [`BackNode::plan`] takes a step up to its entry, of which there is one at most, and [`BackNode::settle`] carries
//! the entry out and gives the outputs: between the two the caller writes it to the disk. The mailboxes are changed by that entry alone.
#![tactic(auto)]

mod ask;
mod laws;
mod node;
mod rest;
mod talk;

pub use laws::{
    a_create_or_delete_waits_for_a_resync, a_step_is_one_of_each_name,
    an_ask_for_messages_never_waits, only_the_master_and_those_who_asked_are_told,
    the_mailboxes_are_what_the_entries_make,
};
pub use node::BackNode;
pub use rest::{Rest, Says};
