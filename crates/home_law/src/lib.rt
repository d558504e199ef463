//! The home law of one mailbox name: at most one backend serves it, and the master's record says which, through CREATE and DELETE, through links
//! that break and nodes that crash, and while lines and answers are on their way. Nothing here runs.
//!
//! `specs/Items.antt` has what the master, a backend and their link are to one name, `specs/Steps.antt` what each does with a message,
//! `specs/Link.antt` what each event does with a backend and its link. The invariant speaks of one backend at a time
//! (`specs/LinkOk.antt`): it is rows of tests, one for each message that may be on its way (`specs/Rows.antt`), so that each step keeps it is
//! computed, for every state and every message. A new message has a variant of `Item`, a row in each table of tests, and its step.
//!
//! The law is used in three parts: each event keeps the invariant ([`each_event_keeps_a_link`], [`a_crash_inside_a_step_keeps_a_link`]), what the
//! invariant says ([`a_link_says_where_a_name_is`]), and what a queue with answers about many names is to each
//! ([`answers_are_to_each_name_its_own`], `specs/ManyNames.antt`). [`a_name_has_one_home`] is the law of whole runs.
#![tactic(auto)]

mod laws;
mod queues;

pub use laws::{
    a_crash_inside_a_step_keeps_a_link, a_link_says_where_a_name_is, a_name_has_one_home,
    each_event_keeps_a_link,
};
pub use queues::answers_are_to_each_name_its_own;
