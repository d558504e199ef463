//! The master, all backends, the links between all nodes, and the one store that they are, step by step of the nodes. Nothing here runs.
//!
//! | What | Definition |
//! |---|---|
//! | the master, the backends and the links; what a step of one makes of it | `specs/Murder.antt` |
//! | what holds of it, and of the store | `specs/ManyHold.antt` |
//! | the start | `specs/Start.antt` |
//! | for which commands a step counts | `specs/Marks.antt` |
//! | a step of a backend | `specs/HomeEvents.antt` |
//! | a step of the master, and what it is to the store | `specs/MasterEvents.antt` |
//! | what a frontend lets out or takes | `specs/FrontEvents.antt` |
//! | any events, and what the store does in each | `specs/Runs.antt` |
//! | steps that carry no command out | `specs/OtherSteps.antt` |
//! | names that are open, and mailboxes | `specs/OpenNames.antt` |
//!
//! What `back_links` says of one backend holds of each, and with it the store is that of `store_links`. It holds at the start
//! ([`many_hold_at_the_start`]) and after each step ([`each_step_of_a_backend_keeps_it`], [`each_step_of_the_master_keeps_it`], [`frontends_keep_it`]), so
//! after any events ([`many_hold_after_any_events`]). Where the master takes a line, the store does a client's CREATE, a client's DELETE, or nothing. Where a
//! backend takes an ask for messages of an open mailbox, the store does what the backend does. In any other step it does nothing, and neither a
//! backend nor the master carries a command out ([`no_other_step_carries_a_command_out`]). So an open mailbox is as the store has it, and open nowhere else
//! ([`an_open_name_is_the_stores`]), and the store's boxes are the table's mailboxes ([`the_boxes_are_the_mailboxes`]). Links here don't break, and nodes
//! don't crash.
#![tactic(auto)]

mod laws;

pub use laws::{
    an_open_name_is_the_stores, each_step_of_a_backend_keeps_it, each_step_of_the_master_keeps_it,
    frontends_keep_it, many_hold_after_any_events, many_hold_at_the_start,
    no_other_step_carries_a_command_out, the_boxes_are_the_mailboxes,
};
