//! At the step that is a command's point the one store carries it out, and what its client is told later is that reply. Nothing here runs.
//!
//! | What | Definition |
//! |---|---|
//! | a client's command at a frontend, and what comes of it there | `specs/Commands.antt` |
//! | what the store does in a step | `specs/Carried.antt` |
//! | the master takes the NOOP of a command | `specs/Barriers.antt` |
//! | the master takes the NOOP of a LIST | `specs/Lists.antt` |
//! | the master takes a line for a CREATE | `specs/Creates.antt` |
//! | the master takes a line for a DELETE | `specs/Deletes.antt` |
//! | a backend takes the ask of a command at a mailbox | `specs/AtHome.antt` |
//!
//! The point of a command at a mailbox is where a backend that has the name open takes its ask ([`an_ask_is_carried_out_where_its_name_is_open`]). That of a
//! CREATE is where the master takes its ACTIVATE, or refuses its RESERVE as the name is active ([`a_create_is_carried_out_where_the_master_takes_its_line`]),
//! and that of a DELETE where the master takes its DELETE ([`a_delete_is_carried_out_where_the_master_takes_its_line`]). That of a command which is told that
//! its mailbox is missing, or that its name is reserved, is where the master takes its NOOP ([`a_barrier_is_the_point_of_what_is_told_behind_it`]), and so is
//! that of a LIST ([`a_list_is_told_of_all_mailboxes`]). In each the step's mark, the store after it and the reply at the frontend are told together. An answer
//! by which a command only waits on carries nothing out. Left out are a CREATE that the master refuses since its serials are spent, and a CREATE or DELETE
//! whose backend hasn't reached the master.
#![tactic(auto)]

mod laws;

pub use laws::{
    a_barrier_is_the_point_of_what_is_told_behind_it,
    a_create_is_carried_out_where_the_master_takes_its_line,
    a_delete_is_carried_out_where_the_master_takes_its_line, a_list_is_told_of_all_mailboxes,
    an_ask_is_carried_out_where_its_name_is_open,
};
