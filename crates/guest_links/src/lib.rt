//! A client from outside at the master is told its dialog, whatever lines come to the master from whomever (RFC 3656). Nothing here runs.
//!
//! | What | Definition |
//! |---|---|
//! | the bytes that a step gives one client; its close | `specs/Outputs.antt` |
//! | a client's dialog, its UPDATE, and what it is told of a change | `specs/Guests.antt` |
//! | what happens at the master, and what it is to one client | `specs/Happenings.antt` |
//! | the master has each client as its dialog says, and gives it just that | `specs/Served.antt` |
//! | what a watcher was given makes the records of the table | `specs/Reading.antt` |
//!
//! A client is greeted, each of its lines is answered by the table at that step, and from its UPDATE on it is told each change, a line a
//! change, until LOGOUT or a close ([`each_step_serves_a_client`], [`a_client_is_given_its_dialog`]). Whoever reads what a client was given
//! since its UPDATE has the table of now ([`what_a_watcher_was_told_is_the_table`]).
#![tactic(auto)]

mod laws;

pub use laws::{
    a_client_is_given_its_dialog, each_step_serves_a_client, what_a_watcher_was_told_is_the_table,
};
