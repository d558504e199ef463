//! What a frontend decides behind the OK of a barrier is decided by the master's table, and so by the one store, of the step in which the master took the
//! NOOP. Nothing here runs.
//!
//! | What | Definition |
//! |---|---|
//! | the master's answer to the NOOP of a command | `specs/Answered.antt` |
//! | where a command's barrier is, between a frontend and the master | `specs/Barriers.antt` |
//! | what each event makes of it | `specs/Events.antt` |
//! | what a frontend decides, by the table | `specs/Decided.antt` |
//! | what it decides, by the store | `specs/AsTheStore.antt` |
//!
//! The master answers a NOOP in the step in which it takes it ([`a_noop_is_answered_at_once`]), behind all that it told before, so what a frontend has
//! taken before the OK makes its replica that of the table of this step, whatever the master tells later ([`each_event_keeps_a_barrier`]). So a name that
//! is told missing had no record then, and the store no box ([`a_barrier_decides_as_the_store`]). Nodes here don't crash.
#![tactic(auto)]

mod laws;

pub use laws::{
    a_barrier_decides_as_the_store, a_barrier_decides_by_the_table, a_noop_is_answered_at_once,
    each_event_keeps_a_barrier,
};
