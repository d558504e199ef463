//! A home of mailboxes: what a backend does with each ask, as one step of its own state.
#![tactic(auto)]

mod append;
mod backend;
mod entry;
mod expunge;
mod flags;
mod laws;
mod look;
mod op_plan;
mod plan;
mod read;
mod refusal;
mod response;
mod rows;
mod step;
mod summaries;

pub use backend::Backend;
pub use laws::{
    a_step_is_its_operation, an_ask_elsewhere_changes_nothing,
    an_ask_of_another_mailbox_changes_nothing, no_uid_is_given_twice, other_names_stay,
    uidnext_never_falls, uids_rise, uids_stay_below_uidnext,
};
pub use node_record::Held;
pub use op_plan::{Entries, Telling};
pub use plan::{BackPlan, Owed};
pub use response::Response;
