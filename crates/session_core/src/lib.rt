//! One session: what each of its commands needs, and what comes of it when the home has answered. Nothing here knows of nodes, links or
//! bytes.
#![tactic(auto)]

mod beginning;
mod commands;
mod finishing;
mod laws;
mod relocation;
mod result;
mod session;
mod viewed;

pub use laws::a_refusal_is_as_in_the_history;
pub use mur_model::{Asking, Awaited, Need};
pub use result::OpResult;
pub use session::Session;
