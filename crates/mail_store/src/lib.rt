//! What APPEND, STORE and EXPUNGE do to one mailbox.
#![tactic(auto)]

mod append;
mod expunging;
mod fault;
mod named;
mod store;

pub use append::append_all;
pub use expunging::expunge;
pub use fault::StoreFault;
pub use named::set_of;
pub use store::{rows_stored, set_flags};
