//! The frames of a client's connection: its bytes cut into commands, whatever pieces they come in.
#![tactic(auto)]

mod begun;
mod block;
mod frame;
mod framer;
mod kept;
mod laws;
mod literal;
mod tally;

pub use frame::{Frame, FrameFault};
pub use framer::{Framer, frames};
pub use laws::{
    a_command_has_its_literals, a_fault_ends_the_connection, a_line_is_a_command,
    a_line_is_taken_whole, a_literal_is_asked_for, a_literal_is_refused,
};
pub use tally::Tally;
