//! The talk of one client with its server: what its bytes are to its session ([`input_at`]), and as definitions what it is given
//! (`specs/Transcript.antt`) and what it reads of that (`specs/TranscriptRead.antt`).
#![tactic(auto)]

mod inputs;

pub use inputs::{Before, Given, Input, input_at};
