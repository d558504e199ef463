//! Where a client's CREATE or DELETE is between its backend's taking of the ask and the answer: in one place at every moment. Nothing here runs.
//!
//! | What | Definition |
//! |---|---|
//! | whose an ask, a line, a flow, a message or an output is | `specs/Whose.antt` |
//! | where a command is, and that of all that is there just this is about it | `specs/Places.antt` |
//! | what becomes of it in a step of its backend | `specs/Moves.antt` |
//! | what an ask that is refused is answered | `specs/PutOff.antt` |
//! | the steps of the backend: its ask, the response to its line, anything else | `specs/BackSteps.antt` |
//! | the reply to the line of each stage, and what its response does | `specs/Replied.antt` |
//! | the steps of the master: its line, anything else | `specs/MasterSteps.antt` |
//! | all commands of a backend | `specs/AllCommands.antt` |
//!
//! An ask is answered, waits, or its line is sent ([`an_ask_is_answered_waits_or_sends_its_line`]); the response to the line ends the command, or its next
//! line is sent ([`a_response_answers_or_sends_the_next_line`]); where a resync ends, those that waited are tested
//! ([`the_end_of_a_resync_tests_those_that_waited`]); the master answers a line once, under its tag ([`a_line_has_one_response`]). Any other step leaves a
//! command where it is, and says nothing about it ([`any_other_step_leaves_a_command`]). So each is in one place ([`each_command_is_in_one_place`]). Laws
//! are of the commands that a test of their numbers means: one command, or all of a connection. Links here don't break, and nodes don't crash.
#![tactic(auto)]

mod laws;

pub use laws::{
    a_line_has_one_response, a_response_answers_or_sends_the_next_line,
    an_ask_is_answered_waits_or_sends_its_line, any_other_step_leaves_a_command,
    each_command_is_in_one_place, the_end_of_a_resync_tests_those_that_waited,
};
