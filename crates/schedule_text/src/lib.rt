//! The schedules of a cluster: events, the reader and the printer of their text (a row for each word), bytes as printable text, and texts cut
//! into lines. Nothing here knows what an event does.
#![tactic(auto)]

mod cuts;
mod event;
mod print;
mod schedule;
mod text;
mod words;

pub use cuts::LineCuts;
pub use event::{Event, Events};
pub use print::print_schedule;
pub use schedule::{Cut, Rule, SchedFault, ScheduleError, read_schedule, split_word};
pub use text::{put_name_text, put_text, read_text};

#[cfg(test)]
mod tests;
