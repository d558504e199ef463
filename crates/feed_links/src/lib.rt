//! The master tells frontends each change of its table, and their replicas follow it (RFC 3656, 4.11). Nothing here runs.
//!
//! | What | Definition |
//! |---|---|
//! | the replica that has all of a table; what it makes of messages | `specs/Replicas.antt` |
//! | the messages that a step sends a node; whose line came | `specs/Lines.antt` |
//! | a table whose lines can be written | `specs/Spelled.antt` |
//! | what each line that comes to the master makes of streams | `specs/Streams.antt` |
//! | one frontend's link, its UPDATE, the lines on their way to it, its replica | `specs/OneFeed.antt` |
//!
//! A replica that has the table, and takes what a step of the master sends it, has the table after the step, whoever sent the line
//! ([`streams_follow_the_table`]). So a frontend has asked for its stream, or has the table once it has taken what is on its way
//! ([`each_event_keeps_a_feed`]). Of one whose link has broken nothing is said but what stands on the link; where that comes up again, it asks anew. Nodes here
//! don't crash.
#![tactic(auto)]

mod laws;

pub use laws::{a_node_keeps_its_stream, each_event_keeps_a_feed, streams_follow_the_table};
