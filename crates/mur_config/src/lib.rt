//! The configuration of a cluster: its nodes, their links and its users, and the reader of its text; and the words of a call.
#![tactic(auto)]

mod config;
mod draft;
mod fault;
mod job;
mod json;
mod names;
mod node;
mod nodes;
mod rules;
mod values;
mod words;

pub use config::{CONFIG_LIMIT, Config, read_config};
pub use fault::{ConfigError, ConfigFault};
pub use job::{DRILL_LIMIT, Job};
pub use node::{FRONTEND_PORT, Kind, Link, Links, MASTER_PORT, NO_PORT, Node};
pub use nodes::{Nodes, NodesFault};
pub use words::read_words;
