// Steps in the logs of nodes, and messages with their stamps.
use mur_base::{Items, Queue};

/// A step in a node's log.
#[derive(Drop)]
pub struct Logged<I> {
    /// The step's Lamport stamp: above that of the step before it in the log, and above the stamp that it heard.
    pub stamp: u64,
    /// The stamp of the step that sent the message which was taken; 0 for a client's input, and for a message that was on its
    /// link at the start.
    pub heard: u64,
    pub input: I,
}

/// The steps of one node, in their order.
pub type Log<I> = Items<Logged<I>>;

/// A log for each node, in the order of the configuration.
pub type Logs<I> = Items<Log<I>>;

/// A step in merged logs.
#[derive(Drop)]
pub struct MergedStep<I> {
    /// The place of its node's log among the logs, from 0 on.
    pub node: usize,
    pub entry: Logged<I>,
}

/// The steps of all nodes, in one order.
pub type Merged<I> = Queue<MergedStep<I>>;

/// A message on a link.
#[derive(Drop)]
pub struct Sent<M> {
    /// The stamp of the step that sent it; 0 if it was on its link at the start.
    pub stamp: u64,
    pub message: M,
}
