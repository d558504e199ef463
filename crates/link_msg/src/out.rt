// What a node's step gives.
use crate::counts::Counts;
use crate::how::How;
use crate::message::LinkMsg;
use mur_base::{AskId, Bytes, Items, NodeName};

/// An output of a node's step, which whoever conducts the nodes carries out.
#[derive(Drop)]
pub enum Out {
    /// These bytes go to the client of this connection.
    Client(u64, Bytes),
    /// This connection ends.
    Close(u64),
    /// This message goes to this node.
    Link(NodeName, LinkMsg),
    /// A home answers this command in this step, which is its point where it counts.
    Mark(AskId, Counts),
    /// The client of this command is told of it in this step.
    Told(AskId, How),
}

/// The outputs of a step in their order.
pub type Outs = Items<Out>;
