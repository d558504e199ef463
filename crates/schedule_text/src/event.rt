// The events of a schedule, each of which changes one node and its ends of links.
use mur_base::{Bytes, Items, NodeName};

/// One event. Connections go by their number; counts of messages are at most.
#[derive(Drop)]
pub enum Event {
    /// A connection is opened at a node.
    Open(NodeName, u64),
    /// Bytes come from the client of a connection.
    Data(u64, Bytes),
    /// The client of a connection closes it.
    Hang(u64),
    /// The first message from one node to another is taken.
    Deliver(NodeName, NodeName),
    /// The link of two nodes breaks, and keeps so many messages of each direction.
    Cut(NodeName, NodeName, u64, u64),
    /// The link of two nodes comes up.
    Join(NodeName, NodeName),
    /// A node crashes with this image of its disk, and its links keep so many of its messages.
    Crash(NodeName, u64, u64),
    /// A node is to crash inside this device call of its next step, as `Crash` says.
    Arm(NodeName, u64, u64, u64),
    /// A crashed node starts from its disk.
    Start(NodeName),
    /// So many deliveries, in rounds over the links.
    Flow(u64),
    /// Every link that may come up does.
    Heal,
}

/// The events of a schedule, in order.
pub type Events = Items<Event>;
