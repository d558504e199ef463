// The nodes to which a frontend's link is up.
use mur_base::{Map, NodeName};

/// The nodes whose `Up` came, and whose `End` didn't come since.
pub type Ups = Map<NodeName, ()>;
