// How the nodes of a service act.
ghost use Rattle.record_merge.specs.Rules.{Rules};

/// How the nodes of a service act. It has no code: the nodes' own calls prove that they act so.
pub trait NodeRules {
    type State;

    type Input;

    type Output;

    type Message;

    /// A node's state and outputs after an input, and how messages travel between nodes.
    ghost rules: { Rules Self.State Self.Input Self.Output Self.Message };
}
