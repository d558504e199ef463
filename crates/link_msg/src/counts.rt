// When a step counts.

/// When a step counts as the point of its command in the history.
#[derive(Clone, Copy, Debug, PartialEq, Eq)]
pub enum Counts {
    /// Whatever becomes of the command, also where its client is never answered.
    Always,
    /// Only where its client is answered: a command that is never answered wasn't carried out in this step.
    IfAnswered,
}
