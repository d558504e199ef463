// Merged logs are a run, and stamps stay small.
ghost use Rattle.record_merge.specs.RunsAsLogged.{MergedRuns};
ghost use Rattle.record_merge.specs.Stamps.{StampsCount};

use crate::rules::NodeRules;

/// Logs whose stamps rise are merged into an order of steps whose run, one step at a time, gives each node the inputs of its log in
/// their order. So each node ends as the replay of its log, and has put out just what the replay does. What a log took from another
/// node has to be a beginning of what that node's link had at the start and of what the replay of that node's log sends.
pub fn merged_logs_run_as_logged<N: NodeRules>()
    ensures { MergedRuns N.rules }
{}

/// If each stamp is one more than the greater of the last one and the one heard, no stamp is above the number of steps of all
/// logs. So no log is full because of a stamp.
pub fn stamps_stay_within_the_number_of_steps<N: NodeRules>()
    ensures { StampsCount N.rules }
{}
