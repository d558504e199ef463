// The laws of histories in which replies are taken back and commands are refused.
ghost use Rattle.mark_history.specs.Marked.{MakesLegalHistories};
ghost use Rattle.mark_history.specs.Moments.{LaterAreInTime, LosesTheOpen, NoneIsLater, StepsRise};

/// A step may only see a command; and what it did on condition that its client is told is taken back, as long as the client wasn't told, and another
/// step does it anew, of whatever the store is by then. What was only seen may be refused, as its mailbox is being moved. Whatever steps did so, the
/// history that their marks make is legal for what the clients were told, and leads to the store: of several steps that act on a command the last one
/// counts, and of those that saw a command that was refused.
pub fn the_last_step_counts()
    ensures { MakesLegalHistories }
{}

/// The points stand in the order of their steps, and none is of a later step than the last. Whatever steps follow, each point stands behind its command and
/// before what its client is told. A command is lost only as the first that its client wasn't told of.
pub fn points_stand_in_time()
    ensures rise { StepsRise }
    ensures made { NoneIsLater }
    ensures lost { LosesTheOpen }
    ensures in_time { LaterAreInTime }
{}
