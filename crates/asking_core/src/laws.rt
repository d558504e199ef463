// What holds of a command that waits.
ghost use Rattle.asking_core.specs.Laws.{BeginsAsDecided, BeginsToAsk, AsksTheSame, ClearedAsksTheSame, RefusedByAnswer, RefusedBehindOk, ClearedOnce};

/// A command that needs the home of a mailbox always sends something, and waits for the node to which that goes. What is asked for it stays the same,
/// whomever it asks; its session stays as it was until it has come to its end.
pub fn a_command_asks_the_same()
    ensures begins { BeginsToAsk }
    ensures decided { BeginsAsDecided }
    ensures answered { AsksTheSame }
    ensures cleared { ClearedAsksTheSame }
{}

/// It is refused only for a node that its server hasn't reached, or behind the master's OK where that is decided by the record of its name.
pub fn a_refusal_has_its_cause()
    ensures answered { RefusedByAnswer }
    ensures cleared { RefusedBehindOk }
{}

/// Behind the master's OK the master isn't asked once more.
pub fn the_master_is_asked_once_at_a_time()
    ensures { ClearedOnce }
{}
