// What a barrier is to the master's table and to the one store.
ghost use Rattle.route_links.specs.Answered.{IsANoop, NoopIsAnswered, OkIsRead, OkIsNoNews};
ghost use Rattle.route_links.specs.AsTheStore.{MissingHasNoBox, NamesAreTheStores, RefusedIsReserved, AskedHasTheBox, DecidesAsTheStore};
ghost use Rattle.route_links.specs.Decided.{ByItsTable, NamesOfItsTable};
ghost use Rattle.route_links.specs.Events.{First, Begins, SendsOther, Breaks, ComesUp, Hears, Takes, TakesNoop, OthersAreTaken, ClientsComeAndGo, Decides};

/// Whoever sends the NOOP of a command, the master answers in the same step: by an OK that is read as the OK of this command and changes no replica, and
/// with the command's mark, which counts where its client is answered.
pub fn a_noop_is_answered_at_once()
    ensures noop { IsANoop }
    ensures answered { NoopIsAnswered }
    ensures read { OkIsRead }
    ensures quiet { OkIsNoNews }
{}

/// A barrier begins where the frontend sends the NOOP, is answered where the master takes it, and ends where the frontend takes its OK; each other event
/// leaves it where it is, as does a link that breaks. Where that comes up again, no command has a barrier.
pub fn each_event_keeps_a_barrier()
    ensures first { First }
    ensures begins { Begins }
    ensures sends { SendsOther }
    ensures hears { Hears }
    ensures breaks { Breaks }
    ensures comes_up { ComesUp }
    ensures takes { Takes }
    ensures answers { TakesNoop }
    ensures others { OthersAreTaken }
    ensures clients { ClientsComeAndGo }
{}

/// Where the frontend takes the OK, its replica has all of the table of the step in which the master took the NOOP, and it decides by that table.
pub fn a_barrier_decides_by_the_table()
    ensures decides { Decides }
    ensures table { ByItsTable }
    ensures names { NamesOfItsTable }
{}

/// So it decides as the store of that step has it: a name that is told missing has no box, the names of the boxes are listed, a name that is refused is
/// reserved, and the server that is asked has the box.
pub fn a_barrier_decides_as_the_store()
    ensures missing { MissingHasNoBox }
    ensures listed { NamesAreTheStores }
    ensures refused { RefusedIsReserved }
    ensures asked { AskedHasTheBox }
    ensures decides { DecidesAsTheStore }
{}
