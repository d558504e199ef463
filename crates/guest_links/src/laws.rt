// What steps of the master are to a client from outside.
ghost use Rattle.guest_links.specs.Reading.{WatchersHaveTheTable, LinesAreReadInOneWay};
ghost use Rattle.guest_links.specs.Served.{EachStepServes, EndsAreFinal, WatchersStayInOrder, ChangesAreOfTheTable, DialogIsTheMasters, NobodyAtFirst, ClientsHaveTheirDialogs};

/// Whatever happens at the master, it has a client from outside as its dialog says, and gives it exactly what the dialog gains: the greeting, the
/// answers to its own lines by the table of that step, and the line of each change while it watches. What others do gives it nothing else, and it is
/// given nothing behind LOGOUT or a close.
pub fn each_step_serves_a_client()
    ensures serves { EachStepServes }
    ensures ends { EndsAreFinal }
    ensures order { WatchersStayInOrder }
    ensures changes { ChangesAreOfTheTable }
    ensures dialog { DialogIsTheMasters }
{}

/// All bytes that a client was given since it connected are those of its dialog. To a master that starts nobody has connected.
pub fn a_client_is_given_its_dialog()
    ensures given { ClientsHaveTheirDialogs }
    ensures start { NobodyAtFirst }
{}

/// What a client was given since its UPDATE are lines of the master that make the records of the table of now, at any moment. There is one way
/// to read them.
pub fn what_a_watcher_was_told_is_the_table()
    ensures table { WatchersHaveTheTable }
    ensures one { LinesAreReadInOneWay }
{}
