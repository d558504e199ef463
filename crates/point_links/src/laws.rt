// The points of commands, and what their clients are told later.
ghost use Rattle.point_links.specs.AtHome.{ClosedSendsOn, OpenServes};
ghost use Rattle.point_links.specs.Barriers.{EachBarrier, MissingIsAPoint, ReservedIsAPoint};
ghost use Rattle.point_links.specs.Creates.{ActivateCreates, ActivateOfFull, ReserveOfOneReserved, ReserveOfOneThere};
ghost use Rattle.point_links.specs.Deletes.{DeactivateCloses, DeleteDeletes};
ghost use Rattle.point_links.specs.Lists.{ListIsAPoint};

/// A backend takes the ask of a command at a mailbox. Where it has the name open, the one store carries the work out in this step, and by the answer the
/// client is told what the store replies; the step counts whatever becomes of the answer, unless the store stays as it was. Where it hasn't, nothing is
/// done, and the command waits on.
pub fn an_ask_is_carried_out_where_its_name_is_open()
    ensures open { OpenServes }
    ensures closed { ClosedSendsOn }
{}

/// The master takes a line for a CREATE. At ACTIVATE the one store makes the mailbox in this step, if there is room for one more, and else it refuses the
/// CREATE. At RESERVE of a name that is active it refuses it, too. By the backend's answer the client is told what the store replies. At RESERVE of a name that is reserved the store
/// does nothing, the step doesn't count, and the command waits on.
pub fn a_create_is_carried_out_where_the_master_takes_its_line()
    ensures creates { ActivateCreates }
    ensures full { ActivateOfFull }
    ensures there { ReserveOfOneThere }
    ensures reserved { ReserveOfOneReserved }
{}

/// The master takes a line for a DELETE. At DELETE the one store takes the mailbox out in this step, and by the backend's answer the client is told what the
/// store replies. At the DEACTIVATE before it the mailbox stays, the step doesn't count, and the backend sends DELETE next.
pub fn a_delete_is_carried_out_where_the_master_takes_its_line()
    ensures deletes { DeleteDeletes }
    ensures closes { DeactivateCloses }
{}

/// The master takes the NOOP of a command. By the table of this step its client is told at the OK that the mailbox is missing, as the one store, which has
/// none, refuses the command in this step; or that the name is reserved, as a history refuses it; or a server is asked, and the command waits on.
pub fn a_barrier_is_the_point_of_what_is_told_behind_it()
    ensures missing { MissingIsAPoint }
    ensures reserved { ReservedIsAPoint }
    ensures each { EachBarrier }
{}

/// The master takes the NOOP of a LIST. In this step the mailboxes of its table are those of the one store, so the reply that is made of this table at the OK
/// is what the store replies. The step counts where the client is answered, and the store stays as it was.
pub fn a_list_is_told_of_all_mailboxes()
    ensures { ListIsAPoint }
{}
