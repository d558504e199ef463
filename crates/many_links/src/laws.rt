// What holds of the master, all backends, the links between all nodes, and the one store.
ghost use Rattle.many_links.specs.Runs.{RunsHold};
ghost use Rattle.many_links.specs.Start.{ManyBegin, ThereIsAStart};
ghost use Rattle.many_links.specs.FrontEvents.{OutsKeepMany, PassingKeepsMany, AlikeHold};
ghost use Rattle.many_links.specs.HomeEvents.{HearsKeepsMany, AsksKeepMany, ServesKeepsMany, AlikeHasIt};
ghost use Rattle.many_links.specs.MasterEvents.{TakesKeepsMany, ExactlyOne, FrontendsKeepMany, UpsKeepMany, ClientsKeepMany};
ghost use Rattle.many_links.specs.OtherSteps.{OthersCarryNone, MasterAsksNothing, FrontendsCarryNone, ClientsCarryNone};
ghost use Rattle.many_links.specs.OpenNames.{OpenIsTheStores, OneHasItOpen, NoMailboxIsNowhere, MailboxesAreBoxes, BoxesDiffer};

/// It holds where all nodes are new, and the link of each backend with the master just came up. The store is empty then. There is such a start, with a
/// backend at each of some places.
pub fn many_hold_at_the_start()
    ensures begin { ManyBegin }
    ensures there { ThereIsAStart }
{}

/// It holds after a backend took the first message of the master, or any message of another node. The store stays, unless an ask for messages comes
/// where its mailbox is open: then it is any store that has of the mailbox what the backend has now, and of the others what it had.
pub fn each_step_of_a_backend_keeps_it()
    ensures hears { HearsKeepsMany }
    ensures asks { AsksKeepMany }
    ensures serves { ServesKeepsMany }
    ensures alike { AlikeHasIt }
{}

/// It holds after the master took the first message of a backend, for which the store does exactly one of these: it makes one mailbox for a client's
/// CREATE, removes one for a client's DELETE, or does nothing. It holds after the master took anything of a node that is no backend, after one of its
/// links came up, and after whatever a client from outside did, for which the store does nothing.
pub fn each_step_of_the_master_keeps_it()
    ensures takes { TakesKeepsMany }
    ensures exactly { ExactlyOne }
    ensures frontends { FrontendsKeepMany }
    ensures ups { UpsKeepMany }
    ensures clients { ClientsKeepMany }
{}

/// It holds whatever a frontend lets out, and after a message from or to one is taken off its link; and it is of the master, the backends and the
/// links between these alone.
pub fn frontends_keep_it()
    ensures outs { OutsKeepMany }
    ensures passing { PassingKeepsMany }
    ensures alike { AlikeHold }
{}

/// It holds after any of these events, one after another from a start on.
pub fn many_hold_after_any_events()
    ensures { RunsHold }
{}

/// In no step of a backend or the master for which the store does nothing is a command of a client carried out: if the step counts for one, then only
/// where its client is answered.
pub fn no_other_step_carries_a_command_out()
    ensures others { OthersCarryNone }
    ensures lines { MasterAsksNothing }
    ensures frontends { FrontendsCarryNone }
    ensures clients { ClientsCarryNone }
{}

/// A name that is open at a backend is there as the store has it, its record names the backend, and asks for its messages are carried out there. It is
/// open at no other backend. A name that is no mailbox is in no store, and open nowhere.
pub fn an_open_name_is_the_stores()
    ensures stores { OpenIsTheStores }
    ensures one { OneHasItOpen }
    ensures none { NoMailboxIsNowhere }
{}

/// The names of mailboxes in the master's table are those of the store's boxes, and as many. No two boxes have one UIDVALIDITY, and as long as the
/// master has one left, so has the store.
pub fn the_boxes_are_the_mailboxes()
    ensures same { MailboxesAreBoxes }
    ensures differ { BoxesDiffer }
{}
