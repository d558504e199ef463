// What the steps of the master and of a backend are to what holds of both and of the messages between them.
ghost use Rattle.back_links.specs.BackEvents.{TalkBegins, AsksKeepTalk, HearsKeepsTalk, MessagesAreServed};
ghost use Rattle.back_links.specs.Created.{CreateMakesNew};
ghost use Rattle.back_links.specs.MasterEvents.{TakesKeepsTalk, OthersKeepTalk, FrontendsKeepTalk, UpsKeepTalk, ClientsKeepTalk};
ghost use Rattle.back_links.specs.OneHome.{OpenAtOne, OpenIsNamed};
ghost use Rattle.back_links.specs.Validities.{ValiditiesDiffer};

/// What holds of a backend, of the master and of the messages between them holds when their link comes up first, and stays so in each event: the
/// backend takes what a frontend asks, or the first message of the master; the master takes the first message of the backend or of another one,
/// anything of a node that is none, or what a client from outside does.
pub fn each_event_keeps_a_talk()
    ensures begins { TalkBegins }
    ensures asks { AsksKeepTalk }
    ensures hears { HearsKeepsTalk }
    ensures takes { TakesKeepsTalk }
    ensures others { OthersKeepTalk }
    ensures frontends { FrontendsKeepTalk }
    ensures ups { UpsKeepTalk }
    ensures clients { ClientsKeepTalk }
{}

/// Of all backends with such a talk one at most has a name open, and the name's record names it.
pub fn a_name_is_open_at_one_backend()
    ensures named { OpenIsNamed }
    ensures one { OpenAtOne }
{}

/// Two mailboxes, each at the backend that its record names, have two UIDVALIDITYs.
pub fn no_two_mailboxes_have_one_uidvalidity()
    ensures { ValiditiesDiffer }
{}

/// Where the master takes the ACTIVATE of a CREATE, the backend that sent it has the new mailbox, with a UIDVALIDITY that no mailbox had.
pub fn a_create_makes_a_new_mailbox_there()
    ensures { CreateMakesNew }
{}

/// An ask for messages is carried out where the mailbox is open, and the talk goes on.
pub fn messages_are_served_meanwhile()
    ensures { MessagesAreServed }
{}
