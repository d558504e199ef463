// What the master's table and the backends' mailboxes are to the one store.
ghost use Rattle.store_links.specs.Shown.{ShowsFirst};
ghost use Rattle.store_links.specs.Given.{GivenFirst, NewIsFree, GivenAreLow};
ghost use Rattle.store_links.specs.TableEntries.{CreateIsOne, OthersMakeNone, DeleteIsOne};
ghost use Rattle.store_links.specs.Lines.{EachIsOne};
ghost use Rattle.store_links.specs.HeldEntries.{OthersChangeNone, ContentsStay, MessagesChangeOne, AnyStoreWithIt};
ghost use Rattle.store_links.specs.Steps.{AsksAreNothing, HearsAreNothing, MessageStepsAreOne};
ghost use Rattle.store_links.specs.Boxes.{BoxIsThere, EachIsABox, SameNames, AsMany, FullAlike};
ghost use Rattle.store_links.specs.OpenHome.{OpenIsMailbox, OpenIsAlike, NoneIsMissing};

/// Without mailboxes it is the empty store, which gave no UIDVALIDITY.
pub fn no_mailbox_is_the_empty_store()
    ensures shows { ShowsFirst }
    ensures given { GivenFirst }
{}

/// A UIDVALIDITY that the master gives is free at the store, and none that the store gave is above the master's last.
pub fn a_uidvalidity_is_free()
    ensures free { NewIsFree }
    ensures low { GivenAreLow }
{}

/// Where the master takes the ACTIVATE of a CREATE, the store makes the mailbox: empty, under the same UIDVALIDITY, and with the same access list.
pub fn an_activate_is_a_create()
    ensures { CreateIsOne }
{}

/// Where the master takes the DELETE of a mailbox, the store removes it. No other entry of the master makes or removes one.
pub fn only_a_delete_removes_a_mailbox()
    ensures delete { DeleteIsOne }
    ensures others { OthersMakeNone }
{}

/// A line of a backend that the master takes, on a link of which all holds that `name_links` says, makes one mailbox for a client's CREATE, removes one for
/// a client's DELETE, or leaves the store as it is.
pub fn a_line_is_one_command_or_nothing()
    ensures { EachIsOne }
{}

/// An entry about messages changes its mailbox at the store as it does at the backend, and no other mailbox. The backend's other entries change none.
pub fn only_messages_change_a_mailbox()
    ensures messages { MessagesChangeOne }
    ensures any { AnyStoreWithIt }
    ensures others { OthersChangeNone }
    ensures still { ContentsStay }
{}

/// On a link of which all holds that `name_links` says, a backend's message step is one of the store, and what comes of CREATE and DELETE leaves the
/// store as it is.
pub fn a_step_changes_messages_or_nothing()
    ensures asks { AsksAreNothing }
    ensures hears { HearsAreNothing }
    ensures serves { MessageStepsAreOne }
{}

/// The store's box of a mailbox is what the server of its record has. The names of mailboxes in the table are those of the store's boxes, so there
/// are as many, and the store is full exactly where the master takes no name more.
pub fn each_mailbox_is_a_box()
    ensures there { BoxIsThere }
    ensures each { EachIsABox }
    ensures names { SameNames }
    ensures many { AsMany }
    ensures full { FullAlike }
{}

/// A mailbox that is open at its record's server is there as the store has it, and a name that is no mailbox isn't in the store.
pub fn an_open_mailbox_is_the_stores()
    ensures mailbox { OpenIsMailbox }
    ensures alike { OpenIsAlike }
    ensures none { NoneIsMissing }
{}
