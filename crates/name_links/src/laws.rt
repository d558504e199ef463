// What the steps of the master and of a backend are to each name.
ghost use Rattle.name_links.specs.MasterLaw.{StepIsReply, RecordIsOne, AnswersAreOne, AnswersTakeOff, OthersHearNothing};
ghost use Rattle.name_links.specs.Spelled.{CommandsAreSpelled, ResponsesAreSpelled};
ghost use Rattle.name_links.specs.Reading.{LinesAreRead, ResponsesAreRead, LinesAreMeant};
ghost use Rattle.name_links.specs.LinkIs.{HoldsFirst, AsksKeepIt, HearsKeepsIt, TakesKeepsIt, OthersKeepIt, ServesKeepsIt};
ghost use Rattle.name_links.specs.Contents.{ContentsFirst, AsksKeepContents, HearsKeepsContents, TakesKeepsContents, OthersKeepContents, ServesKeepsContents};
ghost use Rattle.name_links.specs.Contents.{AsksLeaveContents, HearsLeavesContents};
ghost use Rattle.name_links.specs.Serials.{SerialsFirst, LinesKeepSerials, CreateMakesOne};
ghost use Rattle.name_links.specs.Serials.{BoxesFirst, AsksKeepBoxes, HearsKeepsBoxes, TakesKeepsBoxes, OthersKeepBoxes, ServesKeepsBoxes, MailboxesDiffer};

/// A line of a backend is to each name what the master does with it in the protocol of one name, whatever the line, and whether it is refused.
pub fn a_line_is_one_of_each_name()
    ensures step { StepIsReply }
    ensures known { RecordIsOne }
    ensures answers { AnswersAreOne }
    ensures left { AnswersTakeOff }
    ensures others { OthersHearNothing }
{}

/// Lines whose names are names, whose locations are locations and whose texts aren't too long are read as they were sent, and a backend's line is what
/// it meant.
pub fn a_line_is_what_was_sent()
    ensures commands_spelled { CommandsAreSpelled }
    ensures responses_spelled { ResponsesAreSpelled }
    ensures lines { LinesAreRead }
    ensures responses { ResponsesAreRead }
    ensures meant { LinesAreMeant }
{}

/// The invariant of one name holds of every name when a link comes up first, and on a whole link each event keeps it: a frontend's ask comes to the
/// backend, the backend takes a response, the master takes a line of the backend, or of another one, or the backend changes messages.
pub fn each_event_keeps_every_name()
    ensures first { HoldsFirst }
    ensures asks { AsksKeepIt }
    ensures hears { HearsKeepsIt }
    ensures takes { TakesKeepsIt }
    ensures others { OthersKeepIt }
    ensures serves { ServesKeepsIt }
{}

/// A mailbox is at the server of its record, with the record's access list. What a CREATE has made is empty, and has the serial under which its
/// name is reserved; so the ACTIVATE on its way has that mailbox's access list. This holds first, and each event keeps it.
pub fn each_event_keeps_every_content()
    ensures first { ContentsFirst }
    ensures asks { AsksKeepContents }
    ensures hears { HearsKeepsContents }
    ensures takes { TakesKeepsContents }
    ensures others { OthersKeepContents }
    ensures serves { ServesKeepsContents }
{}

/// Only message steps change what a mailbox contains.
pub fn a_content_is_changed_by_message_steps()
    ensures asks { AsksLeaveContents }
    ensures hears { HearsLeavesContents }
{}

/// No UIDVALIDITY is given twice, and each that a name gets is above those that it had, whatever line of a backend the master takes. RESERVE wastes
/// serials: where ACTIVATE is refused, its serial is given to nobody.
pub fn no_uidvalidity_is_given_twice()
    ensures first { SerialsFirst }
    ensures lines { LinesKeepSerials }
{}

/// Each mailbox has the UIDVALIDITY that its name was given, so that no two have one, at one backend or at two. This holds first, and each event keeps
/// it.
pub fn each_mailbox_has_what_it_was_given()
    ensures first { BoxesFirst }
    ensures asks { AsksKeepBoxes }
    ensures hears { HearsKeepsBoxes }
    ensures takes { TakesKeepsBoxes }
    ensures others { OthersKeepBoxes }
    ensures serves { ServesKeepsBoxes }
    ensures differ { MailboxesDiffer }
{}

/// Where the master takes the ACTIVATE of a CREATE, the backend has the new mailbox: it is empty, with its first access list, and with a UIDVALIDITY
/// that no mailbox had.
pub fn a_create_makes_a_new_mailbox()
    ensures { CreateMakesOne }
{}
