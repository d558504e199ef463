// What holds of commands and barriers whatever records there are.
ghost use Rattle.ask_routes.specs.Barrier.{OkTellsItsCommand};
ghost use Rattle.ask_routes.specs.WayLaws.{EachAbout, EachFirst, EachAnswered, EachBehind};

/// Nothing is told of a mailbox at first, nor behind the answer of a home that hasn't it: a server is asked, or there is a barrier. Behind its OK the command
/// doesn't wait again: only a name without a record is missing, and only a reserved one, which a home couldn't serve, is refused.
pub fn nothing_is_told_before_the_ok()
    ensures about { EachAbout }
    ensures first { EachFirst }
    ensures answered { EachAnswered }
    ensures behind { EachBehind }
{}

/// The OK of a barrier is a line of its command, by its tag.
pub fn an_ok_tells_its_command()
    ensures { OkTellsItsCommand }
{}
