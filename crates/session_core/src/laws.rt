// What a session makes of a refusal for a move or for a server, as laws.
ghost use Rattle.std.specs.Prelude.{◌≡◌, ℕ, List, Some};
ghost use Rattle.imap_types.specs.Reply.{refused};
ghost use Rattle.imap_types.specs.declared.command.Command.{Command};
ghost use Rattle.imap_types.specs.declared.reply.NoText.{NoText};
ghost use Rattle.mur_base.specs.declared.point.What.{What};
ghost use Rattle.mur_model.specs.Act.{need_of};
ghost use Rattle.mur_model.specs.Asking.{asked_for};
ghost use Rattle.mur_model.specs.Left.{replied};
ghost use Rattle.mur_model.specs.Needed.{Mailbox, Names, Work};
ghost use Rattle.mur_model.specs.Relocation.{cause_text, refused_for};
ghost use Rattle.mur_model.specs.declared.commands.list.Listing.{Listing};
ghost use Rattle.mur_model.specs.declared.session.Sess.{Sess};
ghost use Rattle.mur_model.specs.declared.setting.Setting.{Setting};
ghost use Rattle.session_core.specs.Relocated.{goes_on, relocated};

/// A session whose command needs a mailbox, and that is told a cause why no home answers, gives the reply of one store's history to a command that is
/// refused for that cause, and goes on as there. So does one whose command needs the names of all mailboxes: its session stays as it is.
pub fn a_refusal_is_as_in_the_history()
    ensures mailbox { (setting : Setting) (session : Sess) (it : Command) (name : List ℕ) (work : Work) (what : What) (why : NoText)
        → need_of setting session it ≡ Mailbox name work → cause_text what ≡ Some why
        → relocated session (asked_for name work).awaited what ≡ goes_on session (refused_for session it why) }
    ensures names { (setting : Setting) (session : Sess) (it : Command) (listing : Listing) (why : NoText)
        → need_of setting session it ≡ Names listing → refused_for session it why ≡ replied (refused why) }
{}
