// Lines of clients, one for each verb, and the command that each is.
ghost use Rattle.std.specs.Prelude.{◌≡◌, ◌++◌, [], ◌∷◌, codes, None, Some, true, false};
ghost use Rattle.mur_base.specs.Ascii.{crlf};
ghost use Rattle.mail_message.specs.FlagSets.{no_flags, with_flag};
ghost use Rattle.mail_message.specs.declared.flag_name.FlagName.TheVariants.{System};
ghost use Rattle.mail_message.specs.declared.item.Item.TheVariants.{Flags, Body};
ghost use Rattle.mail_message.specs.declared.key.Key.TheVariants.{Unseen};
ghost use Rattle.mail_message.specs.declared.mode.Mode.TheVariants.{Replace, Add};
ghost use Rattle.mail_message.specs.declared.set.SetEnd.TheVariants.{Number, Last};
ghost use Rattle.mail_message.specs.declared.set.SetPart.TheVariants.{One, Range};
ghost use Rattle.mail_message.specs.declared.system_flags.SystemFlag.TheVariants.{Seen};
ghost use Rattle.imap_types.specs.declared.command.Command.TheVariants.{Append, List as ListNames, Authenticate, Capability, Close, Copy, Create, Delete};
ghost use Rattle.imap_types.specs.declared.command.Command.TheVariants.{Enable, Examine, Expunge, Fetch, Idle, LeftOut, Login, Logout, Noop, Search};
ghost use Rattle.imap_types.specs.declared.command.Command.TheVariants.{Select, Status, Store, Unselect, Xfer};
ghost use Rattle.imap_types.specs.declared.command.StatusItem.TheVariants.{Messages, UidNext};
ghost use Rattle.imap_types.specs.declared.command.Tag.TheVariants.{Text};
ghost use Rattle.imap_types.specs.declared.request.Request.TheVariants.{Unknown};
ghost use Rattle.imap_command.specs.LineFor.{IsLineFor};
ghost use Rattle.imap_command.specs.Request.{request_of};

/// A line of each verb asks for its command, and one of no verb for none (RFC 9051, 6).
pub fn each_verb_is_read()
    ensures capability { IsLineFor (codes "CAPABILITY") Capability }
    ensures noop { IsLineFor (codes "NOOP") Noop }
    ensures logout { IsLineFor (codes "LOGOUT") Logout }
    ensures login { IsLineFor (codes "LOGIN joe secret") (Login (codes "joe") (codes "secret")) }
    ensures authenticate { IsLineFor (codes "AUTHENTICATE PLAIN") (Authenticate None) }
    ensures enable { IsLineFor (codes "ENABLE CONDSTORE") (Enable (codes "CONDSTORE" ∷ [])) }
    ensures create { IsLineFor (codes "CREATE x") (Create (codes "x")) }
    ensures any_case { IsLineFor (codes "cReAtE x") (Create (codes "x")) }
    ensures delete { IsLineFor (codes "DELETE x") (Delete (codes "x")) }
    ensures select { IsLineFor (codes "SELECT x") (Select (codes "x")) }
    ensures examine { IsLineFor (codes "EXAMINE x") (Examine (codes "x")) }
    ensures status { IsLineFor (codes "STATUS x (MESSAGES UIDNEXT)") (Status (codes "x") (Messages ∷ UidNext ∷ [])) }
    ensures append { IsLineFor (codes "APPEND x {2}" ++ crlf ++ codes "hi") (Append (codes "x") no_flags None (codes "hi")) }
    ensures append_flags { IsLineFor (codes "APPEND x (\\Seen) {2+}" ++ crlf ++ codes "hi")
        (Append (codes "x") (with_flag no_flags (System Seen)) None (codes "hi")) }
    ensures idle { IsLineFor (codes "IDLE") (Idle None) }
    ensures close { IsLineFor (codes "CLOSE") Close }
    ensures unselect { IsLineFor (codes "UNSELECT") Unselect }
    ensures expunge { IsLineFor (codes "EXPUNGE") (Expunge None) }
    ensures uid_expunge { IsLineFor (codes "UID EXPUNGE 1") (Expunge (Some (One (Number 1) ∷ []))) }
    ensures search { IsLineFor (codes "SEARCH UNSEEN") (Search false (Unseen ∷ [])) }
    ensures uid_search { IsLineFor (codes "UID SEARCH UNSEEN") (Search true (Unseen ∷ [])) }
    ensures fetch { IsLineFor (codes "FETCH 1 FLAGS") (Fetch false (One (Number 1) ∷ []) (Flags ∷ [])) }
    ensures uid_fetch { IsLineFor (codes "UID FETCH 1:* BODY[]") (Fetch true (Range (Number 1) Last ∷ []) (Body None ∷ [])) }
    ensures store { IsLineFor (codes "STORE 1 +FLAGS (\\Seen)") (Store false (One (Number 1) ∷ []) Add false (with_flag no_flags (System Seen))) }
    ensures uid_store { IsLineFor (codes "UID STORE 1 FLAGS ()") (Store true (One (Number 1) ∷ []) Replace false no_flags) }
    ensures copy { IsLineFor (codes "COPY 1 x") (Copy false (One (Number 1) ∷ []) (codes "x")) }
    ensures uid_copy { IsLineFor (codes "UID COPY 1 x") (Copy true (One (Number 1) ∷ []) (codes "x")) }
    ensures list { IsLineFor (codes "LIST x *") (ListNames (codes "x") (codes "*")) }
    ensures xfer { IsLineFor (codes "XFER x b2") (Xfer (codes "x") (codes "b2") None) }
    ensures left_out { IsLineFor (codes "RENAME x y") (LeftOut (codes "RENAME x y")) }
    ensures unknown { request_of (codes "a CREAT x" ++ crlf) ≡ Unknown (Text (codes "a")) }
{}
