// SELECT and EXAMINE (RFC 9051, 6.3.2 and 6.3.3).
ghost use Rattle.std.specs.Prelude.{[], ◌∷◌};
ghost use Rattle.reply_law.specs.Scenes.{as_admin, as_bob, selected};
ghost use Rattle.reply_law.specs.Talk.{IsAnswered, IsTalk, first};

/// The lines of each, in their order.
pub fn a_mailbox_is_selected()
    ensures to_change { IsAnswered as_bob "a SELECT INBOX"
        ("* FLAGS (\\Answered \\Flagged \\Deleted \\Seen \\Draft $Fwd Work)" ∷ "* 4 EXISTS" ∷ "* LIST () \".\" INBOX"
        ∷ "* OK [PERMANENTFLAGS (\\Answered \\Flagged \\Deleted \\Seen \\Draft $Fwd Work \\*)] flags" ∷ "* OK [UIDNEXT 12] next"
        ∷ "* OK [UIDVALIDITY 7] validity" ∷ "a OK [READ-WRITE] SELECT completed" ∷ []) }
    ensures to_read { IsAnswered as_bob "a EXAMINE inbox"
        ("* FLAGS (\\Answered \\Flagged \\Deleted \\Seen \\Draft $Fwd Work)" ∷ "* 4 EXISTS" ∷ "* LIST () \".\" INBOX"
        ∷ "* OK [PERMANENTFLAGS ()] flags" ∷ "* OK [UIDNEXT 12] next" ∷ "* OK [UIDVALIDITY 7] validity" ∷ "a OK [READ-ONLY] EXAMINE completed" ∷ []) }
    ensures empty { IsAnswered as_admin "a SELECT \"user.bob.To do\""
        ("* FLAGS (\\Answered \\Flagged \\Deleted \\Seen \\Draft)" ∷ "* 0 EXISTS" ∷ "* LIST () \".\" \"user.bob.To do\""
        ∷ "* OK [PERMANENTFLAGS (\\Answered \\Flagged \\Deleted \\Seen \\Draft \\*)] flags" ∷ "* OK [UIDNEXT 1] next" ∷ "* OK [UIDVALIDITY 4] validity"
        ∷ "a OK [READ-WRITE] SELECT completed" ∷ []) }
    ensures in_place_of_one { IsAnswered selected "a SELECT \"INBOX.To do\""
        ("* OK [CLOSED] closed" ∷ "* FLAGS (\\Answered \\Flagged \\Deleted \\Seen \\Draft)" ∷ "* 0 EXISTS" ∷ "* LIST () \".\" \"INBOX.To do\""
        ∷ "* OK [PERMANENTFLAGS (\\Answered \\Flagged \\Deleted \\Seen \\Draft \\*)] flags" ∷ "* OK [UIDNEXT 1] next" ∷ "* OK [UIDVALIDITY 4] validity"
        ∷ "a OK [READ-WRITE] SELECT completed" ∷ []) }
    ensures not_expunged { IsTalk selected (first "a EXAMINE \"INBOX.To do\""
        ("* OK [CLOSED] closed" ∷ "* FLAGS (\\Answered \\Flagged \\Deleted \\Seen \\Draft)" ∷ "* 0 EXISTS" ∷ "* LIST () \".\" \"INBOX.To do\""
        ∷ "* OK [PERMANENTFLAGS ()] flags" ∷ "* OK [UIDNEXT 1] next" ∷ "* OK [UIDVALIDITY 4] validity" ∷ "a OK [READ-ONLY] EXAMINE completed" ∷ [])
        ∷ first "b STATUS INBOX (MESSAGES DELETED)" ("* STATUS INBOX (MESSAGES 4 DELETED 1)" ∷ "b OK STATUS completed" ∷ []) ∷ []) }
{}

/// A refusal deselects the mailbox that was selected before (RFC 9051, 6.3.2).
pub fn a_mailbox_is_not_selected()
    ensures missing { IsTalk selected (first "a SELECT INBOX.none" ("* OK [CLOSED] closed" ∷ "a NO [NONEXISTENT] no such mailbox" ∷ [])
        ∷ first "b FETCH 1 UID" ("b BAD not in this state" ∷ []) ∷ []) }
    ensures no_right { IsTalk selected (first "a EXAMINE user.amy" ("* OK [CLOSED] closed" ∷ "a NO [NOPERM] not permitted" ∷ [])
        ∷ first "b CLOSE" ("b BAD not in this state" ∷ []) ∷ []) }
    ensures no_name { IsTalk selected (first "a SELECT a..b" ("* OK [CLOSED] closed" ∷ "a NO [NONEXISTENT] no such mailbox" ∷ [])
        ∷ first "b NOOP" ("b OK NOOP completed" ∷ []) ∷ []) }
    ensures none_before { IsAnswered as_bob "a EXAMINE INBOX.none" ("a NO [NONEXISTENT] no such mailbox" ∷ []) }
    ensures syntax { IsTalk selected (first "a SELECT" ("a BAD syntax error" ∷ []) ∷ first "b FETCH 1 UID" ("* 1 FETCH (UID 3)" ∷ "b OK FETCH completed" ∷ []) ∷ []) }
{}
