// EXPUNGE and UID EXPUNGE (RFC 9051, 6.4.3, 6.4.9 and 7.5.1).
ghost use Rattle.std.specs.Prelude.{[], ◌∷◌};
ghost use Rattle.reply_law.specs.Scenes.{both_selected_two, examined, selected};
ghost use Rattle.reply_law.specs.Talk.{IsAnswered, IsTalk, first, second};

/// The messages with `\Deleted` go, and no others; each is told by its number after the earlier ones.
pub fn messages_are_expunged()
    ensures one { IsTalk selected (first "a EXPUNGE" ("* 3 EXPUNGE" ∷ "a OK EXPUNGE completed" ∷ [])
        ∷ first "b FETCH 1:* UID" ("* 1 FETCH (UID 3)" ∷ "* 2 FETCH (UID 5)" ∷ "* 3 FETCH (UID 9)" ∷ "b OK FETCH completed" ∷ [])
        ∷ first "c STATUS INBOX (MESSAGES UIDNEXT)" ("* STATUS INBOX (MESSAGES 3 UIDNEXT 12)" ∷ "c OK STATUS completed" ∷ []) ∷ []) }
    ensures three { IsTalk selected (first "a STORE 1,4 +FLAGS.SILENT (\\Deleted)" ("a OK STORE completed" ∷ [])
        ∷ first "b EXPUNGE" ("* 1 EXPUNGE" ∷ "* 2 EXPUNGE" ∷ "* 2 EXPUNGE" ∷ "b OK EXPUNGE completed" ∷ [])
        ∷ first "c UID FETCH 1:* UID" ("* 1 FETCH (UID 5)" ∷ "c OK UID FETCH completed" ∷ []) ∷ []) }
    ensures none { IsTalk selected (first "a STORE 3 -FLAGS.SILENT (\\Deleted)" ("a OK STORE completed" ∷ []) ∷ first "b EXPUNGE" ("b OK EXPUNGE completed" ∷ []) ∷ []) }
    ensures by_uid { IsTalk selected (first "a STORE 1,2 +FLAGS.SILENT (\\Deleted)" ("a OK STORE completed" ∷ [])
        ∷ first "b UID EXPUNGE 5,9,100" ("* 2 EXPUNGE" ∷ "b OK UID EXPUNGE completed" ∷ [])
        ∷ first "c FETCH 1:* FLAGS" ("* 1 FETCH (FLAGS (\\Deleted \\Seen))" ∷ "* 2 FETCH (FLAGS (\\Answered \\Deleted $Fwd Work))" ∷ "* 3 FETCH (FLAGS (\\Flagged \\Draft))" ∷ "c OK FETCH completed" ∷ []) ∷ []) }
    ensures not_named { IsAnswered selected "a UID EXPUNGE 3:5" ("a OK UID EXPUNGE completed" ∷ []) }
    ensures read_only { IsTalk examined (first "a EXPUNGE" ("a NO [CANNOT] cannot be done" ∷ [])
        ∷ first "b UID EXPUNGE 8" ("b NO [CANNOT] cannot be done" ∷ [])
        ∷ first "c STATUS INBOX (MESSAGES)" ("* STATUS INBOX (MESSAGES 4)" ∷ "c OK STATUS completed" ∷ []) ∷ []) }
{}

/// A message that another session expunged keeps its number until that is told: a FETCH by numbers leaves it out and says so, and the next NOOP
/// tells it (RFC 9051, 7.1: EXPUNGEISSUED; 7.5.1).
pub fn an_expunged_message_keeps_its_number()
    ensures { IsTalk both_selected_two (second "b5 STORE 1 +FLAGS.SILENT (\\Deleted)" ("b5 OK STORE completed" ∷ [])
        ∷ second "b6 EXPUNGE" ("* 1 EXPUNGE" ∷ "b6 OK EXPUNGE completed" ∷ [])
        ∷ first "c3 FETCH 1:2 (UID)" ("* 2 FETCH (UID 2)" ∷ "c3 OK [EXPUNGEISSUED] FETCH completed" ∷ [])
        ∷ first "c4 NOOP" ("* 1 EXPUNGE" ∷ "c4 OK NOOP completed" ∷ []) ∷ []) }
{}
