// CLOSE and UNSELECT (RFC 9051, 6.4.1 and 6.4.2).
ghost use Rattle.std.specs.Prelude.{[], ◌∷◌};
ghost use Rattle.reply_law.specs.Scenes.{both_selected, examined, selected};
ghost use Rattle.reply_law.specs.Talk.{IsTalk, first, second};

/// CLOSE expunges without a line, unless EXAMINE selected the mailbox; UNSELECT expunges nothing. No mailbox is selected then.
pub fn a_mailbox_is_closed()
    ensures expunges { IsTalk selected (first "a CLOSE" ("a OK CLOSE completed" ∷ [])
        ∷ first "b STATUS INBOX (MESSAGES DELETED)" ("* STATUS INBOX (MESSAGES 3 DELETED 0)" ∷ "b OK STATUS completed" ∷ [])
        ∷ first "c FETCH 1 UID" ("c BAD not in this state" ∷ []) ∷ []) }
    ensures told_to_others { IsTalk both_selected (first "a CLOSE" ("a OK CLOSE completed" ∷ [])
        ∷ second "b NOOP" ("* 3 EXPUNGE" ∷ "b OK NOOP completed" ∷ []) ∷ []) }
    ensures read_only { IsTalk examined (first "a CLOSE" ("a OK CLOSE completed" ∷ [])
        ∷ first "b STATUS INBOX (MESSAGES DELETED)" ("* STATUS INBOX (MESSAGES 4 DELETED 1)" ∷ "b OK STATUS completed" ∷ [])
        ∷ first "c FETCH 1 UID" ("c BAD not in this state" ∷ []) ∷ []) }
    ensures unselect { IsTalk selected (first "a UNSELECT" ("a OK UNSELECT completed" ∷ [])
        ∷ first "b STATUS INBOX (MESSAGES DELETED)" ("* STATUS INBOX (MESSAGES 4 DELETED 1)" ∷ "b OK STATUS completed" ∷ [])
        ∷ first "c FETCH 1 UID" ("c BAD not in this state" ∷ []) ∷ []) }
{}
