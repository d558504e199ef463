// What clients are told of what others changed (RFC 9051, 7.4 and 7.5).
ghost use Rattle.std.specs.Prelude.{[], ◌∷◌};
ghost use Rattle.reply_law.specs.Scenes.{both_selected, changed_behind, replaced};
ghost use Rattle.reply_law.specs.Talk.{IsAnswered, IsTalk, first, second};

/// Each kind alone, and each once.
pub fn changes_are_told_once()
    ensures flags { IsTalk both_selected (second "b STORE 1 FLAGS (\\Draft)" ("* 1 FETCH (FLAGS (\\Draft))" ∷ "b OK STORE completed" ∷ [])
        ∷ first "a NOOP" ("* 1 FETCH (UID 3 FLAGS (\\Draft))" ∷ "a OK NOOP completed" ∷ []) ∷ first "a NOOP" ("a OK NOOP completed" ∷ []) ∷ []) }
    ensures more { IsTalk both_selected (second "b APPEND INBOX {1+}\r\nx" ("b OK [APPENDUID 7 12] APPEND completed" ∷ [])
        ∷ first "a NOOP" ("* 5 EXISTS" ∷ "a OK NOOP completed" ∷ []) ∷ first "a NOOP" ("a OK NOOP completed" ∷ []) ∷ []) }
    ensures fewer { IsTalk both_selected (second "b EXPUNGE" ("* 3 EXPUNGE" ∷ "b OK EXPUNGE completed" ∷ [])
        ∷ first "a NOOP" ("* 3 EXPUNGE" ∷ "a OK NOOP completed" ∷ []) ∷ first "a NOOP" ("a OK NOOP completed" ∷ []) ∷ []) }
    ensures flags_back { IsTalk both_selected (second "b STORE 1 -FLAGS.SILENT (\\Seen)" ("b OK STORE completed" ∷ [])
        ∷ second "c STORE 1 +FLAGS.SILENT (\\Seen)" ("c OK STORE completed" ∷ []) ∷ first "a NOOP" ("a OK NOOP completed" ∷ []) ∷ []) }
{}

/// Another session took `\Seen` from the first message, expunged the third and appended one: which command tells what, and in which order.
pub fn changes_are_told_in_order()
    ensures noop { IsTalk changed_behind (first "a NOOP" ("* 3 EXPUNGE" ∷ "* 4 EXISTS" ∷ "* 1 FETCH (UID 3 FLAGS ())" ∷ "a OK NOOP completed" ∷ [])
        ∷ first "a NOOP" ("a OK NOOP completed" ∷ []) ∷ []) }
    ensures fetch { IsTalk changed_behind (first "a FETCH 2 UID" ("* 2 FETCH (UID 5)" ∷ "* 5 EXISTS" ∷ "* 1 FETCH (UID 3 FLAGS ())" ∷ "a OK FETCH completed" ∷ [])
        ∷ first "a NOOP" ("* 3 EXPUNGE" ∷ "a OK NOOP completed" ∷ []) ∷ []) }
    ensures fetch_gone { IsAnswered changed_behind "a FETCH 2:3 UID"
        ("* 2 FETCH (UID 5)" ∷ "* 5 EXISTS" ∷ "* 1 FETCH (UID 3 FLAGS ())" ∷ "a OK [EXPUNGEISSUED] FETCH completed" ∷ []) }
    ensures fetch_flags { IsAnswered changed_behind "a FETCH 1 FLAGS" ("* 1 FETCH (FLAGS ())" ∷ "* 5 EXISTS" ∷ "a OK FETCH completed" ∷ []) }
    ensures uid_fetch { IsAnswered changed_behind "a UID FETCH 5,8 UID"
        ("* 2 FETCH (UID 5)" ∷ "* 3 EXPUNGE" ∷ "* 4 EXISTS" ∷ "* 1 FETCH (UID 3 FLAGS ())" ∷ "a OK UID FETCH completed" ∷ []) }
    ensures store { IsAnswered changed_behind "a STORE 2:3 +FLAGS (\\Seen)"
        ("* 2 FETCH (FLAGS (\\Seen))" ∷ "* 5 EXISTS" ∷ "* 1 FETCH (UID 3 FLAGS ())" ∷ "a OK [EXPUNGEISSUED] STORE completed" ∷ []) }
    ensures store_silent { IsAnswered changed_behind "a STORE 1 +FLAGS.SILENT (\\Draft)" ("* 5 EXISTS" ∷ "a OK STORE completed" ∷ []) }
    ensures uid_store { IsAnswered changed_behind "a UID STORE 8:9 +FLAGS (\\Seen)"
        ("* 4 FETCH (UID 9 FLAGS (\\Flagged \\Seen \\Draft))" ∷ "* 3 EXPUNGE" ∷ "* 4 EXISTS" ∷ "* 1 FETCH (UID 3 FLAGS ())" ∷ "a OK UID STORE completed" ∷ []) }
    ensures search { IsTalk changed_behind (first "a SEARCH UNSEEN"
        ("* ESEARCH (TAG \"a\") ALL 1:2,4" ∷ "* 5 EXISTS" ∷ "* 1 FETCH (UID 3 FLAGS ())" ∷ "a OK [EXPUNGEISSUED] SEARCH completed" ∷ [])
        ∷ first "b NOOP" ("* 3 EXPUNGE" ∷ "b OK NOOP completed" ∷ []) ∷ []) }
    ensures search_new { IsAnswered changed_behind "a SEARCH UID 12"
        ("* ESEARCH (TAG \"a\")" ∷ "* 5 EXISTS" ∷ "* 1 FETCH (UID 3 FLAGS ())" ∷ "a OK [EXPUNGEISSUED] SEARCH completed" ∷ []) }
    ensures search_above { IsTalk changed_behind (first "a SEARCH 5" ("a BAD no such message" ∷ [])
        ∷ first "b NOOP" ("* 3 EXPUNGE" ∷ "* 4 EXISTS" ∷ "* 1 FETCH (UID 3 FLAGS ())" ∷ "b OK NOOP completed" ∷ []) ∷ []) }
    ensures uid_search { IsTalk changed_behind (first "a UID SEARCH LARGER 0"
        ("* ESEARCH (TAG \"a\") UID ALL 3,5" ∷ "* 3 EXPUNGE" ∷ "* 4 EXISTS" ∷ "* 1 FETCH (UID 3 FLAGS ())" ∷ "a OK UID SEARCH completed" ∷ [])
        ∷ first "b NOOP" ("b OK NOOP completed" ∷ []) ∷ []) }
    ensures expunge { IsAnswered changed_behind "a EXPUNGE" ("* 3 EXPUNGE" ∷ "* 4 EXISTS" ∷ "* 1 FETCH (UID 3 FLAGS ())" ∷ "a OK EXPUNGE completed" ∷ []) }
    ensures status { IsAnswered changed_behind "a STATUS INBOX (MESSAGES)" ("* STATUS INBOX (MESSAGES 4)" ∷ "a OK STATUS completed" ∷ []) }
    ensures unselect { IsAnswered changed_behind "a UNSELECT" ("a OK UNSELECT completed" ∷ []) }
{}

/// If another mailbox has the name of the selected one, the connection ends, whatever the command asks of it (RFC 9051, 2.3.1.1 and 7.1.5).
pub fn another_mailbox_is_not_taken_for_it()
    ensures noop { IsAnswered replaced "a NOOP" ("* BYE mailbox is gone" ∷ []) }
    ensures fetch { IsAnswered replaced "a FETCH 1 UID" ("* BYE mailbox is gone" ∷ []) }
    ensures store { IsAnswered replaced "a UID STORE 1 FLAGS ()" ("* BYE mailbox is gone" ∷ []) }
    ensures search { IsAnswered replaced "a SEARCH ALL" ("* BYE mailbox is gone" ∷ []) }
    ensures expunge { IsAnswered replaced "a EXPUNGE" ("* BYE mailbox is gone" ∷ []) }
    ensures close { IsAnswered replaced "a CLOSE" ("* BYE mailbox is gone" ∷ []) }
    ensures unselect { IsAnswered replaced "a UNSELECT" ("a OK UNSELECT completed" ∷ []) }
{}
