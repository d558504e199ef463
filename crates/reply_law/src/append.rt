// APPEND (RFC 9051, 6.3.12).
ghost use Rattle.std.specs.Prelude.{[], ◌∷◌};
ghost use Rattle.reply_law.specs.Scenes.{as_admin, as_bob, selected};
ghost use Rattle.reply_law.specs.Talk.{IsAnswered, IsTalk, first};

/// The message gets UIDNEXT, the flags and the date that come with it, its own bytes, and without a date the configuration's.
pub fn a_message_is_appended()
    ensures whole { IsTalk as_bob (first "a APPEND INBOX (\\Seen Work) {3+}\r\nnew" ("a OK [APPENDUID 7 12] APPEND completed" ∷ [])
        ∷ first "b STATUS INBOX (MESSAGES UIDNEXT UNSEEN SIZE)" ("* STATUS INBOX (MESSAGES 5 UIDNEXT 13 UNSEEN 3 SIZE 18)" ∷ "b OK STATUS completed" ∷ []) ∷ []) }
    ensures as_sent { IsTalk selected (first "a APPEND INBOX (\\Seen Work) {3+}\r\nnew"
        ("a OK [APPENDUID 7 12] APPEND completed" ∷ [])
        ∷ first "b NOOP" ("* 5 EXISTS" ∷ "b OK NOOP completed" ∷ [])
        ∷ first "c FETCH 5 (UID FLAGS BODY[])"
        ("* 5 FETCH (UID 12 FLAGS (\\Seen Work) BODY[] {3}" ∷ "new)" ∷ "c OK FETCH completed" ∷ []) ∷ []) }
    ensures dated { IsTalk selected (first "a APPEND INBOX (\\Seen Work) \" 5-Nov-2026 10:00:00 +0100\" {3+}\r\nnew" ("a OK [APPENDUID 7 12] APPEND completed" ∷ [])
        ∷ first "b NOOP" ("* 5 EXISTS" ∷ "b OK NOOP completed" ∷ [])
        ∷ first "c FETCH 5 (UID FLAGS INTERNALDATE BODY[])"
        ("* 5 FETCH (UID 12 FLAGS (\\Seen Work) INTERNALDATE \" 5-Nov-2026 10:00:00 +0100\" BODY[] {3}" ∷ "new)" ∷ "c OK FETCH completed" ∷ []) ∷ []) }
    ensures plain { IsTalk selected (first "a APPEND INBOX {3+}\r\nnew" ("a OK [APPENDUID 7 12] APPEND completed" ∷ [])
        ∷ first "b NOOP" ("* 5 EXISTS" ∷ "b OK NOOP completed" ∷ [])
        ∷ first "c FETCH 5 FAST" ("* 5 FETCH (FLAGS () INTERNALDATE \"17-Jul-1996 02:44:25 -0700\" RFC822.SIZE 3)" ∷ "c OK FETCH completed" ∷ []) ∷ []) }
    ensures empty { IsAnswered as_bob "a APPEND INBOX {0+}\r\n" ("a OK [APPENDUID 7 12] APPEND completed" ∷ []) }
    ensures two { IsTalk as_bob (first "a APPEND INBOX {1+}\r\nx" ("a OK [APPENDUID 7 12] APPEND completed" ∷ [])
        ∷ first "b APPEND INBOX {1+}\r\nx" ("b OK [APPENDUID 7 13] APPEND completed" ∷ []) ∷ []) }
    ensures elsewhere { IsTalk selected (first "a APPEND \"INBOX.To do\" {1+}\r\nx" ("a OK [APPENDUID 4 1] APPEND completed" ∷ [])
        ∷ first "b NOOP" ("b OK NOOP completed" ∷ []) ∷ []) }
{}

/// A missing mailbox may be created (RFC 9051, 7.1: TRYCREATE), and so is a text that is no name refused.
pub fn a_message_is_not_appended()
    ensures missing { IsAnswered as_bob "a APPEND INBOX.none {1+}\r\nx" ("a NO [TRYCREATE] no such mailbox" ∷ []) }
    ensures no_name { IsAnswered as_bob "a APPEND a..b {1+}\r\nx" ("a NO [TRYCREATE] no such mailbox" ∷ []) }
    ensures no_right { IsAnswered as_bob "a APPEND user.joe {1+}\r\nx" ("a NO [NOPERM] not permitted" ∷ []) }
    ensures admin_missing { IsAnswered as_admin "a APPEND INBOX {1+}\r\nx" ("a NO [TRYCREATE] no such mailbox" ∷ []) }
    ensures bad_date { IsAnswered as_bob "a APPEND INBOX \"32-Nov-2026 10:00:00 +0100\" {1+}\r\nx" ("a BAD syntax error" ∷ []) }
    ensures bad_flag { IsAnswered as_bob "a APPEND INBOX (\\Recent) {1+}\r\nx" ("a BAD syntax error" ∷ []) }
{}
