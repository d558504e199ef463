// FETCH and UID FETCH (RFC 9051, 6.4.5, 6.4.9 and 7.5.2).
ghost use Rattle.std.specs.Prelude.{[], ◌∷◌};
ghost use Rattle.reply_law.specs.Scenes.{both_selected, examined, selected, selected_empty};
ghost use Rattle.reply_law.specs.Talk.{IsAnswered, IsTalk, first, second};

/// What each item is of a message; and several are told in the order in which they are asked for, each once.
pub fn items_are_fetched()
    ensures flags { IsAnswered selected "a FETCH 3 FLAGS" ("* 3 FETCH (FLAGS (\\Answered \\Deleted $Fwd Work))" ∷ "a OK FETCH completed" ∷ []) }
    ensures no_flags { IsAnswered selected "a FETCH 2 FLAGS" ("* 2 FETCH (FLAGS ())" ∷ "a OK FETCH completed" ∷ []) }
    ensures uid { IsAnswered selected "a FETCH 2 UID" ("* 2 FETCH (UID 5)" ∷ "a OK FETCH completed" ∷ []) }
    ensures date { IsAnswered selected "a FETCH 3 INTERNALDATE" ("* 3 FETCH (INTERNALDATE \" 1-Aug-1996 23:30:00 -0700\")" ∷ "a OK FETCH completed" ∷ []) }
    ensures size { IsAnswered selected "a FETCH 3 RFC822.SIZE" ("* 3 FETCH (RFC822.SIZE 8)" ∷ "a OK FETCH completed" ∷ []) }
    ensures no_size { IsAnswered selected "a FETCH 4 RFC822.SIZE" ("* 4 FETCH (RFC822.SIZE 0)" ∷ "a OK FETCH completed" ∷ []) }
    ensures fast { IsAnswered selected "a FETCH 1 FAST"
        ("* 1 FETCH (FLAGS (\\Seen) INTERNALDATE \"17-Jul-1996 02:44:25 -0700\" RFC822.SIZE 5)" ∷ "a OK FETCH completed" ∷ []) }
    ensures peek { IsAnswered selected "a FETCH 1 BODY.PEEK[]" ("* 1 FETCH (BODY[] {5}" ∷ "hello)" ∷ "a OK FETCH completed" ∷ []) }
    ensures in_order { IsAnswered selected "a FETCH 2 (RFC822.SIZE UID FLAGS)" ("* 2 FETCH (RFC822.SIZE 2 UID 5 FLAGS ())" ∷ "a OK FETCH completed" ∷ []) }
    ensures each_once { IsAnswered selected "a FETCH 1 (UID FLAGS UID)" ("* 1 FETCH (UID 3 FLAGS (\\Seen))" ∷ "a OK FETCH completed" ∷ []) }
    ensures any_case { IsAnswered selected "a fetch 1 (uid rfc822.size)" ("* 1 FETCH (UID 3 RFC822.SIZE 5)" ∷ "a OK FETCH completed" ∷ []) }
    ensures other_item { IsAnswered selected "a FETCH 1 ENVELOPE" ("a BAD syntax error" ∷ []) }
{}

/// The octets from a place on, at most so many (RFC 9051, 6.4.5: partial fetch).
pub fn parts_of_bodies_are_fetched()
    ensures within { IsAnswered selected "a FETCH 1 BODY.PEEK[]<1.3>" ("* 1 FETCH (BODY[]<1> {3}" ∷ "ell)" ∷ "a OK FETCH completed" ∷ []) }
    ensures front { IsAnswered selected "a FETCH 1 BODY.PEEK[]<0.1>" ("* 1 FETCH (BODY[]<0> {1}" ∷ "h)" ∷ "a OK FETCH completed" ∷ []) }
    ensures to_the_end { IsAnswered selected "a FETCH 1 BODY.PEEK[]<3.2>" ("* 1 FETCH (BODY[]<3> {2}" ∷ "lo)" ∷ "a OK FETCH completed" ∷ []) }
    ensures past_the_end { IsAnswered selected "a FETCH 1 BODY.PEEK[]<3.9>" ("* 1 FETCH (BODY[]<3> {2}" ∷ "lo)" ∷ "a OK FETCH completed" ∷ []) }
    ensures at_the_end { IsAnswered selected "a FETCH 1 BODY.PEEK[]<5.1>" ("* 1 FETCH (BODY[]<5> {0}" ∷ ")" ∷ "a OK FETCH completed" ∷ []) }
    ensures two_parts { IsAnswered selected "a FETCH 1 (BODY.PEEK[]<0.1> BODY.PEEK[]<4.1>)"
        ("* 1 FETCH (BODY[]<0> {1}" ∷ "h BODY[]<4> {1}" ∷ "o)" ∷ "a OK FETCH completed" ∷ []) }
    ensures none { IsAnswered selected "a FETCH 1 BODY.PEEK[]<0.0>" ("a BAD syntax error" ∷ []) }
    ensures seen { IsAnswered selected "a FETCH 2 BODY[]<1.9>" ("* 2 FETCH (BODY[]<1> {1}" ∷ "i FLAGS (\\Seen))" ∷ "a OK FETCH completed" ∷ []) }
{}

/// `BODY[]` sets `\Seen` unless EXAMINE selected the mailbox; flags that it changed are told last, unless they are asked for.
pub fn a_body_is_seen()
    ensures sets { IsTalk selected (first "a FETCH 2 BODY[]" ("* 2 FETCH (BODY[] {2}" ∷ "hi FLAGS (\\Seen))" ∷ "a OK FETCH completed" ∷ [])
        ∷ first "b FETCH 2 (FLAGS BODY[])" ("* 2 FETCH (FLAGS (\\Seen) BODY[] {2}" ∷ "hi)" ∷ "b OK FETCH completed" ∷ [])
        ∷ first "c STATUS INBOX (UNSEEN)" ("* STATUS INBOX (UNSEEN 2)" ∷ "c OK STATUS completed" ∷ []) ∷ []) }
    ensures keeps_others { IsAnswered selected "a FETCH 3 BODY[]"
        ("* 3 FETCH (BODY[] {8}" ∷ "good day FLAGS (\\Answered \\Deleted \\Seen $Fwd Work))" ∷ "a OK FETCH completed" ∷ []) }
    ensures was_seen { IsAnswered selected "a FETCH 1 BODY[]" ("* 1 FETCH (BODY[] {5}" ∷ "hello)" ∷ "a OK FETCH completed" ∷ []) }
    ensures asked_for { IsAnswered selected "a FETCH 2 (FLAGS BODY[])" ("* 2 FETCH (FLAGS (\\Seen) BODY[] {2}" ∷ "hi)" ∷ "a OK FETCH completed" ∷ []) }
    ensures peeked { IsTalk selected (first "a FETCH 2 BODY.PEEK[]" ("* 2 FETCH (BODY[] {2}" ∷ "hi)" ∷ "a OK FETCH completed" ∷ [])
        ∷ first "b FETCH 2 FLAGS" ("* 2 FETCH (FLAGS ())" ∷ "b OK FETCH completed" ∷ []) ∷ []) }
    ensures read_only { IsTalk examined (first "a FETCH 2 BODY[]" ("* 2 FETCH (BODY[] {2}" ∷ "hi)" ∷ "a OK FETCH completed" ∷ [])
        ∷ first "b FETCH 2 FLAGS" ("* 2 FETCH (FLAGS ())" ∷ "b OK FETCH completed" ∷ []) ∷ []) }
    ensures told_to_others { IsTalk both_selected (first "a UID FETCH 5 BODY[]" ("* 2 FETCH (UID 5 BODY[] {2}" ∷ "hi FLAGS (\\Seen))" ∷ "a OK UID FETCH completed" ∷ [])
        ∷ second "b NOOP" ("* 2 FETCH (UID 5 FLAGS (\\Seen))" ∷ "b OK NOOP completed" ∷ [])
        ∷ first "c NOOP" ("c OK NOOP completed" ∷ []) ∷ []) }
{}

/// Sets of numbers: ranges in either order, `*`, the same number twice; a number above the last is refused (RFC 9051, 9: sequence-set).
pub fn messages_are_named_by_numbers()
    ensures list { IsAnswered selected "a FETCH 1,3 UID" ("* 1 FETCH (UID 3)" ∷ "* 3 FETCH (UID 8)" ∷ "a OK FETCH completed" ∷ []) }
    ensures range { IsAnswered selected "a FETCH 2:3 UID" ("* 2 FETCH (UID 5)" ∷ "* 3 FETCH (UID 8)" ∷ "a OK FETCH completed" ∷ []) }
    ensures falling { IsAnswered selected "a FETCH 3:2 UID" ("* 2 FETCH (UID 5)" ∷ "* 3 FETCH (UID 8)" ∷ "a OK FETCH completed" ∷ []) }
    ensures last { IsAnswered selected "a FETCH * UID" ("* 4 FETCH (UID 9)" ∷ "a OK FETCH completed" ∷ []) }
    ensures to_last { IsAnswered selected "a FETCH 3:* UID" ("* 3 FETCH (UID 8)" ∷ "* 4 FETCH (UID 9)" ∷ "a OK FETCH completed" ∷ []) }
    ensures from_last { IsAnswered selected "a FETCH *:3 UID" ("* 3 FETCH (UID 8)" ∷ "* 4 FETCH (UID 9)" ∷ "a OK FETCH completed" ∷ []) }
    ensures twice { IsAnswered selected "a FETCH 2,1:2 UID" ("* 1 FETCH (UID 3)" ∷ "* 2 FETCH (UID 5)" ∷ "a OK FETCH completed" ∷ []) }
    ensures above { IsAnswered selected "a FETCH 5 UID" ("a BAD no such message" ∷ []) }
    ensures range_above { IsAnswered selected "a FETCH 4:5 UID" ("a BAD no such message" ∷ []) }
    ensures last_of_none { IsAnswered selected_empty "a FETCH * UID" ("a BAD no such message" ∷ []) }
    ensures zero { IsAnswered selected "a FETCH 0 UID" ("a BAD syntax error" ∷ []) }
{}

/// UIDs may be missing, `*` is the last message's, and the UID is told first where it isn't asked for (RFC 9051, 6.4.9).
pub fn messages_are_named_by_uids()
    ensures one { IsAnswered selected "a UID FETCH 5 FLAGS" ("* 2 FETCH (UID 5 FLAGS ())" ∷ "a OK UID FETCH completed" ∷ []) }
    ensures asked_for { IsAnswered selected "a UID FETCH 5 (FLAGS UID)" ("* 2 FETCH (FLAGS () UID 5)" ∷ "a OK UID FETCH completed" ∷ []) }
    ensures gap { IsAnswered selected "a UID FETCH 4:7 RFC822.SIZE" ("* 2 FETCH (UID 5 RFC822.SIZE 2)" ∷ "a OK UID FETCH completed" ∷ []) }
    ensures missing { IsAnswered selected "a UID FETCH 6:7 UID" ("a OK UID FETCH completed" ∷ []) }
    ensures above { IsAnswered selected "a UID FETCH 100 UID" ("a OK UID FETCH completed" ∷ []) }
    ensures above_to_last { IsAnswered selected "a UID FETCH 100:* UID" ("* 4 FETCH (UID 9)" ∷ "a OK UID FETCH completed" ∷ []) }
    ensures last_of_none { IsAnswered selected_empty "a UID FETCH * UID" ("a OK UID FETCH completed" ∷ []) }
    ensures last { IsAnswered selected "a UID FETCH * UID" ("* 4 FETCH (UID 9)" ∷ "a OK UID FETCH completed" ∷ []) }
    ensures falling { IsAnswered selected "a UID FETCH 5:3 UID" ("* 1 FETCH (UID 3)" ∷ "* 2 FETCH (UID 5)" ∷ "a OK UID FETCH completed" ∷ []) }
{}
