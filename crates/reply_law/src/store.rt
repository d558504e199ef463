// STORE and UID STORE (RFC 9051, 6.4.6 and 6.4.9).
ghost use Rattle.std.specs.Prelude.{[], ◌∷◌};
ghost use Rattle.reply_law.specs.Scenes.{both_selected, examined, selected};
ghost use Rattle.reply_law.specs.Talk.{IsAnswered, IsTalk, first, second};

/// Each mode, and the flags then, in their order: system flags, and keywords in byte order.
pub fn flags_are_stored()
    ensures replaced { IsAnswered selected "a STORE 3 FLAGS (\\Seen)" ("* 3 FETCH (FLAGS (\\Seen))" ∷ "a OK STORE completed" ∷ []) }
    ensures emptied { IsAnswered selected "a STORE 3 FLAGS ()" ("* 3 FETCH (FLAGS ())" ∷ "a OK STORE completed" ∷ []) }
    ensures added { IsAnswered selected "a STORE 3 +FLAGS (\\Seen)" ("* 3 FETCH (FLAGS (\\Answered \\Deleted \\Seen $Fwd Work))" ∷ "a OK STORE completed" ∷ []) }
    ensures removed { IsAnswered selected "a STORE 3 -FLAGS (\\Deleted Work \\Draft)" ("* 3 FETCH (FLAGS (\\Answered $Fwd))" ∷ "a OK STORE completed" ∷ []) }
    ensures all_in_order { IsAnswered selected "a STORE 1 FLAGS (work \\Draft Work \\Seen A \\Deleted \\Flagged \\Answered)"
        ("* 1 FETCH (FLAGS (\\Answered \\Flagged \\Deleted \\Seen \\Draft A Work work))" ∷ "a OK STORE completed" ∷ []) }
    ensures any_case { IsAnswered selected "a store 2 +flags (\\sEEN)" ("* 2 FETCH (FLAGS (\\Seen))" ∷ "a OK STORE completed" ∷ []) }
    ensures keyword_case { IsAnswered selected "a STORE 3 -FLAGS (work)" ("* 3 FETCH (FLAGS (\\Answered \\Deleted $Fwd Work))" ∷ "a OK STORE completed" ∷ []) }
    ensures bare { IsAnswered selected "a STORE 2 +FLAGS \\Seen Work" ("* 2 FETCH (FLAGS (\\Seen Work))" ∷ "a OK STORE completed" ∷ []) }
    ensures unchanged { IsAnswered selected "a STORE 1 +FLAGS (\\Seen)" ("* 1 FETCH (FLAGS (\\Seen))" ∷ "a OK STORE completed" ∷ []) }
    ensures several { IsAnswered selected "a STORE 1:2 +FLAGS (\\Flagged)"
        ("* 1 FETCH (FLAGS (\\Flagged \\Seen))" ∷ "* 2 FETCH (FLAGS (\\Flagged))" ∷ "a OK STORE completed" ∷ []) }
    ensures by_uid { IsAnswered selected "a UID STORE 8 -FLAGS (\\Answered)" ("* 3 FETCH (UID 8 FLAGS (\\Deleted $Fwd Work))" ∷ "a OK UID STORE completed" ∷ []) }
    ensures uid_gap { IsAnswered selected "a UID STORE 6:7 +FLAGS (\\Seen)" ("a OK UID STORE completed" ∷ []) }
    ensures others_stay { IsTalk selected (first "a STORE 2 FLAGS (\\Draft)" ("* 2 FETCH (FLAGS (\\Draft))" ∷ "a OK STORE completed" ∷ [])
        ∷ first "b FETCH 1:3 FLAGS" ("* 1 FETCH (FLAGS (\\Seen))" ∷ "* 2 FETCH (FLAGS (\\Draft))" ∷ "* 3 FETCH (FLAGS (\\Answered \\Deleted $Fwd Work))"
        ∷ "b OK FETCH completed" ∷ []) ∷ []) }
{}

/// A silent STORE changes the same, and its client isn't told of it, then or later.
pub fn flags_are_stored_silently()
    ensures replaced { IsTalk selected (first "a STORE 3 FLAGS.SILENT (\\Seen)" ("a OK STORE completed" ∷ [])
        ∷ first "b FETCH 3 FLAGS" ("* 3 FETCH (FLAGS (\\Seen))" ∷ "b OK FETCH completed" ∷ []) ∷ []) }
    ensures added { IsTalk selected (first "a STORE 3 +FLAGS.SILENT (\\Seen)" ("a OK STORE completed" ∷ [])
        ∷ first "b FETCH 3 FLAGS" ("* 3 FETCH (FLAGS (\\Answered \\Deleted \\Seen $Fwd Work))" ∷ "b OK FETCH completed" ∷ []) ∷ []) }
    ensures removed { IsTalk selected (first "a STORE 3 -FLAGS.SILENT (\\Deleted)" ("a OK STORE completed" ∷ [])
        ∷ first "b FETCH 3 FLAGS" ("* 3 FETCH (FLAGS (\\Answered $Fwd Work))" ∷ "b OK FETCH completed" ∷ []) ∷ []) }
    ensures not_told_later { IsTalk selected (first "a UID STORE 3 FLAGS.SILENT ()" ("a OK UID STORE completed" ∷ [])
        ∷ first "b NOOP" ("b OK NOOP completed" ∷ []) ∷ []) }
    ensures told_to_others { IsTalk both_selected (first "a STORE 1 FLAGS.SILENT ()" ("a OK STORE completed" ∷ [])
        ∷ second "b NOOP" ("* 1 FETCH (UID 3 FLAGS ())" ∷ "b OK NOOP completed" ∷ []) ∷ []) }
{}

/// Refusals in their order: a number above the last, a mailbox that EXAMINE selected, more than 16 keywords of a message or of the command.
pub fn flags_are_not_stored()
    ensures above { IsAnswered selected "a STORE 5 FLAGS ()" ("a BAD no such message" ∷ []) }
    ensures read_only { IsTalk examined (first "a STORE 1 FLAGS ()" ("a NO [CANNOT] cannot be done" ∷ [])
        ∷ first "b FETCH 1 FLAGS" ("* 1 FETCH (FLAGS (\\Seen))" ∷ "b OK FETCH completed" ∷ []) ∷ []) }
    ensures above_first { IsAnswered examined "a STORE 5 FLAGS ()" ("a BAD no such message" ∷ []) }
    ensures read_only_uid { IsAnswered examined "a UID STORE 100 FLAGS ()" ("a NO [CANNOT] cannot be done" ∷ []) }
    ensures sixteen { IsAnswered selected "a STORE 2 +FLAGS.SILENT (a b c d e f g h i j k l m n o p)" ("a OK STORE completed" ∷ []) }
    ensures seventeen { IsTalk selected (first "a STORE 3 +FLAGS (a b c d e f g h i j k l m n o)" ("a NO [LIMIT] too large or too many" ∷ [])
        ∷ first "b FETCH 3 FLAGS" ("* 3 FETCH (FLAGS (\\Answered \\Deleted $Fwd Work))" ∷ "b OK FETCH completed" ∷ []) ∷ []) }
    ensures none_changes { IsTalk selected (first "a STORE 2:3 +FLAGS (a b c d e f g h i j k l m n o)" ("a NO [LIMIT] too large or too many" ∷ [])
        ∷ first "b FETCH 2 FLAGS" ("* 2 FETCH (FLAGS ())" ∷ "b OK FETCH completed" ∷ []) ∷ []) }
    ensures seventeen_at_once { IsAnswered selected "a STORE 2 +FLAGS (a b c d e f g h i j k l m n o p q)" ("a BAD syntax error" ∷ []) }
    ensures other_flag { IsAnswered selected "a STORE 2 +FLAGS (\\Recent)" ("a BAD syntax error" ∷ []) }
{}
