// STATUS (RFC 9051, 6.3.11).
ghost use Rattle.std.specs.Prelude.{[], ◌∷◌};
ghost use Rattle.reply_law.specs.Scenes.{as_bob, both_selected, selected};
ghost use Rattle.reply_law.specs.Talk.{IsAnswered, IsTalk, first, second};

/// Each item, and all in the order in which they are asked for.
pub fn a_status_counts()
    ensures messages { IsAnswered as_bob "a STATUS INBOX (MESSAGES)" ("* STATUS INBOX (MESSAGES 4)" ∷ "a OK STATUS completed" ∷ []) }
    ensures uidnext { IsAnswered as_bob "a STATUS INBOX (UIDNEXT)" ("* STATUS INBOX (UIDNEXT 12)" ∷ "a OK STATUS completed" ∷ []) }
    ensures uidvalidity { IsAnswered as_bob "a STATUS INBOX (UIDVALIDITY)" ("* STATUS INBOX (UIDVALIDITY 7)" ∷ "a OK STATUS completed" ∷ []) }
    ensures unseen { IsAnswered as_bob "a STATUS INBOX (UNSEEN)" ("* STATUS INBOX (UNSEEN 3)" ∷ "a OK STATUS completed" ∷ []) }
    ensures deleted { IsAnswered as_bob "a STATUS INBOX (DELETED)" ("* STATUS INBOX (DELETED 1)" ∷ "a OK STATUS completed" ∷ []) }
    ensures size { IsAnswered as_bob "a STATUS INBOX (SIZE)" ("* STATUS INBOX (SIZE 15)" ∷ "a OK STATUS completed" ∷ []) }
    ensures in_order { IsAnswered as_bob "a status inbox (size deleted unseen uidvalidity uidnext messages)"
        ("* STATUS INBOX (SIZE 15 DELETED 1 UNSEEN 3 UIDVALIDITY 7 UIDNEXT 12 MESSAGES 4)" ∷ "a OK STATUS completed" ∷ []) }
    ensures of_now { IsTalk both_selected (second "b APPEND INBOX (\\Deleted) {3+}\r\nnew" ("b OK [APPENDUID 7 12] APPEND completed" ∷ [])
        ∷ first "a STATUS INBOX (MESSAGES UIDNEXT UNSEEN DELETED SIZE)"
        ("* STATUS INBOX (MESSAGES 5 UIDNEXT 13 UNSEEN 4 DELETED 2 SIZE 18)" ∷ "a OK STATUS completed" ∷ []) ∷ []) }
{}

/// No text that is no name, no mailbox that is missing; and the session stays as it is.
pub fn a_status_is_refused()
    ensures missing { IsAnswered as_bob "a STATUS INBOX.none (MESSAGES)" ("a NO [NONEXISTENT] no such mailbox" ∷ []) }
    ensures no_name { IsAnswered as_bob "a STATUS a..b (MESSAGES)" ("a NO [NONEXISTENT] no such mailbox" ∷ []) }
    ensures no_right { IsAnswered as_bob "a STATUS user.amy (MESSAGES)" ("a NO [NOPERM] not permitted" ∷ []) }
    ensures other_item { IsAnswered as_bob "a STATUS INBOX (RECENT)" ("a BAD syntax error" ∷ []) }
    ensures no_item { IsAnswered as_bob "a STATUS INBOX ()" ("a BAD syntax error" ∷ []) }
    ensures goes_on { IsTalk selected (first "a STATUS INBOX.none (MESSAGES)" ("a NO [NONEXISTENT] no such mailbox" ∷ [])
        ∷ first "b FETCH 1 UID" ("* 1 FETCH (UID 3)" ∷ "b OK FETCH completed" ∷ []) ∷ []) }
{}
