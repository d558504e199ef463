// IDLE (RFC 9051, 6.3.13).
ghost use Rattle.std.specs.Prelude.{[], ◌∷◌};
ghost use Rattle.reply_law.specs.Scenes.{as_bob, both_selected, connected};
ghost use Rattle.reply_law.specs.Talk.{IsAnswered, IsTalk, first, second};

/// An IDLE waits for DONE, in any case, and then reports the news of a selected mailbox.
pub fn an_idle_ends_with_done()
    ensures done { IsTalk as_bob (first "a IDLE" ("+ idling" ∷ []) ∷ first "DONE" ("a OK IDLE completed" ∷ []) ∷ []) }
    ensures any_case { IsTalk as_bob (first "a IDLE" ("+ idling" ∷ []) ∷ first "done" ("a OK IDLE completed" ∷ []) ∷ []) }
    ensures news { IsTalk both_selected (first "a IDLE" ("+ idling" ∷ [])
        ∷ second "b STORE 1 FLAGS.SILENT (\\Draft)" ("b OK STORE completed" ∷ [])
        ∷ first "DONE" ("* 1 FETCH (UID 3 FLAGS (\\Draft))" ∷ "a OK IDLE completed" ∷ []) ∷ []) }
    ensures other_line { IsTalk as_bob (first "a IDLE" ("+ idling" ∷ []) ∷ first "STOP" ("a BAD syntax error" ∷ [])
        ∷ first "b NOOP" ("b OK NOOP completed" ∷ []) ∷ []) }
    ensures command_line { IsTalk as_bob (first "a IDLE" ("+ idling" ∷ []) ∷ first "b NOOP" ("a BAD syntax error" ∷ []) ∷ []) }
    ensures not_begun { IsAnswered connected "a IDLE" ("a BAD not in this state" ∷ []) }
{}
