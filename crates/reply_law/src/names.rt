// Names of mailboxes, and who has rights on them (RFC 9051, 5.1).
ghost use Rattle.std.specs.Prelude.{[], ◌∷◌};
ghost use Rattle.reply_law.specs.Scenes.{as_admin, as_bob};
ghost use Rattle.reply_law.specs.Talk.{IsAnswered};

/// INBOX, in any case, is the user's own mailbox, and is printed as INBOX whatever it was asked for as.
pub fn inbox_is_the_own_mailbox()
    ensures inbox { IsAnswered as_bob "a STATUS INBOX (UIDVALIDITY)" ("* STATUS INBOX (UIDVALIDITY 7)" ∷ "a OK STATUS completed" ∷ []) }
    ensures any_case { IsAnswered as_bob "a STATUS iNbOx (UIDVALIDITY)" ("* STATUS INBOX (UIDVALIDITY 7)" ∷ "a OK STATUS completed" ∷ []) }
    ensures quoted { IsAnswered as_bob "a STATUS \"inbox\" (UIDVALIDITY)" ("* STATUS INBOX (UIDVALIDITY 7)" ∷ "a OK STATUS completed" ∷ []) }
    ensures own_name { IsAnswered as_bob "a STATUS user.bob (UIDVALIDITY)" ("* STATUS INBOX (UIDVALIDITY 7)" ∷ "a OK STATUS completed" ∷ []) }
    ensures below { IsAnswered as_bob "a STATUS \"user.bob.To do\" (UIDVALIDITY)" ("* STATUS \"INBOX.To do\" (UIDVALIDITY 4)" ∷ "a OK STATUS completed" ∷ []) }
    ensures of_admin { IsAnswered as_admin "a STATUS INBOX (UIDVALIDITY)" ("a NO [NONEXISTENT] no such mailbox" ∷ []) }
    ensures by_admin { IsAnswered as_admin "a STATUS user.bob (UIDVALIDITY)" ("* STATUS user.bob (UIDVALIDITY 7)" ∷ "a OK STATUS completed" ∷ []) }
    ensures only_first_level { IsAnswered as_bob "a STATUS INBOXES (UIDVALIDITY)" ("a NO [NOPERM] not permitted" ∷ []) }
    ensures case_counts_below { IsAnswered as_bob "a STATUS \"INBOX.to do\" (UIDVALIDITY)" ("a NO [NONEXISTENT] no such mailbox" ∷ []) }
{}

/// A user has rights at `user.NAME` and below it, an administrator everywhere; of other names nobody learns whether they are there.
pub fn others_are_refused()
    ensures there { IsAnswered as_bob "a STATUS user.amy (MESSAGES)" ("a NO [NOPERM] not permitted" ∷ []) }
    ensures not_there { IsAnswered as_bob "a STATUS user.joe (MESSAGES)" ("a NO [NOPERM] not permitted" ∷ []) }
    ensures longer_name { IsAnswered as_bob "a STATUS user.bobby (MESSAGES)" ("a NO [NOPERM] not permitted" ∷ []) }
    ensures of_nobody { IsAnswered as_bob "a STATUS news (MESSAGES)" ("a NO [NOPERM] not permitted" ∷ []) }
    ensures select { IsAnswered as_bob "a SELECT user.amy" ("a NO [NOPERM] not permitted" ∷ []) }
    ensures examine { IsAnswered as_bob "a EXAMINE user.amy" ("a NO [NOPERM] not permitted" ∷ []) }
    ensures append { IsAnswered as_bob "a APPEND user.amy {1+}\r\nx" ("a NO [NOPERM] not permitted" ∷ []) }
    ensures by_admin { IsAnswered as_admin "a STATUS news (MESSAGES)" ("* STATUS news (MESSAGES 0)" ∷ "a OK STATUS completed" ∷ []) }
    ensures missing { IsAnswered as_bob "a STATUS INBOX.none (MESSAGES)" ("a NO [NONEXISTENT] no such mailbox" ∷ []) }
{}
