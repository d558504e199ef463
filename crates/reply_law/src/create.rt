// CREATE (RFC 9051, 6.3.4).
ghost use Rattle.std.specs.Prelude.{◌≡◌, [], ◌∷◌, None, Some, codes, length};
ghost use Rattle.mail_message.specs.Boxes.{Content};
ghost use Rattle.mur_model.specs.Store.{box_at};
ghost use Rattle.mur_model.specs.declared.store.Store.{Store};
ghost use Rattle.reply_law.specs.Scenes.{as_admin, as_admin_at, as_amy, as_bob};
ghost use Rattle.reply_law.specs.Talk.{IsAnswered, IsTalk, first};

/// A new mailbox is empty, its first message will get UID 1, and it has the UIDVALIDITY that it was given.
pub fn a_mailbox_is_created()
    ensures below_inbox { IsTalk as_bob (first "a CREATE INBOX.work" ("a OK CREATE completed" ∷ [])
        ∷ first "b STATUS INBOX.work (MESSAGES UIDNEXT UIDVALIDITY)" ("* STATUS INBOX.work (MESSAGES 0 UIDNEXT 1 UIDVALIDITY 9)" ∷ "b OK STATUS completed" ∷ [])
        ∷ first "c CREATE user.bob.work" ("c NO [ALREADYEXISTS] mailbox exists" ∷ []) ∷ []) }
    ensures by_own_name { IsAnswered as_bob "a CREATE user.bob.work" ("a OK CREATE completed" ∷ []) }
    ensures separator { IsTalk as_bob (first "a CREATE INBOX.work." ("a OK CREATE completed" ∷ [])
        ∷ first "b CREATE INBOX.work" ("b NO [ALREADYEXISTS] mailbox exists" ∷ []) ∷ []) }
    ensures by_admin { IsTalk as_admin (first "a CREATE user.joe" ("a OK CREATE completed" ∷ [])
        ∷ first "b CREATE top" ("b OK CREATE completed" ∷ []) ∷ first "c STATUS top (MESSAGES)" ("* STATUS top (MESSAGES 0)" ∷ "c OK STATUS completed" ∷ []) ∷ []) }
    ensures others_stay { IsTalk as_bob (first "a CREATE INBOX.work" ("a OK CREATE completed" ∷ [])
        ∷ first "b STATUS INBOX (MESSAGES UIDVALIDITY)" ("* STATUS INBOX (MESSAGES 4 UIDVALIDITY 7)" ∷ "b OK STATUS completed" ∷ []) ∷ []) }
{}

/// Refusals in their order: what can't be done, a text that is no name, rights, a mailbox that is there, limits.
pub fn a_mailbox_is_not_created()
    ensures inbox { IsAnswered as_bob "a CREATE INBOX" ("a NO [CANNOT] cannot be done" ∷ []) }
    ensures inbox_any_case { IsAnswered as_admin "a CREATE iNbOx" ("a NO [CANNOT] cannot be done" ∷ []) }
    ensures inbox_separator { IsAnswered as_bob "a CREATE INBOX." ("a NO [CANNOT] cannot be done" ∷ []) }
    ensures empty_level { IsAnswered as_admin "a CREATE a..b" ("a NO [NONEXISTENT] no such mailbox" ∷ []) }
    ensures two_separators { IsAnswered as_admin "a CREATE a.." ("a NO [NONEXISTENT] no such mailbox" ∷ []) }
    ensures star { IsAnswered as_admin "a CREATE \"a*b\"" ("a NO [NONEXISTENT] no such mailbox" ∷ []) }
    ensures empty { IsAnswered as_admin "a CREATE \"\"" ("a NO [NONEXISTENT] no such mailbox" ∷ []) }
    ensures no_name_before_rights { IsAnswered as_bob "a CREATE user.amy..b" ("a NO [NONEXISTENT] no such mailbox" ∷ []) }
    ensures own { IsAnswered as_bob "a CREATE user.bob" ("a NO [NOPERM] not permitted" ∷ []) }
    ensures of_other { IsAnswered as_bob "a CREATE user.amy.x" ("a NO [NOPERM] not permitted" ∷ []) }
    ensures of_nobody { IsAnswered as_bob "a CREATE top" ("a NO [NOPERM] not permitted" ∷ []) }
    ensures longer_name { IsAnswered as_bob "a CREATE user.bobby.x" ("a NO [NOPERM] not permitted" ∷ []) }
    ensures rights_before_there { IsAnswered as_amy "a CREATE user.bob" ("a NO [NOPERM] not permitted" ∷ []) }
    ensures there { IsAnswered as_admin "a CREATE user.bob" ("a NO [ALREADYEXISTS] mailbox exists" ∷ []) }
    ensures there_below { IsAnswered as_bob "a CREATE \"INBOX.To do\"" ("a NO [ALREADYEXISTS] mailbox exists" ∷ []) }
    ensures full { (store : Store) → length store.boxes ≡ 4096 → box_at store (codes "top") ≡ None
        → IsAnswered (as_admin_at store) "a CREATE top" ("a NO [LIMIT] too large or too many" ∷ []) }
    ensures room_for_one { (store : Store) → length store.boxes ≡ 4095 → box_at store (codes "top") ≡ None
        → IsAnswered (as_admin_at store) "a CREATE top" ("a OK CREATE completed" ∷ []) }
    ensures there_before_full { (store : Store) (box : Content) → length store.boxes ≡ 4096 → box_at store (codes "top") ≡ Some box
        → IsAnswered (as_admin_at store) "a CREATE top" ("a NO [ALREADYEXISTS] mailbox exists" ∷ []) }
{}
