// DELETE (RFC 9051, 6.3.5).
ghost use Rattle.std.specs.Prelude.{[], ◌∷◌};
ghost use Rattle.reply_law.specs.Scenes.{as_admin, as_bob, examined, selected, selected_empty};
ghost use Rattle.reply_law.specs.Talk.{IsAnswered, IsTalk, first, second};

/// A deleted mailbox is gone with its messages, and one that is made under its name then is another. Those below it stay.
pub fn a_mailbox_is_deleted()
    ensures below_inbox { IsTalk as_bob (first "a DELETE \"INBOX.To do\"" ("a OK DELETE completed" ∷ [])
        ∷ first "b STATUS \"INBOX.To do\" (MESSAGES)" ("b NO [NONEXISTENT] no such mailbox" ∷ [])
        ∷ first "c DELETE \"INBOX.To do\"" ("c NO [NONEXISTENT] no such mailbox" ∷ [])
        ∷ first "d LIST \"\" *" ("* LIST () \".\" INBOX" ∷ "d OK LIST completed" ∷ []) ∷ []) }
    ensures by_own_name { IsTalk as_bob (first "a DELETE user.bob" ("a OK DELETE completed" ∷ [])
        ∷ first "b LIST \"\" *" ("* LIST () \".\" \"INBOX.To do\"" ∷ "b OK LIST completed" ∷ []) ∷ []) }
    ensures by_admin { IsTalk as_admin (first "a DELETE user.bob" ("a OK DELETE completed" ∷ [])
        ∷ first "b LIST \"\" *" ("* LIST () \".\" news" ∷ "* LIST () \".\" user.amy" ∷ "* LIST () \".\" \"user.bob.To do\"" ∷ "b OK LIST completed" ∷ []) ∷ []) }
    ensures made_again { IsTalk as_admin (first "a DELETE user.bob" ("a OK DELETE completed" ∷ []) ∷ first "b CREATE user.bob" ("b OK CREATE completed" ∷ [])
        ∷ first "c STATUS user.bob (MESSAGES UIDNEXT UIDVALIDITY)" ("* STATUS user.bob (MESSAGES 0 UIDNEXT 1 UIDVALIDITY 9)" ∷ "c OK STATUS completed" ∷ []) ∷ []) }
    ensures while_read { IsAnswered examined "a DELETE \"INBOX.To do\"" ("a OK DELETE completed" ∷ []) }
{}

/// Refusals in their order: INBOX, a text that is no name, rights, a mailbox that isn't there.
pub fn a_mailbox_is_not_deleted()
    ensures inbox { IsAnswered as_bob "a DELETE INBOX" ("a NO [CANNOT] cannot be done" ∷ []) }
    ensures inbox_any_case { IsAnswered as_admin "a DELETE iNbOx" ("a NO [CANNOT] cannot be done" ∷ []) }
    ensures separator { IsAnswered as_admin "a DELETE user.bob." ("a NO [NONEXISTENT] no such mailbox" ∷ []) }
    ensures empty { IsAnswered as_bob "a DELETE \"\"" ("a NO [NONEXISTENT] no such mailbox" ∷ []) }
    ensures no_name_before_rights { IsAnswered as_bob "a DELETE user.amy..b" ("a NO [NONEXISTENT] no such mailbox" ∷ []) }
    ensures of_other { IsAnswered as_bob "a DELETE user.amy" ("a NO [NOPERM] not permitted" ∷ []) }
    ensures rights_before_there { IsAnswered as_bob "a DELETE top" ("a NO [NOPERM] not permitted" ∷ []) }
    ensures below { IsAnswered as_bob "a DELETE INBOX.work" ("a NO [NONEXISTENT] no such mailbox" ∷ []) }
    ensures level { IsAnswered as_admin "a DELETE user" ("a NO [NONEXISTENT] no such mailbox" ∷ []) }
{}

/// A session that has the mailbox selected learns of it by its next command that asks for it, also where it deleted it itself.
pub fn a_deleted_mailbox_was_selected()
    ensures by_another { IsTalk selected (second "b1 LOGIN adm x" ("b1 OK LOGIN completed" ∷ []) ∷ second "b2 DELETE user.bob" ("b2 OK DELETE completed" ∷ [])
        ∷ first "a CAPABILITY" ("* CAPABILITY IMAP4rev2 AUTH=PLAIN" ∷ "a OK CAPABILITY completed" ∷ []) ∷ first "c NOOP" ("* BYE mailbox is gone" ∷ []) ∷ []) }
    ensures by_itself { IsTalk selected_empty (first "a DELETE \"INBOX.To do\"" ("a OK DELETE completed" ∷ []) ∷ first "b NOOP" ("* BYE mailbox is gone" ∷ []) ∷ []) }
    ensures made_again { IsTalk selected (second "b1 LOGIN adm x" ("b1 OK LOGIN completed" ∷ []) ∷ second "b2 DELETE user.bob" ("b2 OK DELETE completed" ∷ [])
        ∷ second "b3 CREATE user.bob" ("b3 OK CREATE completed" ∷ []) ∷ first "a FETCH 1 UID" ("* BYE mailbox is gone" ∷ []) ∷ []) }
    ensures unselect { IsTalk selected_empty (first "a DELETE \"INBOX.To do\"" ("a OK DELETE completed" ∷ [])
        ∷ first "b UNSELECT" ("b OK UNSELECT completed" ∷ []) ∷ first "c NOOP" ("c OK NOOP completed" ∷ []) ∷ []) }
{}
