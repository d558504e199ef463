// LIST: mailboxes on which the user has rights, and levels above them (RFC 9051, 6.3.9 and 7.3.1).
ghost use Rattle.std.specs.Prelude.{[], ◌∷◌};
ghost use Rattle.reply_law.specs.Scenes.{as_admin, as_amy, as_bob, selected};
ghost use Rattle.reply_law.specs.Talk.{IsAnswered};

/// A user is told of their own mailbox and those below it, an administrator of all. No news is told.
pub fn mailboxes_are_listed()
    ensures own { IsAnswered as_bob "a LIST \"\" *" ("* LIST () \".\" INBOX" ∷ "* LIST () \".\" \"INBOX.To do\"" ∷ "a OK LIST completed" ∷ []) }
    ensures of_other { IsAnswered as_amy "a LIST \"\" *" ("* LIST () \".\" INBOX" ∷ "a OK LIST completed" ∷ []) }
    ensures of_admin { IsAnswered as_admin "a LIST \"\" \"*\"" ("* LIST () \".\" news" ∷ "* LIST () \".\" user.amy" ∷ "* LIST () \".\" user.bob"
        ∷ "* LIST () \".\" \"user.bob.To do\"" ∷ "a OK LIST completed" ∷ []) }
    ensures while_selected { IsAnswered selected "a LIST \"\" *" ("* LIST () \".\" INBOX" ∷ "* LIST () \".\" \"INBOX.To do\"" ∷ "a OK LIST completed" ∷ []) }
    ensures one { IsAnswered as_bob "a LIST \"\" iNbOx" ("* LIST () \".\" INBOX" ∷ "a OK LIST completed" ∷ []) }
    ensures none { IsAnswered as_bob "a LIST \"\" user.*" ("a OK LIST completed" ∷ []) }
{}

/// `%` stops at a level. At the end of a pattern it matches levels that are no mailboxes too, and these are told as such.
pub fn levels_are_listed()
    ensures own { IsAnswered as_bob "a LIST \"\" %" ("* LIST () \".\" INBOX" ∷ "a OK LIST completed" ∷ []) }
    ensures of_admin { IsAnswered as_admin "a LIST \"\" %" ("* LIST () \".\" news" ∷ "* LIST (\\NonExistent) \".\" user" ∷ "a OK LIST completed" ∷ []) }
    ensures below { IsAnswered as_admin "a LIST user. %" ("* LIST () \".\" user.amy" ∷ "* LIST () \".\" user.bob" ∷ "a OK LIST completed" ∷ []) }
    ensures below_inbox { IsAnswered as_bob "a LIST inbox. %" ("* LIST () \".\" \"INBOX.To do\"" ∷ "a OK LIST completed" ∷ []) }
    ensures not_at_the_end { IsAnswered as_admin "a LIST \"\" %r" ("a OK LIST completed" ∷ []) }
{}

/// An empty pattern asks for the separator of levels, whatever the reference.
pub fn the_separator_is_listed()
    ensures alone { IsAnswered as_bob "a LIST \"\" \"\"" ("* LIST (\\Noselect) \".\" \"\"" ∷ "a OK LIST completed" ∷ []) }
    ensures reference { IsAnswered as_admin "a LIST user. \"\"" ("* LIST (\\Noselect) \".\" \"\"" ∷ "a OK LIST completed" ∷ []) }
{}
