// LOGIN (RFC 9051, 6.2.3).
ghost use Rattle.std.specs.Prelude.{[], ◌∷◌};
ghost use Rattle.reply_law.specs.Scenes.{as_bob, connected, selected};
ghost use Rattle.reply_law.specs.Talk.{IsAnswered, IsTalk, first, second};

/// A session begins with the name of a user and this user's password.
pub fn a_user_logs_in()
    ensures atoms { IsAnswered connected "a LOGIN bob y" ("a OK LOGIN completed" ∷ []) }
    ensures strings { IsAnswered connected "a login \"bob\" {1+}\r\ny" ("a OK LOGIN completed" ∷ []) }
    ensures begun { IsTalk connected (first "a LOGIN bob y" ("a OK LOGIN completed" ∷ [])
        ∷ first "b STATUS INBOX (MESSAGES)" ("* STATUS INBOX (MESSAGES 4)" ∷ "b OK STATUS completed" ∷ []) ∷ []) }
    ensures each_alone { IsTalk connected (first "a LOGIN amy z" ("a OK LOGIN completed" ∷ [])
        ∷ second "b STATUS INBOX (MESSAGES)" ("b BAD not in this state" ∷ [])
        ∷ first "c STATUS INBOX (MESSAGES)" ("* STATUS INBOX (MESSAGES 0)" ∷ "c OK STATUS completed" ∷ []) ∷ []) }
{}

/// With any other name or password no session begins, and nothing says which of the two was wrong.
pub fn others_do_not_log_in()
    ensures password { IsAnswered connected "a LOGIN bob x" ("a NO [AUTHENTICATIONFAILED] login failed" ∷ []) }
    ensures password_case { IsAnswered connected "a LOGIN bob Y" ("a NO [AUTHENTICATIONFAILED] login failed" ∷ []) }
    ensures longer_password { IsAnswered connected "a LOGIN bob yy" ("a NO [AUTHENTICATIONFAILED] login failed" ∷ []) }
    ensures no_password { IsAnswered connected "a LOGIN bob \"\"" ("a NO [AUTHENTICATIONFAILED] login failed" ∷ []) }
    ensures name { IsAnswered connected "a LOGIN joe y" ("a NO [AUTHENTICATIONFAILED] login failed" ∷ []) }
    ensures name_case { IsAnswered connected "a LOGIN BOB y" ("a NO [AUTHENTICATIONFAILED] login failed" ∷ []) }
    ensures not_begun { IsTalk connected (first "a LOGIN bob x" ("a NO [AUTHENTICATIONFAILED] login failed" ∷ [])
        ∷ first "b STATUS INBOX (MESSAGES)" ("b BAD not in this state" ∷ []) ∷ []) }
{}

/// A session that has begun goes on as its user's.
pub fn a_session_begins_once()
    ensures same { IsAnswered as_bob "a LOGIN bob y" ("a BAD not in this state" ∷ []) }
    ensures other { IsTalk as_bob (first "a LOGIN adm x" ("a BAD not in this state" ∷ [])
        ∷ first "b STATUS user.amy (MESSAGES)" ("b NO [NOPERM] not permitted" ∷ []) ∷ []) }
    ensures chosen { IsAnswered selected "a LOGIN bob y" ("a BAD not in this state" ∷ []) }
{}
