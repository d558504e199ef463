// AUTHENTICATE PLAIN (RFC 9051, 6.2.2; RFC 4616, 2). The responses are base64 (RFC 4648, 4) of the texts beside them, where | is NUL.
ghost use Rattle.std.specs.Prelude.{[], ◌∷◌, codes};
ghost use Rattle.reply_law.specs.Scenes.{as_bob, connected, connected_with};
ghost use Rattle.reply_law.specs.Talk.{IsAnswered, IsTalk, first};

/// A session begins with a user's name and password, in the same line or in the next; the text before them is empty or the same name.
pub fn a_response_logs_in()
    // |adm|x
    ensures at_once { IsAnswered connected "a1 AUTHENTICATE PLAIN AGFkbQB4" ("a1 OK AUTHENTICATE completed" ∷ []) }
    ensures any_case { IsAnswered connected "a1 authenticate plain AGFkbQB4" ("a1 OK AUTHENTICATE completed" ∷ []) }
    ensures in_two { IsTalk connected (first "a1 AUTHENTICATE PLAIN" ("+ " ∷ []) ∷ first "AGFkbQB4" ("a1 OK AUTHENTICATE completed" ∷ [])
        ∷ first "a2 STATUS user.amy (MESSAGES)" ("* STATUS user.amy (MESSAGES 0)" ∷ "a2 OK STATUS completed" ∷ []) ∷ []) }
    // adm|adm|x
    ensures same_name { IsAnswered connected "a AUTHENTICATE PLAIN YWRtAGFkbQB4" ("a OK AUTHENTICATE completed" ∷ []) }
    // |adm|~, whose base64 has a character that base64 for URLs has not
    ensures standard { IsAnswered (connected_with (codes "~")) "a AUTHENTICATE PLAIN AGFkbQB+" ("a OK AUTHENTICATE completed" ∷ []) }
    // |bob|y
    ensures by_bob { IsTalk connected (first "a AUTHENTICATE PLAIN AGJvYgB5" ("a OK AUTHENTICATE completed" ∷ [])
        ∷ first "b STATUS user.amy (MESSAGES)" ("b NO [NOPERM] not permitted" ∷ []) ∷ []) }
{}

/// Any other response begins no session.
pub fn other_responses_do_not_log_in()
    // |adm|y
    ensures password { IsAnswered connected "a AUTHENTICATE PLAIN AGFkbQB5" ("a NO [AUTHENTICATIONFAILED] login failed" ∷ []) }
    // bob|adm|x
    ensures other_name { IsAnswered connected "a AUTHENTICATE PLAIN Ym9iAGFkbQB4" ("a NO [AUTHENTICATIONFAILED] login failed" ∷ []) }
    // adm|x
    ensures two_texts { IsAnswered connected "a AUTHENTICATE PLAIN YWRtAHg=" ("a NO [AUTHENTICATIONFAILED] login failed" ∷ []) }
    ensures no_text { IsAnswered connected "a AUTHENTICATE PLAIN =" ("a NO [AUTHENTICATIONFAILED] login failed" ∷ []) }
    // |adm|~ in base64 for URLs
    ensures for_urls { IsTalk (connected_with (codes "~")) (first "a AUTHENTICATE PLAIN" ("+ " ∷ [])
        ∷ first "AGFkbQB-" ("a NO [AUTHENTICATIONFAILED] login failed" ∷ []) ∷ []) }
    ensures cut_short { IsAnswered connected "a AUTHENTICATE PLAIN AGFkbQB" ("a NO [AUTHENTICATIONFAILED] login failed" ∷ []) }
    ensures not_begun { IsTalk connected (first "a AUTHENTICATE PLAIN =" ("a NO [AUTHENTICATIONFAILED] login failed" ∷ [])
        ∷ first "b STATUS INBOX (MESSAGES)" ("b BAD not in this state" ∷ []) ∷ []) }
    ensures given_up { IsTalk connected (first "a AUTHENTICATE PLAIN" ("+ " ∷ []) ∷ first "*" ("a BAD syntax error" ∷ [])
        ∷ first "b LOGIN bob y" ("b OK LOGIN completed" ∷ []) ∷ []) }
    ensures begun { IsAnswered as_bob "a AUTHENTICATE PLAIN AGFkbQB4" ("a BAD not in this state" ∷ []) }
    ensures begun_without { IsAnswered as_bob "a AUTHENTICATE PLAIN" ("a BAD not in this state" ∷ []) }
{}
