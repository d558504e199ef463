// Which commands each state has, and what is no command (RFC 9051, 3 and 7.1.3).
ghost use Rattle.std.specs.Prelude.{[], ◌∷◌};
ghost use Rattle.reply_law.specs.Scenes.{as_admin, as_bob, connected, selected};
ghost use Rattle.reply_law.specs.Talk.{IsAnswered, IsTalk, first};

/// These are answered in every state (RFC 9051, 6.1), and nothing can be enabled (RFC 9051, 6.3.1).
pub fn some_commands_need_no_state()
    ensures capability { IsAnswered connected "a CAPABILITY" ("* CAPABILITY IMAP4rev2 AUTH=PLAIN" ∷ "a OK CAPABILITY completed" ∷ []) }
    ensures capability_begun { IsAnswered selected "a CAPABILITY" ("* CAPABILITY IMAP4rev2 AUTH=PLAIN" ∷ "a OK CAPABILITY completed" ∷ []) }
    ensures noop { IsAnswered connected "a NOOP" ("a OK NOOP completed" ∷ []) }
    ensures noop_begun { IsAnswered as_bob "a NOOP" ("a OK NOOP completed" ∷ []) }
    ensures noop_selected { IsAnswered selected "a NOOP" ("a OK NOOP completed" ∷ []) }
    ensures logout { IsAnswered connected "a LOGOUT" ("* BYE bye" ∷ "a OK LOGOUT completed" ∷ []) }
    ensures logout_selected { IsAnswered selected "a LOGOUT" ("* BYE bye" ∷ "a OK LOGOUT completed" ∷ []) }
    ensures enable { IsAnswered as_bob "a ENABLE CONDSTORE" ("* ENABLED" ∷ "a OK ENABLE completed" ∷ []) }
    ensures enable_selected { IsAnswered selected "a ENABLE CONDSTORE X" ("* ENABLED" ∷ "a OK ENABLE completed" ∷ []) }
{}

/// Before a login no mailbox can be asked for (RFC 9051, 3.1).
pub fn a_session_has_to_begin_first()
    ensures enable { IsAnswered connected "a ENABLE CONDSTORE" ("a BAD not in this state" ∷ []) }
    ensures select { IsAnswered connected "a2 SELECT x" ("a2 BAD not in this state" ∷ []) }
    ensures examine { IsAnswered connected "a EXAMINE INBOX" ("a BAD not in this state" ∷ []) }
    ensures create { IsAnswered connected "a CREATE x" ("a BAD not in this state" ∷ []) }
    ensures status { IsAnswered connected "a STATUS INBOX (MESSAGES)" ("a BAD not in this state" ∷ []) }
    ensures append { IsAnswered connected "a APPEND INBOX {1+}\r\nx" ("a BAD not in this state" ∷ []) }
    ensures list { IsAnswered connected "a LIST \"\" *" ("a BAD not in this state" ∷ []) }
    ensures delete { IsAnswered connected "a DELETE x" ("a BAD not in this state" ∷ []) }
    ensures rename { IsAnswered connected "a RENAME x y" ("a BAD not in this state" ∷ []) }
    ensures fetch { IsAnswered connected "a FETCH 1 FLAGS" ("a BAD not in this state" ∷ []) }
    ensures search { IsAnswered connected "a SEARCH ALL" ("a BAD not in this state" ∷ []) }
    ensures uid_search { IsAnswered connected "a UID SEARCH 5" ("a BAD not in this state" ∷ []) }
{}

/// Without a selected mailbox no message can be asked for (RFC 9051, 3.2 and 3.3).
pub fn a_mailbox_has_to_be_selected_first()
    ensures close { IsAnswered as_bob "a CLOSE" ("a BAD not in this state" ∷ []) }
    ensures unselect { IsAnswered as_bob "a UNSELECT" ("a BAD not in this state" ∷ []) }
    ensures expunge { IsAnswered as_bob "a EXPUNGE" ("a BAD not in this state" ∷ []) }
    ensures uid_expunge { IsAnswered as_bob "a UID EXPUNGE 1" ("a BAD not in this state" ∷ []) }
    ensures search { IsAnswered as_bob "a SEARCH ALL" ("a BAD not in this state" ∷ []) }
    ensures search_above { IsAnswered as_bob "a SEARCH 5" ("a BAD not in this state" ∷ []) }
    ensures uid_search { IsAnswered as_bob "a UID SEARCH ALL" ("a BAD not in this state" ∷ []) }
    ensures fetch { IsAnswered as_bob "a FETCH 1 FLAGS" ("a BAD not in this state" ∷ []) }
    ensures uid_fetch { IsAnswered as_bob "a UID FETCH 3 FLAGS" ("a BAD not in this state" ∷ []) }
    ensures store { IsAnswered as_bob "a STORE 1 FLAGS ()" ("a BAD not in this state" ∷ []) }
{}

/// What is no command is refused under its tag, or under `*` if it has none; a session goes on as it was.
pub fn other_lines_are_no_commands()
    ensures empty { IsAnswered connected "" ("* BAD syntax error" ∷ []) }
    ensures tag_alone { IsAnswered connected "a" ("* BAD syntax error" ∷ []) }
    ensures other_name { IsAnswered connected "a1 FETC 1" ("a1 BAD syntax error" ∷ []) }
    ensures more { IsAnswered connected "a NOOP now" ("a BAD syntax error" ∷ []) }
    ensures two_spaces { IsAnswered connected "a  NOOP" ("a BAD syntax error" ∷ []) }
    ensures bad_tag { IsAnswered connected "a+ NOOP" ("* BAD syntax error" ∷ []) }
    ensures goes_on { IsTalk selected (first "a FOO" ("a BAD syntax error" ∷ []) ∷ first "b NOOP" ("b OK NOOP completed" ∷ []) ∷ []) }
{}

/// Commands that nothing carries out (RFC 9051, 6.3, 6.4.7 and 6.4.8; RFC 3501, 6.3.9; RFC 4314, 3).
pub fn some_commands_cannot_be_done()
    ensures rename { IsAnswered as_bob "a RENAME x y" ("a NO [CANNOT] cannot be done" ∷ []) }
    ensures subscribe { IsAnswered as_bob "a SUBSCRIBE x" ("a NO [CANNOT] cannot be done" ∷ []) }
    ensures unsubscribe { IsAnswered as_bob "a UNSUBSCRIBE x" ("a NO [CANNOT] cannot be done" ∷ []) }
    ensures namespace { IsAnswered as_admin "a NAMESPACE" ("a NO [CANNOT] cannot be done" ∷ []) }
    ensures lsub { IsAnswered as_bob "a LSUB \"\" *" ("a NO [CANNOT] cannot be done" ∷ []) }
    ensures move_messages { IsAnswered selected "a MOVE 1 x" ("a NO [CANNOT] cannot be done" ∷ []) }
    ensures uid_move { IsAnswered selected "a UID MOVE 3 x" ("a NO [CANNOT] cannot be done" ∷ []) }
    ensures transfer { IsAnswered as_admin "a XFER user.amy b2" ("a NO [CANNOT] cannot be done" ∷ []) }
    ensures copy { IsAnswered selected "a COPY 1 INBOX" ("a NO [CANNOT] cannot be done" ∷ []) }
    ensures uid_copy { IsAnswered selected "a UID COPY 3 INBOX" ("a NO [CANNOT] cannot be done" ∷ []) }
    ensures rights { IsAnswered as_bob "a MYRIGHTS INBOX" ("a BAD syntax error" ∷ []) }
{}
