// Limits, each at its number and one above it (RFC 9051, 5.1, 6.4.4 and 9).
ghost use Rattle.std.specs.Prelude.{◌≡◌, ◌++◌, List, [], ◌∷◌, codes, length, replicate};
ghost use Rattle.std.specs.List.{concat};
ghost use Rattle.mail_message.specs.Boxes.{Content};
ghost use Rattle.mail_message.specs.declared.message.Message.{Message};
ghost use Rattle.reply_law.specs.Scenes.{as_admin, as_bob_with, connected, selected, two};
ghost use Rattle.reply_law.specs.Talk.{IsAnswered, IsAnsweredTo};

/// A tag has at most 32 bytes, a name of a mailbox 255, a keyword 64, and 64 keys may be round a key.
pub fn texts_have_limits()
    ensures tag { IsAnswered connected "abcdefghijklmnopqrstuvwxyz012345 NOOP" ("abcdefghijklmnopqrstuvwxyz012345 OK NOOP completed" ∷ []) }
    ensures longer_tag { IsAnswered connected "abcdefghijklmnopqrstuvwxyz0123456 NOOP" ("* BAD syntax error" ∷ []) }
    ensures name { IsAnsweredTo as_admin (codes "a CREATE " ++ replicate 255 120) ("a OK CREATE completed" ∷ []) }
    ensures longer_name { IsAnsweredTo as_admin (codes "a CREATE " ++ replicate 256 120) ("a NO [NONEXISTENT] no such mailbox" ∷ []) }
    ensures keyword { IsAnsweredTo selected (codes "a STORE 2 +FLAGS.SILENT " ++ replicate 64 120) ("a OK STORE completed" ∷ []) }
    ensures longer_keyword { IsAnsweredTo selected (codes "a STORE 2 +FLAGS.SILENT " ++ replicate 65 120) ("a BAD syntax error" ∷ []) }
    ensures keys { IsAnsweredTo selected (codes "a SEARCH " ++ (concat (replicate 64 (codes "NOT ")) ++ codes "SEEN"))
        ("* ESEARCH (TAG \"a\") ALL 1" ∷ "a OK SEARCH completed" ∷ []) }
    ensures deeper_keys { IsAnsweredTo selected (codes "a SEARCH " ++ (concat (replicate 65 (codes "NOT ")) ++ codes "SEEN")) ("a BAD syntax error" ∷ []) }
    ensures groups { IsAnsweredTo selected (codes "a SEARCH " ++ (replicate 64 40 ++ (codes "SEEN" ++ replicate 64 41)))
        ("* ESEARCH (TAG \"a\") ALL 1" ∷ "a OK SEARCH completed" ∷ []) }
    ensures deeper_groups { IsAnsweredTo selected (codes "a SEARCH " ++ (replicate 65 40 ++ (codes "SEEN" ++ replicate 65 41)))
        ("a BAD syntax error" ∷ []) }
{}

/// A mailbox takes a message if it has fewer than 20,000, and if its UIDNEXT stays within 32 bits.
pub fn a_mailbox_has_limits()
    ensures room { (messages : List Message) → length messages ≡ 19999
        → IsAnswered (as_bob_with (record two { messages = messages })) "a APPEND INBOX {1+}\r\nx" ("a OK [APPENDUID 7 3] APPEND completed" ∷ []) }
    ensures full { (box : Content) → length box.messages ≡ 20000
        → IsAnswered (as_bob_with box) "a APPEND INBOX {1+}\r\nx" ("a NO [LIMIT] too large or too many" ∷ []) }
    ensures last_uid { IsAnswered (as_bob_with (record two { next = 4294967294 })) "a APPEND INBOX {1+}\r\nx"
        ("a OK [APPENDUID 7 4294967294] APPEND completed" ∷ []) }
    ensures no_uid { IsAnswered (as_bob_with (record two { next = 4294967295 })) "a APPEND INBOX {1+}\r\nx" ("a NO [LIMIT] too large or too many" ∷ []) }
{}
