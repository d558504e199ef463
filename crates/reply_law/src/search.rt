// SEARCH and UID SEARCH (RFC 9051, 6.4.4, 6.4.9 and 7.3.4).
ghost use Rattle.std.specs.Prelude.{[], ◌∷◌};
ghost use Rattle.reply_law.specs.Scenes.{examined, selected, selected_empty};
ghost use Rattle.reply_law.specs.Talk.{IsAnswered};

/// Keys of flags, each beside its opposite. A keyword is compared byte by byte, and as a whole.
pub fn messages_are_searched_by_flags()
    ensures all { IsAnswered selected "a SEARCH ALL" ("* ESEARCH (TAG \"a\") ALL 1:4" ∷ "a OK SEARCH completed" ∷ []) }
    ensures answered { IsAnswered selected "a SEARCH ANSWERED" ("* ESEARCH (TAG \"a\") ALL 3" ∷ "a OK SEARCH completed" ∷ []) }
    ensures unanswered { IsAnswered selected "a SEARCH UNANSWERED" ("* ESEARCH (TAG \"a\") ALL 1:2,4" ∷ "a OK SEARCH completed" ∷ []) }
    ensures deleted { IsAnswered selected "a SEARCH DELETED" ("* ESEARCH (TAG \"a\") ALL 3" ∷ "a OK SEARCH completed" ∷ []) }
    ensures undeleted { IsAnswered selected "a SEARCH UNDELETED" ("* ESEARCH (TAG \"a\") ALL 1:2,4" ∷ "a OK SEARCH completed" ∷ []) }
    ensures draft { IsAnswered selected "a SEARCH DRAFT" ("* ESEARCH (TAG \"a\") ALL 4" ∷ "a OK SEARCH completed" ∷ []) }
    ensures undraft { IsAnswered selected "a SEARCH UNDRAFT" ("* ESEARCH (TAG \"a\") ALL 1:3" ∷ "a OK SEARCH completed" ∷ []) }
    ensures flagged { IsAnswered selected "a SEARCH FLAGGED" ("* ESEARCH (TAG \"a\") ALL 4" ∷ "a OK SEARCH completed" ∷ []) }
    ensures unflagged { IsAnswered selected "a SEARCH UNFLAGGED" ("* ESEARCH (TAG \"a\") ALL 1:3" ∷ "a OK SEARCH completed" ∷ []) }
    ensures seen { IsAnswered selected "a SEARCH SEEN" ("* ESEARCH (TAG \"a\") ALL 1" ∷ "a OK SEARCH completed" ∷ []) }
    ensures unseen { IsAnswered selected "a SEARCH UNSEEN" ("* ESEARCH (TAG \"a\") ALL 2:4" ∷ "a OK SEARCH completed" ∷ []) }
    ensures keyword { IsAnswered selected "a SEARCH KEYWORD Work" ("* ESEARCH (TAG \"a\") ALL 3" ∷ "a OK SEARCH completed" ∷ []) }
    ensures other_keyword { IsAnswered selected "a SEARCH KEYWORD $Fwd" ("* ESEARCH (TAG \"a\") ALL 3" ∷ "a OK SEARCH completed" ∷ []) }
    ensures keyword_case { IsAnswered selected "a SEARCH KEYWORD work" ("* ESEARCH (TAG \"a\")" ∷ "a OK SEARCH completed" ∷ []) }
    ensures keyword_part { IsAnswered selected "a SEARCH KEYWORD Wor" ("* ESEARCH (TAG \"a\")" ∷ "a OK SEARCH completed" ∷ []) }
    ensures unkeyword { IsAnswered selected "a SEARCH UNKEYWORD Work" ("* ESEARCH (TAG \"a\") ALL 1:2,4" ∷ "a OK SEARCH completed" ∷ []) }
    ensures unkeyword_case { IsAnswered selected "a SEARCH UNKEYWORD work" ("* ESEARCH (TAG \"a\") ALL 1:4" ∷ "a OK SEARCH completed" ∷ []) }
    ensures any_case { IsAnswered selected "a search unSeen" ("* ESEARCH (TAG \"a\") ALL 2:4" ∷ "a OK SEARCH completed" ∷ []) }
    ensures read_only { IsAnswered examined "a SEARCH SEEN" ("* ESEARCH (TAG \"a\") ALL 1" ∷ "a OK SEARCH completed" ∷ []) }
    ensures tag { IsAnswered selected "A-1] SEARCH SEEN" ("* ESEARCH (TAG \"A-1]\") ALL 1" ∷ "A-1] OK SEARCH completed" ∷ []) }
{}

/// LARGER and SMALLER leave out the size itself. The messages have 5, 2, 8 and 0 octets.
pub fn messages_are_searched_by_size()
    ensures larger_below { IsAnswered selected "a SEARCH LARGER 4" ("* ESEARCH (TAG \"a\") ALL 1,3" ∷ "a OK SEARCH completed" ∷ []) }
    ensures larger_at { IsAnswered selected "a SEARCH LARGER 5" ("* ESEARCH (TAG \"a\") ALL 3" ∷ "a OK SEARCH completed" ∷ []) }
    ensures larger_below_most { IsAnswered selected "a SEARCH LARGER 7" ("* ESEARCH (TAG \"a\") ALL 3" ∷ "a OK SEARCH completed" ∷ []) }
    ensures larger_at_most { IsAnswered selected "a SEARCH LARGER 8" ("* ESEARCH (TAG \"a\")" ∷ "a OK SEARCH completed" ∷ []) }
    ensures larger_at_least { IsAnswered selected "a SEARCH LARGER 0" ("* ESEARCH (TAG \"a\") ALL 1:3" ∷ "a OK SEARCH completed" ∷ []) }
    ensures smaller_above { IsAnswered selected "a SEARCH SMALLER 6" ("* ESEARCH (TAG \"a\") ALL 1:2,4" ∷ "a OK SEARCH completed" ∷ []) }
    ensures smaller_at { IsAnswered selected "a SEARCH SMALLER 5" ("* ESEARCH (TAG \"a\") ALL 2,4" ∷ "a OK SEARCH completed" ∷ []) }
    ensures smaller_above_least { IsAnswered selected "a SEARCH SMALLER 1" ("* ESEARCH (TAG \"a\") ALL 4" ∷ "a OK SEARCH completed" ∷ []) }
    ensures smaller_at_least { IsAnswered selected "a SEARCH SMALLER 0" ("* ESEARCH (TAG \"a\")" ∷ "a OK SEARCH completed" ∷ []) }
    ensures smaller_above_most { IsAnswered selected "a SEARCH SMALLER 9" ("* ESEARCH (TAG \"a\") ALL 1:4" ∷ "a OK SEARCH completed" ∷ []) }
    ensures largest_number { IsAnswered selected "a SEARCH SMALLER 9223372036854775807" ("* ESEARCH (TAG \"a\") ALL 1:4" ∷ "a OK SEARCH completed" ∷ []) }
    ensures larger_number { IsAnswered selected "a SEARCH SMALLER 9223372036854775808" ("a BAD syntax error" ∷ []) }
{}

/// The day before, the day itself and the day after; time and zone count for nothing. The messages are of 17 July 1996; of 18 July 1996; of 1 August
/// 1996, 23:30 in a zone 7 hours behind UTC; and of 17 July 1997, 00:00 in a zone 2 hours ahead of it.
pub fn messages_are_searched_by_day()
    ensures before { IsAnswered selected "a SEARCH BEFORE 17-Jul-1996" ("* ESEARCH (TAG \"a\")" ∷ "a OK SEARCH completed" ∷ []) }
    ensures before_next { IsAnswered selected "a SEARCH BEFORE 18-Jul-1996" ("* ESEARCH (TAG \"a\") ALL 1" ∷ "a OK SEARCH completed" ∷ []) }
    ensures before_one_more { IsAnswered selected "a SEARCH BEFORE 19-Jul-1996" ("* ESEARCH (TAG \"a\") ALL 1:2" ∷ "a OK SEARCH completed" ∷ []) }
    ensures before_month { IsAnswered selected "a SEARCH BEFORE 1-Aug-1996" ("* ESEARCH (TAG \"a\") ALL 1:2" ∷ "a OK SEARCH completed" ∷ []) }
    ensures before_within_month { IsAnswered selected "a SEARCH BEFORE 2-Aug-1996" ("* ESEARCH (TAG \"a\") ALL 1:3" ∷ "a OK SEARCH completed" ∷ []) }
    ensures before_year { IsAnswered selected "a SEARCH BEFORE 17-Jul-1997" ("* ESEARCH (TAG \"a\") ALL 1:3" ∷ "a OK SEARCH completed" ∷ []) }
    ensures before_none { IsAnswered selected "a SEARCH BEFORE 18-Jul-1997" ("* ESEARCH (TAG \"a\") ALL 1:4" ∷ "a OK SEARCH completed" ∷ []) }
    ensures on_earlier { IsAnswered selected "a SEARCH ON 16-Jul-1996" ("* ESEARCH (TAG \"a\")" ∷ "a OK SEARCH completed" ∷ []) }
    ensures on { IsAnswered selected "a SEARCH ON 17-Jul-1996" ("* ESEARCH (TAG \"a\") ALL 1" ∷ "a OK SEARCH completed" ∷ []) }
    ensures on_later { IsAnswered selected "a SEARCH ON 18-Jul-1996" ("* ESEARCH (TAG \"a\") ALL 2" ∷ "a OK SEARCH completed" ∷ []) }
    ensures on_latest { IsAnswered selected "a SEARCH ON 19-Jul-1996" ("* ESEARCH (TAG \"a\")" ∷ "a OK SEARCH completed" ∷ []) }
    ensures on_other_month { IsAnswered selected "a SEARCH ON 17-Aug-1996" ("* ESEARCH (TAG \"a\")" ∷ "a OK SEARCH completed" ∷ []) }
    ensures on_other_year { IsAnswered selected "a SEARCH ON 17-Jul-1997" ("* ESEARCH (TAG \"a\") ALL 4" ∷ "a OK SEARCH completed" ∷ []) }
    ensures zone_behind { IsAnswered selected "a SEARCH ON 1-Aug-1996" ("* ESEARCH (TAG \"a\") ALL 3" ∷ "a OK SEARCH completed" ∷ []) }
    ensures zone_behind_in_utc { IsAnswered selected "a SEARCH ON 2-Aug-1996" ("* ESEARCH (TAG \"a\")" ∷ "a OK SEARCH completed" ∷ []) }
    ensures zone_ahead_in_utc { IsAnswered selected "a SEARCH ON 16-Jul-1997" ("* ESEARCH (TAG \"a\")" ∷ "a OK SEARCH completed" ∷ []) }
    ensures since_earlier { IsAnswered selected "a SEARCH SINCE 16-Jul-1996" ("* ESEARCH (TAG \"a\") ALL 1:4" ∷ "a OK SEARCH completed" ∷ []) }
    ensures since { IsAnswered selected "a SEARCH SINCE 17-Jul-1996" ("* ESEARCH (TAG \"a\") ALL 1:4" ∷ "a OK SEARCH completed" ∷ []) }
    ensures since_later { IsAnswered selected "a SEARCH SINCE 18-Jul-1996" ("* ESEARCH (TAG \"a\") ALL 2:4" ∷ "a OK SEARCH completed" ∷ []) }
    ensures since_month { IsAnswered selected "a SEARCH SINCE 1-Aug-1996" ("* ESEARCH (TAG \"a\") ALL 3:4" ∷ "a OK SEARCH completed" ∷ []) }
    ensures since_within_month { IsAnswered selected "a SEARCH SINCE 2-Aug-1996" ("* ESEARCH (TAG \"a\") ALL 4" ∷ "a OK SEARCH completed" ∷ []) }
    ensures since_year { IsAnswered selected "a SEARCH SINCE 17-Jul-1997" ("* ESEARCH (TAG \"a\") ALL 4" ∷ "a OK SEARCH completed" ∷ []) }
    ensures since_none { IsAnswered selected "a SEARCH SINCE 18-Jul-1997" ("* ESEARCH (TAG \"a\")" ∷ "a OK SEARCH completed" ∷ []) }
    ensures quoted { IsAnswered selected "a SEARCH ON \"17-Jul-1997\"" ("* ESEARCH (TAG \"a\") ALL 4" ∷ "a OK SEARCH completed" ∷ []) }
    ensures two_digits { IsAnswered selected "a SEARCH ON 01-Aug-1996" ("* ESEARCH (TAG \"a\") ALL 3" ∷ "a OK SEARCH completed" ∷ []) }
    ensures any_case { IsAnswered selected "a SEARCH on 1-aUG-1996" ("* ESEARCH (TAG \"a\") ALL 3" ∷ "a OK SEARCH completed" ∷ []) }
    ensures no_day { IsAnswered selected "a SEARCH ON 0-Jul-1996" ("a BAD syntax error" ∷ []) }
    ensures too_late_a_day { IsAnswered selected "a SEARCH ON 32-Jul-1996" ("a BAD syntax error" ∷ []) }
    ensures no_month { IsAnswered selected "a SEARCH ON 17-Foo-1996" ("a BAD syntax error" ∷ []) }
    ensures short_year { IsAnswered selected "a SEARCH ON 17-Jul-96" ("a BAD syntax error" ∷ []) }
    ensures with_time { IsAnswered selected "a SEARCH ON \"17-Jul-1996 02:44:25 -0700\"" ("a BAD syntax error" ∷ []) }
{}

/// Sets of numbers: ranges in either order, `*`, the same number twice; a number above the last is refused (RFC 9051, 9: sequence-set).
pub fn messages_are_searched_by_numbers()
    ensures one { IsAnswered selected "a SEARCH 2" ("* ESEARCH (TAG \"a\") ALL 2" ∷ "a OK SEARCH completed" ∷ []) }
    ensures range { IsAnswered selected "a SEARCH 2:3" ("* ESEARCH (TAG \"a\") ALL 2:3" ∷ "a OK SEARCH completed" ∷ []) }
    ensures falling { IsAnswered selected "a SEARCH 3:2" ("* ESEARCH (TAG \"a\") ALL 2:3" ∷ "a OK SEARCH completed" ∷ []) }
    ensures gap { IsAnswered selected "a SEARCH 4,1" ("* ESEARCH (TAG \"a\") ALL 1,4" ∷ "a OK SEARCH completed" ∷ []) }
    ensures twice { IsAnswered selected "a SEARCH 2,1:2" ("* ESEARCH (TAG \"a\") ALL 1:2" ∷ "a OK SEARCH completed" ∷ []) }
    ensures last { IsAnswered selected "a SEARCH *" ("* ESEARCH (TAG \"a\") ALL 4" ∷ "a OK SEARCH completed" ∷ []) }
    ensures to_last { IsAnswered selected "a SEARCH 3:*" ("* ESEARCH (TAG \"a\") ALL 3:4" ∷ "a OK SEARCH completed" ∷ []) }
    ensures from_last { IsAnswered selected "a SEARCH *:3" ("* ESEARCH (TAG \"a\") ALL 3:4" ∷ "a OK SEARCH completed" ∷ []) }
    ensures last_to_last { IsAnswered selected "a SEARCH *:*" ("* ESEARCH (TAG \"a\") ALL 4" ∷ "a OK SEARCH completed" ∷ []) }
    ensures above { IsAnswered selected "a SEARCH 5" ("a BAD no such message" ∷ []) }
    ensures range_above { IsAnswered selected "a SEARCH 4:5" ("a BAD no such message" ∷ []) }
    ensures above_to_last { IsAnswered selected "a SEARCH 5:*" ("a BAD no such message" ∷ []) }
    ensures above_behind { IsAnswered selected "a SEARCH 1,5" ("a BAD no such message" ∷ []) }
    ensures none { IsAnswered selected_empty "a SEARCH ALL" ("* ESEARCH (TAG \"a\")" ∷ "a OK SEARCH completed" ∷ []) }
    ensures one_of_none { IsAnswered selected_empty "a SEARCH 1" ("a BAD no such message" ∷ []) }
    ensures last_of_none { IsAnswered selected_empty "a SEARCH *" ("a BAD no such message" ∷ []) }
    ensures zero { IsAnswered selected "a SEARCH 0" ("a BAD syntax error" ∷ []) }
    ensures no_end { IsAnswered selected "a SEARCH 1:" ("a BAD syntax error" ∷ []) }
    ensures too_large_a_number { IsAnswered selected "a SEARCH 4294967296" ("a BAD syntax error" ∷ []) }
{}

/// Sets of UIDs: they may be missing, and `*` is the UID of the last message (RFC 9051, 6.4.4: UID).
pub fn messages_are_searched_by_uids()
    ensures one { IsAnswered selected "a SEARCH UID 5" ("* ESEARCH (TAG \"a\") ALL 2" ∷ "a OK SEARCH completed" ∷ []) }
    ensures number_of_another { IsAnswered selected "a SEARCH UID 3" ("* ESEARCH (TAG \"a\") ALL 1" ∷ "a OK SEARCH completed" ∷ []) }
    ensures range { IsAnswered selected "a SEARCH UID 5:8" ("* ESEARCH (TAG \"a\") ALL 2:3" ∷ "a OK SEARCH completed" ∷ []) }
    ensures falling { IsAnswered selected "a SEARCH UID 8:5" ("* ESEARCH (TAG \"a\") ALL 2:3" ∷ "a OK SEARCH completed" ∷ []) }
    ensures gaps { IsAnswered selected "a SEARCH UID 4:7" ("* ESEARCH (TAG \"a\") ALL 2" ∷ "a OK SEARCH completed" ∷ []) }
    ensures list { IsAnswered selected "a SEARCH UID 9,3" ("* ESEARCH (TAG \"a\") ALL 1,4" ∷ "a OK SEARCH completed" ∷ []) }
    ensures missing { IsAnswered selected "a SEARCH UID 6:7" ("* ESEARCH (TAG \"a\")" ∷ "a OK SEARCH completed" ∷ []) }
    ensures above { IsAnswered selected "a SEARCH UID 10" ("* ESEARCH (TAG \"a\")" ∷ "a OK SEARCH completed" ∷ []) }
    ensures last { IsAnswered selected "a SEARCH UID *" ("* ESEARCH (TAG \"a\") ALL 4" ∷ "a OK SEARCH completed" ∷ []) }
    ensures to_last { IsAnswered selected "a SEARCH UID 8:*" ("* ESEARCH (TAG \"a\") ALL 3:4" ∷ "a OK SEARCH completed" ∷ []) }
    ensures above_to_last { IsAnswered selected "a SEARCH UID 100:*" ("* ESEARCH (TAG \"a\") ALL 4" ∷ "a OK SEARCH completed" ∷ []) }
    ensures last_of_none { IsAnswered selected_empty "a SEARCH UID *" ("* ESEARCH (TAG \"a\")" ∷ "a OK SEARCH completed" ∷ []) }
    ensures greatest { IsAnswered selected "a SEARCH UID 4294967295" ("* ESEARCH (TAG \"a\")" ∷ "a OK SEARCH completed" ∷ []) }
    ensures zero { IsAnswered selected "a SEARCH UID 0" ("a BAD syntax error" ∷ []) }
    ensures no_set { IsAnswered selected "a SEARCH UID" ("a BAD syntax error" ∷ []) }
{}

/// NOT, OR, several keys, keys in parentheses. A number that no message has is refused wherever it stands. `RETURN ()` and `RETURN (ALL)` ask for what
/// is returned without them (RFC 9051, 6.4.4).
pub fn keys_are_put_together()
    ensures negated { IsAnswered selected "a SEARCH NOT SEEN" ("* ESEARCH (TAG \"a\") ALL 2:4" ∷ "a OK SEARCH completed" ∷ []) }
    ensures negated_twice { IsAnswered selected "a SEARCH NOT NOT SEEN" ("* ESEARCH (TAG \"a\") ALL 1" ∷ "a OK SEARCH completed" ∷ []) }
    ensures either { IsAnswered selected "a SEARCH OR SEEN DELETED" ("* ESEARCH (TAG \"a\") ALL 1,3" ∷ "a OK SEARCH completed" ∷ []) }
    ensures either_first { IsAnswered selected "a SEARCH OR OR SEEN DELETED DRAFT" ("* ESEARCH (TAG \"a\") ALL 1,3:4" ∷ "a OK SEARCH completed" ∷ []) }
    ensures either_second { IsAnswered selected "a SEARCH OR SEEN OR DELETED DRAFT" ("* ESEARCH (TAG \"a\") ALL 1,3:4" ∷ "a OK SEARCH completed" ∷ []) }
    ensures either_of_both { IsAnswered selected "a SEARCH OR ALL SEEN" ("* ESEARCH (TAG \"a\") ALL 1:4" ∷ "a OK SEARCH completed" ∷ []) }
    ensures both { IsAnswered selected "a SEARCH UNSEEN UNDELETED" ("* ESEARCH (TAG \"a\") ALL 2,4" ∷ "a OK SEARCH completed" ∷ []) }
    ensures three { IsAnswered selected "a SEARCH UNSEEN UNDELETED LARGER 1" ("* ESEARCH (TAG \"a\") ALL 2" ∷ "a OK SEARCH completed" ∷ []) }
    ensures none_of_both { IsAnswered selected "a SEARCH SEEN DELETED" ("* ESEARCH (TAG \"a\")" ∷ "a OK SEARCH completed" ∷ []) }
    ensures either_and_one { IsAnswered selected "a SEARCH OR SEEN DELETED UNDELETED" ("* ESEARCH (TAG \"a\") ALL 1" ∷ "a OK SEARCH completed" ∷ []) }
    ensures group { IsAnswered selected "a SEARCH (UNSEEN UNDELETED)" ("* ESEARCH (TAG \"a\") ALL 2,4" ∷ "a OK SEARCH completed" ∷ []) }
    ensures group_of_one { IsAnswered selected "a SEARCH ((ANSWERED))" ("* ESEARCH (TAG \"a\") ALL 3" ∷ "a OK SEARCH completed" ∷ []) }
    ensures negated_group { IsAnswered selected "a SEARCH NOT (UNSEEN UNDELETED)" ("* ESEARCH (TAG \"a\") ALL 1,3" ∷ "a OK SEARCH completed" ∷ []) }
    ensures negated_first { IsAnswered selected "a SEARCH NOT UNSEEN UNDELETED" ("* ESEARCH (TAG \"a\") ALL 1" ∷ "a OK SEARCH completed" ∷ []) }
    ensures either_group { IsAnswered selected "a SEARCH OR (SEEN LARGER 4) (DRAFT UNDELETED)" ("* ESEARCH (TAG \"a\") ALL 1,4" ∷ "a OK SEARCH completed" ∷ []) }
    ensures group_and_one { IsAnswered selected "a SEARCH (OR SEEN DRAFT) 2:4" ("* ESEARCH (TAG \"a\") ALL 4" ∷ "a OK SEARCH completed" ∷ []) }
    ensures negated_number { IsAnswered selected "a SEARCH NOT 2" ("* ESEARCH (TAG \"a\") ALL 1,3:4" ∷ "a OK SEARCH completed" ∷ []) }
    ensures negated_last { IsAnswered selected "a SEARCH NOT *" ("* ESEARCH (TAG \"a\") ALL 1:3" ∷ "a OK SEARCH completed" ∷ []) }
    ensures negated_uid { IsAnswered selected "a SEARCH NOT UID 5:9" ("* ESEARCH (TAG \"a\") ALL 1" ∷ "a OK SEARCH completed" ∷ []) }
    ensures negated_keyword { IsAnswered selected "a SEARCH NOT KEYWORD Work" ("* ESEARCH (TAG \"a\") ALL 1:2,4" ∷ "a OK SEARCH completed" ∷ []) }
    ensures number_or_uid { IsAnswered selected "a SEARCH OR 1 UID 9" ("* ESEARCH (TAG \"a\") ALL 1,4" ∷ "a OK SEARCH completed" ∷ []) }
    ensures negated_above { IsAnswered selected "a SEARCH NOT 5" ("a BAD no such message" ∷ []) }
    ensures either_above { IsAnswered selected "a SEARCH OR ALL 5" ("a BAD no such message" ∷ []) }
    ensures group_above { IsAnswered selected "a SEARCH SEEN (DELETED (1:5))" ("a BAD no such message" ∷ []) }
    ensures return_all { IsAnswered selected "a SEARCH RETURN (ALL) SEEN" ("* ESEARCH (TAG \"a\") ALL 1" ∷ "a OK SEARCH completed" ∷ []) }
    ensures return_none { IsAnswered selected "a SEARCH RETURN () SEEN" ("* ESEARCH (TAG \"a\") ALL 1" ∷ "a OK SEARCH completed" ∷ []) }
    ensures return_any_case { IsAnswered selected "a SEARCH return (all) seen" ("* ESEARCH (TAG \"a\") ALL 1" ∷ "a OK SEARCH completed" ∷ []) }
{}

/// UID SEARCH tells UIDs, and says so; a set of numbers in its keys is one of numbers still (RFC 9051, 6.4.9 and 7.3.4).
pub fn a_search_by_uid_tells_uids()
    ensures all { IsAnswered selected "a UID SEARCH ALL" ("* ESEARCH (TAG \"a\") UID ALL 3,5,8:9" ∷ "a OK UID SEARCH completed" ∷ []) }
    ensures one { IsAnswered selected "a UID SEARCH DELETED" ("* ESEARCH (TAG \"a\") UID ALL 8" ∷ "a OK UID SEARCH completed" ∷ []) }
    ensures none { IsAnswered selected "a UID SEARCH KEYWORD work" ("* ESEARCH (TAG \"a\") UID" ∷ "a OK UID SEARCH completed" ∷ []) }
    ensures number { IsAnswered selected "a UID SEARCH 2" ("* ESEARCH (TAG \"a\") UID ALL 5" ∷ "a OK UID SEARCH completed" ∷ []) }
    ensures falling { IsAnswered selected "a UID SEARCH 3:2" ("* ESEARCH (TAG \"a\") UID ALL 5,8" ∷ "a OK UID SEARCH completed" ∷ []) }
    ensures last { IsAnswered selected "a UID SEARCH *" ("* ESEARCH (TAG \"a\") UID ALL 9" ∷ "a OK UID SEARCH completed" ∷ []) }
    ensures uids { IsAnswered selected "a UID SEARCH UID 4:8" ("* ESEARCH (TAG \"a\") UID ALL 5,8" ∷ "a OK UID SEARCH completed" ∷ []) }
    ensures negated { IsAnswered selected "a UID SEARCH NOT LARGER 2" ("* ESEARCH (TAG \"a\") UID ALL 5,9" ∷ "a OK UID SEARCH completed" ∷ []) }
    ensures both { IsAnswered selected "a UID SEARCH SINCE 18-Jul-1996 UNDELETED" ("* ESEARCH (TAG \"a\") UID ALL 5,9" ∷ "a OK UID SEARCH completed" ∷ []) }
    ensures read_only { IsAnswered examined "a UID SEARCH UNSEEN" ("* ESEARCH (TAG \"a\") UID ALL 5,8:9" ∷ "a OK UID SEARCH completed" ∷ []) }
    ensures of_none { IsAnswered selected_empty "a UID SEARCH ALL" ("* ESEARCH (TAG \"a\") UID" ∷ "a OK UID SEARCH completed" ∷ []) }
    ensures return_all { IsAnswered selected "a UID SEARCH RETURN (ALL) DRAFT" ("* ESEARCH (TAG \"a\") UID ALL 9" ∷ "a OK UID SEARCH completed" ∷ []) }
    ensures above { IsAnswered selected "a UID SEARCH 5" ("a BAD no such message" ∷ []) }
    ensures above_within { IsAnswered selected "a UID SEARCH OR SEEN NOT 5" ("a BAD no such message" ∷ []) }
    ensures last_of_none { IsAnswered selected_empty "a UID SEARCH *" ("a BAD no such message" ∷ []) }
{}

/// Keys that IMAP4rev2 has no more (RFC 9051, E), keys of headers and texts, which the server doesn't take, and what is no key at all.
pub fn other_keys_are_no_keys()
    ensures new { IsAnswered selected "a SEARCH NEW" ("a BAD syntax error" ∷ []) }
    ensures old { IsAnswered selected "a SEARCH OLD" ("a BAD syntax error" ∷ []) }
    ensures recent { IsAnswered selected "a SEARCH RECENT" ("a BAD syntax error" ∷ []) }
    ensures sent_before { IsAnswered selected "a SEARCH SENTBEFORE 1-Aug-1996" ("a BAD syntax error" ∷ []) }
    ensures sent_on { IsAnswered selected "a SEARCH SENTON 1-Aug-1996" ("a BAD syntax error" ∷ []) }
    ensures sent_since { IsAnswered selected "a SEARCH SENTSINCE 1-Aug-1996" ("a BAD syntax error" ∷ []) }
    ensures bcc { IsAnswered selected "a SEARCH BCC x" ("a BAD syntax error" ∷ []) }
    ensures body { IsAnswered selected "a SEARCH BODY x" ("a BAD syntax error" ∷ []) }
    ensures cc { IsAnswered selected "a SEARCH CC x" ("a BAD syntax error" ∷ []) }
    ensures from { IsAnswered selected "a SEARCH FROM x" ("a BAD syntax error" ∷ []) }
    ensures header { IsAnswered selected "a SEARCH HEADER x y" ("a BAD syntax error" ∷ []) }
    ensures subject { IsAnswered selected "a SEARCH SUBJECT x" ("a BAD syntax error" ∷ []) }
    ensures text { IsAnswered selected "a SEARCH TEXT x" ("a BAD syntax error" ∷ []) }
    ensures to { IsAnswered selected "a SEARCH TO x" ("a BAD syntax error" ∷ []) }
    ensures behind_a_key { IsAnswered selected "a SEARCH SEEN RECENT" ("a BAD syntax error" ∷ []) }
    ensures negated { IsAnswered selected "a SEARCH NOT RECENT" ("a BAD syntax error" ∷ []) }
    ensures by_uid { IsAnswered selected "a UID SEARCH TEXT x" ("a BAD syntax error" ∷ []) }
    ensures no_key { IsAnswered selected "a SEARCH" ("a BAD syntax error" ∷ []) }
    ensures no_key_behind_space { IsAnswered selected "a SEARCH " ("a BAD syntax error" ∷ []) }
    ensures two_spaces { IsAnswered selected "a SEARCH SEEN  DELETED" ("a BAD syntax error" ∷ []) }
    ensures no_group { IsAnswered selected "a SEARCH ()" ("a BAD syntax error" ∷ []) }
    ensures open_group { IsAnswered selected "a SEARCH (SEEN" ("a BAD syntax error" ∷ []) }
    ensures not_alone { IsAnswered selected "a SEARCH NOT" ("a BAD syntax error" ∷ []) }
    ensures or_of_one { IsAnswered selected "a SEARCH OR SEEN" ("a BAD syntax error" ∷ []) }
    ensures longer_name { IsAnswered selected "a SEARCH SEENS" ("a BAD syntax error" ∷ []) }
    ensures system_keyword { IsAnswered selected "a SEARCH KEYWORD \\Seen" ("a BAD syntax error" ∷ []) }
    ensures no_size { IsAnswered selected "a SEARCH LARGER x" ("a BAD syntax error" ∷ []) }
    ensures charset { IsAnswered selected "a SEARCH CHARSET UTF-8 ALL" ("a BAD syntax error" ∷ []) }
    ensures return_min { IsAnswered selected "a SEARCH RETURN (MIN) ALL" ("a BAD syntax error" ∷ []) }
    ensures return_count { IsAnswered selected "a SEARCH RETURN (ALL COUNT) ALL" ("a BAD syntax error" ∷ []) }
    ensures return_alone { IsAnswered selected "a SEARCH RETURN (ALL)" ("a BAD syntax error" ∷ []) }
{}
