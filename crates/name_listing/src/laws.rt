// What LIST tells, as laws of its definition.
ghost use Rattle.std.specs.Prelude.{◌≡◌, ◌≢◌, ◌↔◌, ◌⊎◌, ◌≤◌, ℕ, length, List, [], ◌∷◌, ◌++◌, codes, None, Some, true};
ghost use Rattle.std.specs.List.{Any, Contains};
ghost use Rattle.mur_base.specs.declared.limits.TheConstants.{NAME_LIMIT};
ghost use Rattle.mur_base.specs.Inbox.{behind_inbox, shown_name, taken_name};
ghost use Rattle.mur_base.specs.Names.{mail_name_fault};
ghost use Rattle.mur_base.specs.Patterns.{matches};
ghost use Rattle.imap_types.specs.declared.reply.Attribute.{Attribute};
ghost use Rattle.imap_types.specs.declared.reply.Attribute.TheVariants.{None as no_attribute, NoSelect, NonExistent};
ghost use Rattle.name_listing.specs.Found.{found_lines};
ghost use Rattle.name_listing.specs.Listing.{Lines, IsListing, listed_as, pattern_of};
ghost use Rattle.name_listing.specs.Told.{StandsAbove, IsOneLevel, IsToldLevel, HasNoWildcard};

/// Of mailboxes a pattern has one listing: what is found.
pub fn there_is_one_listing()
    ensures some { (pattern : List ℕ) (names : List (List ℕ)) → IsListing pattern names (found_lines pattern names) }
    ensures one { (pattern : List ℕ) (names : List (List ℕ)) (one other : Lines) → IsListing pattern names one
        → IsListing pattern names other → one ≡ other }
{}

/// Each line tells what is listed of its name, and what is listed has a line.
pub fn each_line_tells_what_is_listed()
    ensures { (pattern : List ℕ) (names : List (List ℕ)) (lines : Lines) (name : List ℕ) (attribute : Attribute) → IsListing pattern names lines
        → (Contains lines (name, attribute)) ↔ (listed_as pattern names name ≡ Some attribute) }
{}

/// What is listed matches the pattern, and is listed as a mailbox or as a level that is none.
pub fn what_is_listed_matches()
    ensures fits { (pattern : List ℕ) (names : List (List ℕ)) (name : List ℕ) (attribute : Attribute)
        → listed_as pattern names name ≡ Some attribute → matches pattern name ≡ true }
    ensures as_these { (pattern : List ℕ) (names : List (List ℕ)) (name : List ℕ) → listed_as pattern names name ≢ Some NoSelect }
{}

/// A name is listed without an attribute exactly if it is a mailbox and matches.
pub fn mailboxes_that_match_are_listed()
    ensures { (pattern : List ℕ) (names : List (List ℕ)) (name : List ℕ)
        → (listed_as pattern names name ≡ Some no_attribute) ↔ (Contains names name × (matches pattern name ≡ true)) }
{}

/// A name is listed as none that exists exactly if it is no mailbox, stands above one, and matches a pattern that ends in `%`.
pub fn levels_above_mailboxes_are_listed()
    ensures { (pattern : List ℕ) (names : List (List ℕ)) (name : List ℕ)
        → (listed_as pattern names name ≡ Some NonExistent) ↔ IsToldLevel pattern names name }
{}

/// `*` lists all mailboxes, and nothing else.
pub fn star_lists_all_mailboxes()
    ensures all { (names : List (List ℕ)) (name : List ℕ) → Contains names name → listed_as (codes "*") names name ≡ Some no_attribute }
    ensures only { (names : List (List ℕ)) (name : List ℕ) → (Contains names name → ⊥) → listed_as (codes "*") names name ≡ None }
{}

/// `%` lists the mailboxes of one level and the first levels of the others, and nothing else.
pub fn percent_lists_one_level()
    ensures mailboxes { (names : List (List ℕ)) (name : List ℕ) → IsOneLevel name → Contains names name
        → listed_as (codes "%") names name ≡ Some no_attribute }
    ensures levels { (names : List (List ℕ)) (name : List ℕ) → IsOneLevel name → Any (StandsAbove name) names → (Contains names name → ⊥)
        → listed_as (codes "%") names name ≡ Some NonExistent }
    ensures only { (names : List (List ℕ)) (name : List ℕ) (attribute : Attribute) → listed_as (codes "%") names name ≡ Some attribute
        → IsOneLevel name × (Contains names name ⊎ Any (StandsAbove name) names) }
{}

/// A pattern without wildcards lists the mailbox of that name, and nothing else.
pub fn a_plain_pattern_lists_one_mailbox()
    ensures there { (pattern : List ℕ) (names : List (List ℕ)) → HasNoWildcard pattern → Contains names pattern
        → listed_as pattern names pattern ≡ Some no_attribute }
    ensures only { (pattern : List ℕ) (names : List (List ℕ)) (name : List ℕ) (attribute : Attribute) → HasNoWildcard pattern
        → listed_as pattern names name ≡ Some attribute → (name ≡ pattern) × Contains names name }
{}

/// INBOX in any case, as the first level, means in a pattern what it means in a name. Any other pattern is taken as it is.
pub fn inbox_is_taken_as_in_names()
    ensures inbox { (user reference mailbox rest : List ℕ) → behind_inbox (reference ++ mailbox) ≡ Some rest
        → pattern_of reference mailbox ≡ shown_name user (taken_name user (reference ++ mailbox)) }
    ensures other { (reference mailbox : List ℕ) → behind_inbox (reference ++ mailbox) ≡ None
        → pattern_of reference mailbox ≡ reference ++ mailbox }
{}

/// What a user is shown of a mailbox's name is short enough to be listed.
pub fn a_shown_name_can_be_listed()
    ensures { (user name : List ℕ) → mail_name_fault name ≡ None → length (shown_name user name) ≤ NAME_LIMIT }
{}

/// Worked listings.
pub fn some_listings()
    ensures above { IsListing (pattern_of [] (codes "%")) (codes "user.bob.work" ∷ []) ((codes "user", NonExistent) ∷ []) }
    ensures all { IsListing (pattern_of [] (codes "*")) (codes "INBOX.work" ∷ codes "INBOX.work" ∷ []) ((codes "INBOX.work", no_attribute) ∷ []) }
    ensures mailbox { IsListing (pattern_of [] (codes "%")) (codes "a.b" ∷ codes "a" ∷ []) ((codes "a", no_attribute) ∷ []) }
    ensures below { IsListing (pattern_of (codes "a.") (codes "%")) (codes "a.d" ∷ codes "a.b.c" ∷ codes "a" ∷ codes "e.f" ∷ [])
        ((codes "a.b", NonExistent) ∷ (codes "a.d", no_attribute) ∷ []) }
    ensures levels { IsListing (pattern_of [] (codes "*%")) (codes "a.b.c" ∷ [])
        ((codes "a", NonExistent) ∷ (codes "a.b", NonExistent) ∷ (codes "a.b.c", no_attribute) ∷ []) }
    ensures inbox { IsListing (pattern_of [] (codes "inbox")) (codes "INBOX" ∷ codes "INBOX.work" ∷ []) ((codes "INBOX", no_attribute) ∷ []) }
    ensures below_inbox { IsListing (pattern_of (codes "Inbox.") (codes "%")) (codes "INBOX" ∷ codes "INBOX.work" ∷ [])
        ((codes "INBOX.work", no_attribute) ∷ []) }
{}
