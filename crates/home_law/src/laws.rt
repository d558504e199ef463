// The home law of one name: of each event at one backend, and of whole runs.
ghost use Rattle.std.specs.Prelude.{◌≡◌, ◌≢◌, ◌⊎◌, ℕ, Bool, true, false, List, [], ◌∷◌};
ghost use Rattle.home_law.specs.Items.{RecordKind, kept, active, NameRecord, Server, Seen, Mine, mine, creating, serving, closing, Item, refused};
ghost use Rattle.home_law.specs.Steps.{answer, NameAsk};
ghost use Rattle.home_law.specs.Link.{Back, hears_first, asked, asked_each, takes_first, cut, crash, lose, join, stopped_hearing, stopped_asked, stopped_taking, see, put};
ghost use Rattle.home_law.specs.Rows.{mine_of, waits};
ghost use Rattle.home_law.specs.LinkOk.{EachItem, LinkOk};
ghost use Rattle.home_law.specs.NameLaw.{KeepsNameLaw};

/// At every moment of every run at most one backend serves the name, the master's record says which, a mailbox is where its record says, and no
/// name stays reserved.
pub fn a_name_has_one_home()
    ensures { KeepsNameLaw }
{}

/// Each event keeps the invariant of a backend and its link.
pub fn each_event_keeps_a_link()
    // The backend takes its first message, and is asked, also by those that waited.
    ensures hears { (m : Mine) (k : Back) → LinkOk m k → LinkOk m (hears_first k k.down) }
    ensures asked { (a : NameAsk) (m : Mine) (k : Back) → LinkOk m k → LinkOk m (asked a k) }
    ensures asked_each { (asks : List NameAsk) (m : Mine) (k : Back) → LinkOk m k → LinkOk m (asked_each asks k) }
    // The master takes the first line of the backend. To each other backend the record is as it was.
    ensures takes { (is_full : Bool) (r : NameRecord) (b : Server) (k : Back) → LinkOk (mine_of (see r b)) k
        → LinkOk (mine_of (see (put (takes_first is_full (see r b) k k.up).seen b r) b)) (takes_first is_full (see r b) k k.up).back }
    ensures others { (is_full : Bool) (r : NameRecord) (b q : Server) (k : Back) → b ≢ q → LinkOk (mine_of (see r b)) k
        → mine_of (see (put (takes_first is_full (see r b) k k.up).seen b r) q) ≡ mine_of (see r q) }
    // The link breaks, the backend crashes, the master crashes, the link is joined again.
    ensures cut { (i j : ℕ) (m : Mine) (k : Back) → LinkOk m k → LinkOk m (cut i j k k.ctl.linked) }
    ensures crash { (j : ℕ) (m : Mine) (k : Back) → LinkOk m k → LinkOk m (crash j k k.ctl.linked) }
    ensures lose { (i : ℕ) (m : Mine) (k : Back) → LinkOk m k → LinkOk m (lose i k k.ctl.linked) }
    ensures join { (m : Mine) (k : Back) → LinkOk m k → LinkOk m (join k k.ctl.linked k.down k.up) }
{}

/// So does a crash inside a step, after its entry is on the disk and before anything is sent.
pub fn a_crash_inside_a_step_keeps_a_link()
    ensures hearing { (j : ℕ) (m : Mine) (k : Back) → LinkOk m k → LinkOk m (stopped_hearing j k k.down) }
    ensures asked { (j : ℕ) (a : NameAsk) (m : Mine) (k : Back) → LinkOk m k → LinkOk m (stopped_asked j a k) }
    ensures taking { (i : ℕ) (is_full : Bool) (r : NameRecord) (b : Server) (k : Back) → LinkOk (mine_of (see r b)) k
        → LinkOk (mine_of (see (put (stopped_taking i is_full (see r b) k k.up).seen b r) b)) (stopped_taking i is_full (see r b) k k.up).back }
{}

/// What the invariant says of a backend.
pub fn a_link_says_where_a_name_is()
    // The record names a backend that serves.
    ensures serving { (m : Mine) (k : Back) → LinkOk m k → k.ctl.phase ≡ serving → (m ≡ mine active) ⊎ (m ≡ mine kept) }
    // A mailbox is at the backend that its record names.
    ensures active { (k : Back) → LinkOk (mine active) k → (k.ctl.phase ≡ creating) ⊎ (k.ctl.phase ≡ serving) ⊎ (k.ctl.phase ≡ closing) }
    ensures reserved { (k : Back) → LinkOk (mine kept) k → (k.ctl.phase ≡ serving) ⊎ (k.ctl.phase ≡ closing) }
    // No line is refused but RESERVE and ACTIVATE of a CREATE.
    ensures none_refused { (is_full : Bool) (s : Seen) (k : Back) (x : Item) (u : List Item) → LinkOk (mine_of s) k → k.up ≡ x ∷ u
        → EachItem (λ y. y ≡ refused → ⊥) (answer is_full s x).says }
    // With nothing on a whole link the name isn't reserved, and no flow and no resync runs.
    ensures not_reserved { (j : RecordKind) (k : Back) → LinkOk (mine j) k → k.ctl.linked ≡ true → k.down ≡ [] → k.up ≡ [] → j ≡ active }
    ensures none_waits { (m : Mine) (k : Back) → LinkOk m k → k.down ≡ [] → k.up ≡ [] → waits k.ctl ≡ false }
{}
