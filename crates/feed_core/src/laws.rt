// What holds of every stream.
ghost use Rattle.std.specs.Prelude.{◌≡◌, []};
ghost use Rattle.std.specs.List.{flat_map};
ghost use Rattle.std.specs.Ordering.{nat_cmp};
ghost use Rattle.std.specs.Cmp.Lexicographic.{slice_cmp};
ghost use Rattle.mur_base.specs.Map.{IsInOrder};
ghost use Rattle.feed_core.specs.Feed.{Recs, fed};
ghost use Rattle.feed_core.specs.RecLines.{rec_lines};

/// The lines of records, in the order of their names, make these records.
pub fn lines_make_their_records()
    ensures { (recs : Recs) → IsInOrder (slice_cmp nat_cmp) recs → fed [] (flat_map rec_lines recs) ≡ recs }
{}
