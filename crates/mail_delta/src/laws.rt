// What a log remembers, as laws of its definition.
ghost use Rattle.std.specs.Prelude.{◌≡◌, ◌≢◌, ℕ, List, Some, true, false};
ghost use Rattle.mail_message.specs.declared.message.Row.{Row};
ghost use Rattle.mail_message.specs.Boxes.{Content};
ghost use Rattle.mail_delta.specs.declared.mark.Mark.{Mark};
ghost use Rattle.mail_delta.specs.Deltas.{rows_of};
ghost use Rattle.mail_delta.specs.Spans.{LogState, Remembers, ChangesOnlyNoted, is_noted, is_kept, noted, next_mark, marked, forgotten, AreGiven};

/// A note leaves the rows of each mark as they were, the UID counts as noted after it, and so do those that did before.
pub fn a_note_changes_no_mark()
    ensures same { (log : LogState) (box : Content) (uid : ℕ) (mark : Mark) (rows : List Row) → Remembers log mark box rows
        → Remembers (noted log box uid) mark box rows }
    ensures noted { (log : LogState) (box : Content) (uid : ℕ) → is_noted (noted log box uid).spans uid ≡ true }
    ensures others { (log : LogState) (box : Content) (uid other : ℕ) → is_noted log.spans other ≡ true
        → is_noted (noted log box uid).spans other ≡ true }
{}

/// Whatever becomes of messages that were noted since the newest mark, the rows of each mark stay as they were.
pub fn changes_of_noted_messages_change_no_mark()
    ensures { (log : LogState) (old new : Content) (mark : Mark) (rows : List Row) → ChangesOnlyNoted log old new
        → Remembers log mark old rows → Remembers log mark new rows }
{}

/// At a new mark the mailbox has the rows that it has, and the rows of the other marks stay.
pub fn a_mark_has_the_rows_of_its_moment()
    ensures new { (log : LogState) (box : Content) (mark : Mark) → next_mark log ≡ Some mark
        → Remembers (marked log) mark box (rows_of box) }
    ensures others { (log : LogState) (box : Content) (mark : Mark) (rows : List Row) → is_kept mark.0 log.spans ≡ true
        → AreGiven log.given log.spans → Remembers log mark box rows → Remembers (marked log) mark box rows }
{}

/// A mark that is forgotten isn't kept, and the rows of each other mark stay.
pub fn a_forgotten_mark_takes_no_other_with_it()
    ensures gone { (log : LogState) (mark : Mark) → AreGiven log.given log.spans → is_kept mark.0 (forgotten log mark).spans ≡ false }
    ensures others { (log : LogState) (box : Content) (mark other : Mark) (rows : List Row) → other ≢ mark
        → Remembers log other box rows → Remembers (forgotten log mark) other box rows }
{}
