// What the batches of a transfer make of the taker's mailbox, as laws of the definitions that `Sweep` and `Intake` keep.
ghost use Rattle.std.specs.Prelude.{◌≡◌, ◌≤◌, true, List, [], ◌∷◌, length};
ghost use Rattle.std.specs.List.{sum_by};
ghost use Rattle.std.specs.Ordering.{nat_cmp};
ghost use Rattle.mur_base.specs.Map.{IsInOrder};
ghost use Rattle.mail_message.specs.declared.message.Message.{Message};
ghost use Rattle.mail_message.specs.declared.change.Change.{Change};
ghost use Rattle.mail_message.specs.Boxes.{Content, IsRising};
ghost use Rattle.mail_batch.specs.Weights.{weight_of};
ghost use Rattle.mail_batch.specs.Sweeps.{SweepState, change_at, changes_left, batch_of, fits_one_batch, after_sending_all};
ghost use Rattle.mail_batch.specs.Batches.{IsOfFirstLeft, AreWithinLimit};
ghost use Rattle.mail_batch.specs.Transfers.{TransferStep, transfer_of, after_steps, IsAllowed, AreAllowed};
ghost use Rattle.mail_batch.specs.Transfers.{MayCarryOut, carries_out, TakerWillHaveAll, TakerHasAll};

/// At each moment of a transfer the taker's mailbox, after the batches on the way, the changes left and the giver's UIDNEXT, is
/// the giver's mailbox: UIDVALIDITY, UIDNEXT, access list and messages.
pub fn the_changes_left_complete_the_taker()
    ensures { (giver : Content) (steps : List TransferStep) → IsRising giver.messages → AreAllowed (transfer_of giver) steps
        → TakerWillHaveAll (after_steps (transfer_of giver) steps) }
{}

/// If no change is left and no batch is on the way, the taker's mailbox with the giver's UIDNEXT is the giver's mailbox.
pub fn the_taker_ends_with_the_same_mailbox()
    ensures { (giver : Content) (steps : List TransferStep) → IsRising giver.messages → AreAllowed (transfer_of giver) steps
        → (after_steps (transfer_of giver) steps).sweep.left ≡ [] → (after_steps (transfer_of giver) steps).way ≡ []
        → TakerHasAll (after_steps (transfer_of giver) steps) }
{}

/// A giver may carry out any changes at UIDs that it noted since the last batch, if messages are put only at new UIDs.
pub fn changes_at_noted_uids_are_allowed()
    ensures { (giver : Content) (steps : List TransferStep) (changes : List Change) → IsRising giver.messages
        → AreAllowed (transfer_of giver) steps → MayCarryOut (after_steps (transfer_of giver) steps) changes
        → IsAllowed (after_steps (transfer_of giver) steps) (carries_out (after_steps (transfer_of giver) steps) changes) }
{}

/// The UIDs that are left rise strictly.
pub fn the_uids_left_rise()
    ensures { (giver : Content) (steps : List TransferStep) → IsRising giver.messages → AreAllowed (transfer_of giver) steps
        → IsInOrder nat_cmp (after_steps (transfer_of giver) steps).sweep.left }
{}

/// A batch has the changes of the lowest UIDs left, and once it is sent the other UIDs are left.
pub fn a_batch_takes_the_lowest_uids_left()
    ensures { (sweep : SweepState) (messages : List Message) → IsOfFirstLeft (change_at sweep messages) sweep (batch_of sweep messages) }
{}

/// A batch has at most 64 changes, and none only if none is left. It weighs at most 1,114,112 if each message is within
/// the limit of messages.
pub fn a_batch_keeps_its_limits()
    ensures few { (sweep : SweepState) (messages : List Message) → length (batch_of sweep messages) ≤ 64 }
    ensures some { (sweep : SweepState) (messages : List Message) → batch_of sweep messages ≡ [] → sweep.left ≡ [] }
    ensures light { (sweep : SweepState) (messages : List Message) → AreWithinLimit messages → sum_by weight_of (batch_of sweep messages) ≤ 1114112 }
{}

/// If the changes left fit one batch, the next batch has all of them, and none is left once it is sent.
pub fn changes_that_fit_go_in_one_batch()
    ensures all { (sweep : SweepState) (messages : List Message) → fits_one_batch sweep messages ≡ true
        → batch_of sweep messages ≡ changes_left sweep messages }
    ensures none { (sweep : SweepState) (messages : List Message) → fits_one_batch sweep messages ≡ true
        → (after_sending_all sweep (batch_of sweep messages)).left ≡ [] }
{}
