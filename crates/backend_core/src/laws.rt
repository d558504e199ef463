// What every ask leaves of a home, as laws of its definition.
ghost use Rattle.std.specs.Prelude.{◌≡◌, ◌≢◌, ℕ, List, None, Some, false, All};
ghost use Rattle.mur_base.specs.declared.home.Location.{Location};
ghost use Rattle.mail_message.specs.Boxes.{message_at};
ghost use Rattle.mail_message.specs.declared.message.Message.{Message};
ghost use Rattle.link_msg.specs.declared.ask.FrontAsk.{FrontAsk};
ghost use Rattle.mail_message.specs.declared.message.Snapshot.{Snapshot};
ghost use Rattle.link_msg.specs.declared.answer.AnswerBody.TheVariants.{Done};
ghost use Rattle.imap_types.specs.declared.op.Op.TheVariants.{Append};
ghost use Rattle.link_msg.specs.declared.outcome.Outcome.TheVariants.{Uids};
ghost use Rattle.backend_core.specs.declared.backend.Backend.{Backend};
ghost use Rattle.node_record.specs.declared.held.Held.{Held};
ghost use Rattle.backend_core.specs.HomeStep.{held_at};
ghost use Rattle.backend_core.specs.HomeLaws.{is_open_here, HasNamesInOrder, MailboxStays, AreNewUids};
ghost use Rattle.backend_core.specs.HomeLaws.{HasRisingUids, HasUidsBelowNext, LosesNoMessage, RisesAt};
ghost use Rattle.backend_core.specs.Plan.{answer_outs, booted, plan_of};
ghost use Rattle.backend_core.specs.Step.{home_step};

/// An ask changes nothing where its mailbox isn't Open here.
pub fn an_ask_elsewhere_changes_nothing()
    ensures { (home : Backend) (ask : FrontAsk) → is_open_here (held_at home ask.name) ≡ false → (home_step home ask).home ≡ home }
{}

/// An ask of a session that has selected a mailbox of another UIDVALIDITY changes nothing (RFC 9051, 2.3.1.1).
pub fn an_ask_of_another_mailbox_changes_nothing()
    ensures { (home : Backend) (ask : FrontAsk) (held : Held) (serial : ℕ) → held_at home ask.name ≡ Some held
        → ask.selected ≡ Some serial → serial ≢ held.content.serial → (home_step home ask).home ≡ home }
{}

/// Each mailbox goes on with its UIDVALIDITY, and its UIDNEXT never falls (RFC 9051, 2.3.1.1).
pub fn uidnext_never_falls()
    ensures { (home : Backend) (ask : FrontAsk) (name : List ℕ) (held : Held) → held_at home name ≡ Some held
        → MailboxStays held (held_at (home_step home ask).home name) }
{}

/// Each message of each mailbox has a UID below its UIDNEXT, from the start and whatever comes in (RFC 9051, 2.3.1.1).
pub fn uids_stay_below_uidnext()
    ensures booted { (me : Location) → HasUidsBelowNext (booted me) }
    ensures stays { (home : Backend) (from : List ℕ) (ask : FrontAsk) → HasUidsBelowNext home → HasUidsBelowNext (plan_of home from ask).home }
{}

/// The UIDs that an APPEND is answered with rise strictly, from UIDNEXT before it on and below UIDNEXT behind it. So no UID
/// of a mailbox is given twice (RFC 9051, 2.3.1.1), no message stood at one of them, and none is lost.
pub fn no_uid_is_given_twice()
    ensures new { (home : Backend) (ask : FrontAsk) (messages : List Message) (held : Held) (uids : List ℕ) (seen : Snapshot)
        → ask.op ≡ Append messages → held_at home ask.name ≡ Some held → (home_step home ask).body ≡ Some (Done (Uids uids) seen)
        → AreNewUids uids held (held_at (home_step home ask).home ask.name) }
    ensures fresh { (home : Backend) (ask : FrontAsk) (messages : List Message) (held : Held) (uids : List ℕ) (seen : Snapshot)
        → HasUidsBelowNext home → ask.op ≡ Append messages → held_at home ask.name ≡ Some held
        → (home_step home ask).body ≡ Some (Done (Uids uids) seen) → All (λ uid. message_at held.content.messages uid ≡ None) uids }
    ensures kept { (home : Backend) (ask : FrontAsk) (messages : List Message) (name : List ℕ) (held : Held) → HasUidsBelowNext home
        → ask.op ≡ Append messages → held_at home name ≡ Some held → LosesNoMessage held (held_at (home_step home ask).home name) }
{}

/// Every other name keeps what the home has of it, and the names stay in order.
pub fn other_names_stay()
    ensures others { (home : Backend) (ask : FrontAsk) (other : List ℕ) → other ≢ ask.name
        → held_at (home_step home ask).home other ≡ held_at home other }
    ensures ordered { (home : Backend) (ask : FrontAsk) → HasNamesInOrder home → HasNamesInOrder (home_step home ask).home }
{}

/// The messages of each mailbox stand in strictly rising order of UID, from the start and whatever comes in (RFC 9051, 2.3.1.1).
pub fn uids_rise()
    ensures booted { (me : Location) → HasRisingUids (booted me) }
    ensures stays { (home : Backend) (from : List ℕ) (ask : FrontAsk) → HasRisingUids home → HasRisingUids (plan_of home from ask).home }
{}

/// A step is the operation that was asked for, of which the laws speak: its entries make what that leaves, and what goes out is its
/// answer. The UIDs of the mailbox rise strictly.
pub fn a_step_is_its_operation()
    ensures leaves { (home : Backend) (from : List ℕ) (ask : FrontAsk) → RisesAt home ask.name
        → (plan_of home from ask).home ≡ (home_step home ask).home }
    ensures tells { (home : Backend) (from : List ℕ) (ask : FrontAsk) → RisesAt home ask.name
        → (plan_of home from ask).outs ≡ answer_outs from ask.id (home_step home ask).counts (home_step home ask).body }
{}
