// What a session makes of a home's answer, and when a home answers that something was done, as laws.
ghost use Rattle.std.specs.Prelude.{◌≡◌, ℕ, List};
ghost use Rattle.backend_core.specs.declared.backend.Backend.{Backend};
ghost use Rattle.backend_core.specs.HomeStep.{held_at};
ghost use Rattle.backend_core.specs.Step.{home_step};
ghost use Rattle.imap_types.specs.declared.command.Command.{Command};
ghost use Rattle.link_msg.specs.declared.ask.FrontAsk.{FrontAsk};
ghost use Rattle.mur_base.specs.declared.point.AskId.{AskId};
ghost use Rattle.mur_model.specs.Act.{act_of, need_of};
ghost use Rattle.mur_model.specs.Asking.{asked_for};
ghost use Rattle.mur_model.specs.Needed.{IsOfHome, Mailbox, Work};
ghost use Rattle.mur_model.specs.declared.session.Sess.{Sess};
ghost use Rattle.mur_model.specs.declared.setting.Setting.{Setting};
ghost use Rattle.mur_model.specs.declared.store.Store.{Store};
ghost use Rattle.serve_law.specs.AsTheStore.{AnswersAsActed, HaveAlike, ask_of};
ghost use Rattle.serve_law.specs.DoneHere.{IsDoneWhereOpen};

/// A session that awaits a home's answer finishes by it as the one store acts on the command, if both have the same mailbox of its name, or none
/// (RFC 9051, 6). Both have the same after it, too. The answer to a CREATE or a DELETE isn't the home's alone: store_links says what they do.
pub fn a_home_answers_as_the_store()
    ensures { (setting : Setting) (store : Store) (home : Backend) (session : Sess) (it : Command) (name : List ℕ) (work : Work) (id : AskId) (user : List ℕ)
        (serial : ℕ) → need_of setting session it ≡ Mailbox name work → IsOfHome work → HaveAlike store home name
        → AnswersAsActed session name (asked_for name work).awaited (home_step home (ask_of id user name (asked_for name work)))
        (act_of setting store session it serial) }
{}

/// A home answers that an ask was done only where it has the name open. Just those steps count, whether or not a client is
/// told of them.
pub fn done_is_answered_where_a_name_is_open()
    ensures { (home : Backend) (ask : FrontAsk) → IsDoneWhereOpen (held_at home ask.name) (home_step home ask) }
{}
