// What a session does with a command.
ghost use Rattle.std.specs.Prelude.{◌≡◌, IfOk};
ghost use Rattle.mur_model.specs.ClientView.{Known};
ghost use Rattle.session_core.specs.Begin.{begin, MayNeed};
ghost use Rattle.session_core.specs.Need.{session_behind};
ghost use Rattle.session_core.specs.Numbers.{Knows, KnowsBehind};

use crate::session::Session;
use mur_base::Memory;
use mur_model::{Begun, Command, Need, Sess, Setting, begin as begin_with};
use std::alloc::Global;

impl Session {
    /// Takes a command: it is answered at once, or the home of its mailbox has to be asked (RFC 9051, 6). For want of memory the session is
    /// spent.
    pub fn begin(&mut self, alloc: Global, with: &Setting, command: Command) -> Result<Need, Memory>
        ensures behind { IfOk result (λ need. record { session = self.new; need = need } ≡ begin with.now self.old command) }
        ensures fits { IfOk result (λ need. MayNeed self.new need) }
        ensures numbers { IfOk result (λ need. (known : Known) → Knows known self.old → KnowsBehind known self.new need) }
    {
        let begun = begin_with(alloc, with, &self.state, command)?;
        Ok(takes(&mut self.state, begun))
    }
}

/// Takes what comes of a command for its session.
pub fn takes(sess: &mut Sess, begun: Begun) -> Need
    ensures { record { session = sess.new; need = result } ≡ session_behind sess.old begun }
{
    let Begun { session, need } = begun;
    if let Some(session) = session {
        *sess = session;
    }
    need
}
