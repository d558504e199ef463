// The master's OK.
ghost use Rattle.std.specs.Prelude.{◌≡◌, IfOk};
ghost use Rattle.session_core.specs.Begin.{HasBegun};
ghost use Rattle.asking_core.specs.Cleared.{cleared};

use crate::routes::Routes;
use crate::then::Then;
use crate::waiting::Waiting;
use ask_routes::{AskFor, Why, behind_ok};
use mur_base::{Copied, Memory};
use session_core::Session;

impl Waiting {
    /// The master's OK to the NOOP that was sent for this reason: all that it told before was taken. It takes a look-up, for CREATE one a level of the
    /// name. For want of memory the session and the command are spent.
    #[tactic(auto, unfolding(crate::specs::Cleared::cleared))]
    pub fn cleared(
        &mut self,
        routes: Routes,
        session: &mut Session,
        why: Why,
    ) -> Result<Then, Memory>
        requires begun { HasBegun session.old }
        ensures { IfOk result (λ then. record { session = session.new; waiting = self.new; then = then }
            ≡ cleared routes.entry.replica.now.records routes.entry.master.now routes.entry.first.now routes.entry.id session.old self.old why) }
    {
        let name = self.name.copy(routes.alloc)?;
        let what = AskFor::at(name, &self.asking.op);
        let next = behind_ok(routes.alloc, routes.replica, routes.first, &what, why)?;
        self.goes_on(routes, session, next)
    }
}
