// One client's session.
ghost use Rattle.std.specs.Prelude.{◌≡◌, IfOk};
ghost use Rattle.mur_model.specs.declared.session.Sess.TheVariants.{Off, Ended};
ghost use Rattle.session_core.specs.Begin.{HasBegun, user_of};

use mur_base::{Copied, Memory, UserName};
use mur_model::Sess;
use std::alloc::Global;
use std::marker::Model;

/// The session of a client, from its greeting on (RFC 9051, 3). It changes by `begin`, `finish`, `relocated` and `end` alone.
#[derive(Drop)]
pub struct Session {
    pub(crate) state: Sess,
}

impl Model for Session {
    ghost use Rattle.mur_model.specs.declared.session.Sess.{Sess};

    ghost Value = { Sess };

    ghost view = { λ session. session.state };
}

impl Session {
    /// A session in which nobody has logged in (RFC 9051, 3.1).
    pub fn new() -> Session
        ensures { result ≡ Off }
    {
        Session { state: Sess::Off }
    }

    /// Ends the session, as its connection is closed (RFC 9051, 3.4).
    pub fn end(&mut self)
        ensures { self.new ≡ Ended }
    {
        self.state = Sess::Ended;
    }

    /// A copy of the name of the user of a session that has begun.
    #[tactic(auto, unfolding(crate::specs::Begin::user_of, crate::specs::Begin::HasBegun))]
    pub fn user(&self, alloc: Global) -> Result<UserName, Memory>
        requires { HasBegun self.now }
        ensures { IfOk result (λ user. user ≡ user_of self.now) }
    {
        match &self.state {
            Sess::In(user) => user.copy(alloc),
            Sess::Selected(view) => view.user.copy(alloc),
            Sess::Off | Sess::Ended => unreachable!(),
        }
    }
}
