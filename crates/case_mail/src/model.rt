// The store of the model: what its one session is told.
use crate::line::{command_of, put_reply};
use case_base::{Fault, Steps, put_steps};
use imap_types::{Command, Reply};
use mail_message::date;
use mur_base::{Bytes, Items, Map, Memory, User, Users, user_name};
use mur_model::{Sess, Setting, Store, act};
use std::alloc::Global;

/// A store, and a session of it.
#[derive(Drop)]
pub struct Model {
    setting: Setting,
    store: Store,
    session: Sess,
}

/// Takes lines of a session in which nobody has logged in, over a store without mailboxes, and prints each reply.
pub fn put(alloc: Global, steps: &[&str], out: &mut Bytes) -> Result<(), Fault> {
    let mut model = empty(alloc)?;
    put_steps(alloc, &mut model, steps, out)
}

/// A store without mailboxes, and a session in which nobody has logged in.
fn empty(alloc: Global) -> Result<Model, Fault> {
    let setting = setting(alloc)?;
    let store = Store {
        boxes: Map::new(alloc),
        given: Items::new(alloc),
    };
    Ok(Model {
        setting,
        store,
        session: Sess::Off,
    })
}

/// A service of which bob is the only user.
pub fn setting(alloc: Global) -> Result<Setting, Fault> {
    match (
        Users::new(bob_alone(alloc)?),
        date(b" 1-Jan-2026 00:00:00 +0000"),
    ) {
        (Ok(users), Some(date)) => Ok(Setting { users, date }),
        _ => Err(Fault::Unreadable("no users")),
    }
}

fn bob_alone(alloc: Global) -> Result<Items<User>, Fault> {
    let mut users = Items::new(alloc);
    users.push(User {
        name: user_name(alloc, b"bob")?,
        password: Bytes::from_slice(alloc, b"x")?,
        admin: false,
    })?;
    Ok(users)
}

impl Steps for Model {
    fn take_step(&mut self, alloc: Global, step: &str, out: &mut Bytes) -> Result<(), Fault> {
        let reply = self.reply_to(alloc, command_of(alloc, step)?)?;
        Ok(put_reply(alloc, step, &reply, out)?)
    }
}

impl Model {
    /// The reply to a command. A mailbox that it makes gets the UIDVALIDITY 1.
    fn reply_to(&mut self, alloc: Global, command: Command) -> Result<Reply, Memory> {
        act(
            alloc,
            &self.setting,
            &mut self.store,
            &mut self.session,
            command,
            1,
        )
    }
}
