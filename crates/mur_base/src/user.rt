// The users of a cluster, with their passwords.
ghost use Rattle.std.specs.Prelude.{◌≡◌, None};
ghost use Rattle.std.specs.List.{list_any, list_all};
ghost use Rattle.mur_base.specs.Users.{users_fault, is_user_named, user_names_differ, has_password, is_password, is_no_nul, AreTakenAsUsers, AreUsers};

use crate::copied::Copied;
use crate::list::{Bytes, Items};
use crate::memory::Memory;
use crate::name_rules::UserName;
use std::alloc::Global;
use std::marker::Model;
use thiserror::Error;

/// Bytes of a password.
pub const PASSWORD_LIMIT: usize = 255;

/// A user of the cluster.
#[derive(Drop)]
pub struct User {
    pub name: UserName,
    /// 1 to `PASSWORD_LIMIT` bytes without NUL.
    pub password: Bytes,
    /// Whether the user is an administrator.
    pub admin: bool,
}

/// The first rule that a list of users breaks, in this order.
#[derive(Clone, Copy, Debug, PartialEq, Eq, Error)]
pub enum UsersFault {
    #[error("two users have one name")]
    NameTwice,
    #[error("a password is empty, has more than 255 bytes or has a NUL")]
    BadPassword,
}

/// The users of a cluster, in the configuration's order. No two have one name.
#[derive(Drop)]
pub struct Users {
    users: Items<User>,
}

impl Model for Users {
    ghost use Rattle.std.specs.Prelude.{◌≡◌, List, None};
    ghost use Rattle.mur_base.specs.declared.user.User.{User};
    ghost use Rattle.mur_base.specs.Users.{users_fault};

    ghost Value = { List User };

    ghost view = { λ list. list.users };

    ghost invariant = { λ list. users_fault list.users ≡ None };
}

impl Users {
    /// The users of a list, which isn't copied. Each name is compared with each later one.
    #[tactic(auto, unfolding(crate::specs::Users::users_fault))]
    pub fn new(users: Items<User>) -> Result<Users, UsersFault>
        ensures { AreTakenAsUsers users result }
    {
        if !user_names_differ(users.as_slice()) {
            Err(UsersFault::NameTwice)
        } else if !have_passwords(users.as_slice()) {
            Err(UsersFault::BadPassword)
        } else {
            Ok(Users { users })
        }
    }

    /// The users of a list of which it is known that it breaks no rule. Nothing is tested or copied.
    pub fn from_checked(users: Items<User>) -> Users
        requires { users_fault users ≡ None }
        ensures { result ≡ users }
    {
        Users { users }
    }

    pub fn as_slice(&self) -> &[User]
        ensures users { result.now ≡ self.now }
        ensures kept { AreUsers self.now }
    {
        self.users.as_slice()
    }
}

impl Copied for User {
    fn copy(&self, alloc: Global) -> Result<User, Memory> {
        Ok(User {
            name: self.name.copy(alloc)?,
            password: Bytes::from_slice(alloc, self.password.as_slice())?,
            admin: self.admin,
        })
    }
}

impl Copied for Users {
    fn copy(&self, alloc: Global) -> Result<Users, Memory> {
        Ok(Users {
            users: self.users.copy(alloc)?,
        })
    }
}

#[tactic(auto, unfolding(crate::specs::Users::user_names_differ))]
fn user_names_differ(users: &[User]) -> bool
    ensures { result ≡ user_names_differ users.now }
{
    let mut left = users;
    while let [user, later @ ..] = left {
        if has_name(later, user.name.as_bytes()) {
            return false;
        }
        left = later;
    }
    true
}

fn has_name(users: &[User], name: &[u8]) -> bool
    ensures { result ≡ list_any (is_user_named name.now) users.now }
{
    users.iter().any(|user| is_user_named(user, name))
}

#[tactic(auto, unfolding(crate::specs::Users::is_user_named))]
fn is_user_named(user: &User, name: &[u8]) -> bool
    ensures { result ≡ is_user_named name.now user.now }
{
    user.name.as_bytes() == name
}

fn have_passwords(users: &[User]) -> bool
    ensures { result ≡ list_all has_password users.now }
{
    users.iter().all(|user| has_password(user))
}

#[tactic(auto, unfolding(crate::specs::Users::has_password))]
fn has_password(user: &User) -> bool
    ensures { result ≡ has_password user.now }
{
    is_password(user.password.as_slice())
}

/// Whether a text is 1 to `PASSWORD_LIMIT` bytes without NUL.
#[tactic(auto, unfolding(crate::specs::Users::is_password))]
pub fn is_password(text: &[u8]) -> bool
    ensures { result ≡ is_password text.now }
{
    !text.is_empty() && text.len() <= PASSWORD_LIMIT && has_no_nul(text)
}

fn has_no_nul(text: &[u8]) -> bool
    ensures { result ≡ list_all is_no_nul text.now }
{
    text.iter().all(|byte| is_no_nul(*byte))
}

#[tactic(auto, unfolding(crate::specs::Users::is_no_nul))]
fn is_no_nul(byte: u8) -> bool
    ensures { result ≡ is_no_nul byte }
{
    byte != b'\0'
}
