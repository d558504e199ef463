// Who may do what.
ghost use Rattle.std.specs.Prelude.{◌≡◌};
ghost use Rattle.std.specs.Option.{option_copied};
ghost use Rattle.mur_model.specs.Rights.{user_named, is_admin, has_rights, may_create};

use mur_base::{MailName, User, UserName, Users, is_own, owns};

/// The user of a name, if there is one. It looks at each user.
#[tactic(auto, unfolding(crate::specs::Rights::user_named, mur_base::specs::Users::is_user_named))]
pub fn user_named<'a>(users: &'a Users, name: &[u8]) -> Option<&'a User>
    ensures { option_copied result ≡ user_named users.now name.now }
{
    users
        .as_slice()
        .iter()
        .find(|user| user.name.as_bytes() == name)
}

/// Whether a user is an administrator. It looks at each user.
#[tactic(auto, unfolding(crate::specs::Rights::is_admin_user))]
pub fn is_admin(users: &Users, user: &UserName) -> bool
    ensures { result ≡ is_admin users.now user.now }
{
    match user_named(users, user.as_bytes()) {
        Some(user) => user.admin,
        None => false,
    }
}

/// Whether a user has all rights to a mailbox.
#[tactic(auto, unfolding(crate::specs::Rights::has_rights))]
pub fn has_rights(users: &Users, user: &UserName, name: &MailName) -> bool
    ensures { result ≡ has_rights users.now user.now name.now }
{
    is_admin(users, user) || owns(user, name)
}

/// Whether a user may make a mailbox.
#[tactic(auto, unfolding(crate::specs::Rights::may_create))]
pub fn may_create(users: &Users, user: &UserName, name: &MailName) -> bool
    ensures { result ≡ may_create users.now user.now name.now }
{
    is_admin(users, user) || (owns(user, name) && !is_own(user, name))
}
