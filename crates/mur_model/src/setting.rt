// What the reply of a command depends on besides the store: who may log in, and the date of new messages.
use mail_message::DateText;
use mur_base::Users;

/// The users of a service, and the date that an APPEND without one gives its message.
#[derive(Drop)]
pub struct Setting {
    pub users: Users,
    pub date: DateText,
}
