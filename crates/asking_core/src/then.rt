// What comes of an answer.
use crate::waiting::Sent;
use mur_base::What;
use mur_model::{Need, Reply};

/// What comes of an answer for the command that waited for it.
#[derive(Drop)]
pub enum Then {
    /// It waits on, and a message goes out.
    Sends(Sent),
    /// Its session needs this: as a rule the client is given a reply.
    Needs(Need),
    /// It is refused for this cause, and its client is given this reply.
    Refused(What, Reply),
    /// Whether it was carried out can't be known.
    Lost,
    /// The answer doesn't fit what was asked: it waits as it did.
    Stays,
}
