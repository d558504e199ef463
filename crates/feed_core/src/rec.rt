// What a replica has of a name.
ghost use Rattle.std.specs.Prelude.{◌≡◌};
ghost use Rattle.feed_core.specs.Feed.{acl_in, place_in, is_mailbox, reserved};

use mur_base::{Bytes, Location};
use std::mem;

/// What a replica has of a name: where it is, and its access list.
#[derive(Drop)]
pub enum Rec {
    /// A mailbox (RFC 3656, 3.6).
    Active(Location, Bytes),
    /// Reserved (RFC 3656, 3.5), with the access list that it had when it was active, if it ever was.
    Reserved(Location, Option<Bytes>),
}

impl Rec {
    /// Where the name is.
    pub fn place(&self) -> &Location
        ensures { result.now ≡ place_in self.now }
    {
        match self {
            Rec::Active(place, _) | Rec::Reserved(place, _) => place,
        }
    }

    /// Whether the name is a mailbox: active, or reserved with an access list.
    pub fn is_mailbox(&self) -> bool
        ensures { result ≡ is_mailbox self.now }
    {
        !matches!(self, Rec::Reserved(_, None))
    }

    /// Its access list, if it has one.
    fn into_acl(self) -> Option<Bytes>
        ensures { result ≡ acl_in self }
    {
        match self {
            Rec::Active(_place, acl) => Some(acl),
            Rec::Reserved(_place, acl) => acl,
        }
    }

    /// Reserves the name at a place; it keeps its access list.
    pub fn reserve(&mut self, place: Location)
        ensures { self.new ≡ reserved place self.old }
    {
        let old = mem::replace(self, Rec::Reserved(place, None));
        if let Rec::Reserved(_, acl) = self {
            *acl = old.into_acl();
        }
    }
}
