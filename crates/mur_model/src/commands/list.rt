// LIST (RFC 9051, 6.3.9).
ghost use Rattle.std.specs.Prelude.{◌≡◌, ℕ, List, IfOk, OnOk};
ghost use Rattle.std.specs.Map.{keys_of};
ghost use Rattle.mur_model.specs.Listing.{CanBeListed, all_gathered, gathered_of, gathered_with, list, list_reply, listing_by, nothing_gathered};
ghost use Rattle.mur_model.specs.Need.{begun_of};

use crate::at_once::told_at_once;
use crate::need::{Begun, Need};
use crate::rights::is_admin;
use crate::setting::Setting;
use crate::store::Store;
use imap_types::{Attribute, Code, Reply, ReplyLine, Verdict};
use mur_base::{Bytes, Copied, Items, MailName, Memory, UserName, owns, shown};
use name_listing::{Level, Pattern, asks_separator, listing, reply_lines};
use std::alloc::Global;
use std::marker::Model;

/// What a LIST asks for.
#[derive(Drop)]
pub struct Listing {
    /// Whose mailboxes are told, as this user is shown them.
    pub user: UserName,
    /// Whether the user is an administrator, who is told of all.
    pub is_admin: bool,
    pub pattern: Pattern,
}

/// What LIST needs: the names of all mailboxes, but where it asks for the separator alone.
#[tactic(auto, unfolding(crate::specs::Listing::list, crate::specs::Need::begun_of))]
pub fn list(
    alloc: Global,
    with: &Setting,
    user: &UserName,
    reference: &[u8],
    mailbox: &[u8],
) -> Result<Begun, Memory>
    ensures { IfOk result (λ begun. begun ≡ begun_of (list with.now user.now reference.now mailbox.now)) }
{
    if asks_separator(mailbox) {
        let line = ReplyLine::Listed(Attribute::NoSelect, Bytes::new(alloc));
        return Ok(Begun::told(told_at_once(alloc, line, b"LIST")?));
    }
    let pattern = Pattern::of(alloc, reference, mailbox)?;
    let it = listing_by(alloc, with, user, pattern)?;
    Ok(Begun {
        session: None,
        need: Need::Names(it),
    })
}

fn listing_by(
    alloc: Global,
    with: &Setting,
    user: &UserName,
    pattern: Pattern,
) -> Result<Listing, Memory>
    ensures { IfOk result (λ it. it ≡ listing_by with.now user.now pattern) }
{
    Ok(Listing {
        user: user.copy(alloc)?,
        is_admin: is_admin(&with.users, user),
        pattern,
    })
}

/// Mailboxes that a LIST tells, where they match. Those that are shown under their own names aren't copied.
#[derive(Drop)]
pub struct Gathered<'a> {
    named: Items<Level<'a>>,
    own: Items<Bytes>,
}

impl<'a> Model for Gathered<'a> {
    ghost use Rattle.mur_model.specs.Listing.{Gathering, IsShort};

    ghost Value = { Gathering };

    ghost view = { λ gathered. record { named = gathered.named; own = gathered.own } };

    ghost invariant = { λ gathered. IsShort (record { named = gathered.named; own = gathered.own }) };
}

impl<'a> Gathered<'a> {
    pub fn new(alloc: Global) -> Gathered<'a>
        ensures { result ≡ nothing_gathered }
    {
        Gathered {
            named: Items::new(alloc),
            own: Items::new(alloc),
        }
    }

    /// Puts in a mailbox, if the user is told of it. For want of memory what was gathered is spent.
    #[tactic(auto, using(crate::proofs::ShownFit::more_fit, crate::proofs::ShownFit::more_named), unfolding(crate::specs::Listing::gathered_with))]
    pub fn put(&mut self, alloc: Global, it: &Listing, name: &'a MailName) -> Result<(), Memory>
        ensures { OnOk result (self.new ≡ gathered_with it.now self.old name.now) }
    {
        let _ruled = name.len();
        if owns(&it.user, name) {
            self.own.push(shown(alloc, &it.user, name)?)?;
        } else if it.is_admin {
            self.named.push(Level::of(name.as_bytes()))?;
        }
        Ok(())
    }

    // All names.
    #[tactic(auto, using(crate::proofs::ShownFit::all_short))]
    fn all(&self, alloc: Global) -> Result<Items<Level<'_>>, Memory>
        ensures all { IfOk result (λ names. names ≡ all_gathered self.now) }
        ensures short { IfOk result (λ names. CanBeListed names) }
    {
        let mut names = Items::new(alloc);
        for text in self.own.as_slice() {
            names.push(Level::of(text.as_slice()))?;
        }
        for level in self.named.as_slice() {
            names.push(Level::of(level.as_bytes()))?;
        }
        Ok(names)
    }
}

impl Listing {
    /// The reply, where these mailboxes were gathered and no other. Its time grows as the number of the names, and of the levels of those that begin as
    /// the pattern does.
    pub fn reply(&self, alloc: Global, gathered: &Gathered<'_>) -> Result<Reply, Memory>
        ensures { (names : List (List ℕ)) → gathered.now ≡ gathered_of self.now names → IfOk result (λ reply. reply ≡ list_reply self.now names) }
    {
        let names = gathered.all(alloc)?;
        let found = listing(alloc, names.as_slice(), &self.pattern)?;
        Ok(Reply {
            lines: reply_lines(alloc, found)?,
            verdict: Verdict::Ok(Code::None, Bytes::from_slice(alloc, b"LIST")?),
        })
    }
}

/// What a LIST tells of the mailboxes of a store.
#[tactic(auto, unfolding(crate::specs::Listing::gathered_of))]
pub fn gathered_in<'a>(
    alloc: Global,
    it: &Listing,
    store: &'a Store,
) -> Result<Gathered<'a>, Memory>
    ensures { IfOk result (λ gathered. gathered ≡ gathered_of it.now (keys_of store.now.boxes)) }
{
    let mut gathered = Gathered::new(alloc);
    for (name, _box) in store.boxes.iter() {
        gathered.put(alloc, it, name)?;
    }
    Ok(gathered)
}
