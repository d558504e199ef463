// A replica, line by line.
ghost use Rattle.std.specs.Prelude.{◌≡◌, OnOk, OnErr};
ghost use Rattle.std.specs.Option.{option_copied};
ghost use Rattle.std.specs.Ordering.{nat_cmp};
ghost use Rattle.std.specs.Cmp.Lexicographic.{slice_cmp};
ghost use Rattle.mur_base.specs.Map.{value_at};
ghost use Rattle.feed_core.specs.Feed.{empty_replica, put, rec_at, reserved_in, TakesLine};

use crate::fault::FeedFault;
use crate::rec::Rec;
use mupdate_codec::MResponse;
use mur_base::{Location, MailName, Map, Memory};
use std::alloc::Global;

/// What a frontend was told of the master's table.
#[derive(Drop)]
pub struct Replica {
    /// The records by name.
    pub records: Map<MailName, Rec>,
    /// Whether an OK has come, which is that of UPDATE: the records of that moment are all here.
    pub whole: bool,
}

/// Puts the record of a name in the place of the one that it has, if it has one.
fn put_in(records: &mut Map<MailName, Rec>, name: MailName, rec: Rec) -> Result<(), Memory>
    ensures ok { OnOk result (records.new ≡ put records.old name rec) }
    ensures err { OnErr result (records.new ≡ records.old) }
{
    records.insert(name, rec)?;
    Ok(())
}

/// Reserves a name: one that has a record keeps its access list.
fn reserve_in(
    records: &mut Map<MailName, Rec>,
    name: MailName,
    place: Location,
) -> Result<(), Memory>
    ensures ok { OnOk result (records.new ≡ reserved_in records.old name place (value_at (slice_cmp nat_cmp) records.old name)) }
    ensures err { OnErr result (records.new ≡ records.old) }
{
    match records.get_mut(&name) {
        Some(rec) => {
            rec.reserve(place);
            Ok(())
        }
        None => put_in(records, name, Rec::Reserved(place, None)),
    }
}

impl Replica {
    /// A replica that was told nothing. It takes no memory.
    pub fn new(alloc: Global) -> Replica
        ensures { result ≡ empty_replica }
    {
        Replica {
            records: Map::new(alloc),
            whole: false,
        }
    }

    /// Takes a line of the stream; what it holds isn't copied. NO and BAD are refused, and a line that is refused leaves the replica as it was.
    /// Logarithmic in the records.
    pub fn take(&mut self, line: MResponse) -> Result<(), FeedFault>
        ensures { TakesLine self.old line self.new result }
    {
        match line {
            MResponse::Mailbox(name, place, acl) => {
                Ok(put_in(&mut self.records, name, Rec::Active(place, acl))?)
            }
            MResponse::Reserve(name, place) => Ok(reserve_in(&mut self.records, name, place)?),
            MResponse::Delete(name) => {
                self.records.remove(&name);
                Ok(())
            }
            MResponse::Ok(_text) => {
                self.whole = true;
                Ok(())
            }
            MResponse::No(_text) | MResponse::Bad(_text) => Err(FeedFault::NoFeedLine),
        }
    }

    /// The record of a name, if there is one. It takes no memory. Logarithmic in the records.
    pub fn find(&self, name: &MailName) -> Option<&Rec>
        ensures { option_copied result ≡ rec_at self.now.records name.now }
    {
        self.records.get(name)
    }

    /// Whether an OK was taken, which is that of UPDATE. It takes no memory.
    pub fn is_whole(&self) -> bool
        ensures { result ≡ self.now.whole }
    {
        self.whole
    }
}
