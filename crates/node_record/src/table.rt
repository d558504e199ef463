// The table of the master: its records by name, and the fold of its entries.
ghost use Rattle.std.specs.Prelude.{◌≡◌, OnOk, OnErr};
ghost use Rattle.std.specs.Ordering.{nat_cmp};
ghost use Rattle.std.specs.Cmp.Lexicographic.{slice_cmp};
ghost use Rattle.mur_base.specs.Map.{value_at, without_key};
ghost use Rattle.std.specs.Option.{option_copied};
ghost use Rattle.node_record.specs.Table.{empty_table, record_at, is_mailbox, moved, with_record, reserved_again, table_after, counted};

use crate::master::MasterRecord;
use mur_base::{Bytes, Location, MailName, Map, Memory};
use std::alloc::Global;
use std::marker::Model;
use std::mem;

/// What is known of a name.
#[derive(Drop)]
pub enum State {
    /// Reserved under this serial, and never active since.
    Bare(u32),
    /// Reserved, with the access list that it had when it was active.
    Kept(Bytes),
    /// Active, with its access list.
    Active(Bytes),
}

/// The record of a name.
#[derive(Drop)]
pub struct Record {
    /// Where its mailbox is.
    pub place: Location,
    pub state: State,
}

impl Record {
    /// Whether the name is a mailbox: active, or reserved with an access list.
    pub fn is_mailbox(&self) -> bool
        ensures { result ≡ is_mailbox self.now }
    {
        !matches!(self.state, State::Bare(_))
    }

    /// Reserves the name at a place; it keeps its access list, if it has one.
    fn reserve(&mut self, place: Location)
        ensures { self.new ≡ moved place self.old }
    {
        self.place = place;
        self.state = match mem::replace(&mut self.state, State::Bare(0)) {
            State::Active(acl) => State::Kept(acl),
            state => state,
        };
    }
}

/// The records of all names. Contracts see it as the records, the greatest serial that a name was reserved under, and the number of
/// names that are mailboxes, which is kept and not counted anew.
#[derive(Drop)]
pub struct Table {
    records: Map<MailName, Record>,
    serial: u32,
    mailboxes: u64,
}

impl Model for Table {
    ghost use Rattle.node_record.specs.Table.{MailboxTable, counted, IsCounted};

    ghost Value = { MailboxTable };

    ghost view = { λ table. record { records = table.records; serial = table.serial; mailboxes = table.mailboxes } };

    ghost invariant = { λ table. IsCounted (record { records = table.records; serial = table.serial; mailboxes = table.mailboxes }) };
}

impl Table {
    /// The table without records. It takes no memory.
    pub fn new(alloc: Global) -> Table
        ensures { result ≡ empty_table }
    {
        Table {
            records: Map::new(alloc),
            serial: 0,
            mailboxes: 0,
        }
    }

    /// The records by name.
    pub fn records(&self) -> &Map<MailName, Record>
        ensures { result.now ≡ self.now.records }
    {
        &self.records
    }

    /// The greatest serial that a name was reserved under, 0 where none was.
    pub fn serial(&self) -> u32
        ensures { result ≡ self.now.serial }
    {
        self.serial
    }

    /// How many names are mailboxes.
    pub fn mailboxes(&self) -> u64
        ensures { result ≡ self.now.mailboxes }
    {
        self.mailboxes
    }

    /// The record of a name, if there is one. Logarithmic in the records.
    pub fn record(&self, name: &MailName) -> Option<&Record>
        ensures { option_copied result ≡ record_at self.now name.now }
    {
        self.records.get(name)
    }

    /// Puts a record in the place of the one that a name has. For want of memory the table stays as it was.
    #[tactic(auto, using(crate::proofs::TableLaw::count_put, crate::proofs::TableLaw::count_within))]
    fn put(&mut self, name: MailName, record_of_name: Record) -> Result<(), Memory>
        ensures ok { OnOk result (self.new ≡ counted (with_record self.old.records name record_of_name) self.old.serial) }
        ensures err { OnErr result (self.new ≡ self.old) }
    {
        let is_one = record_of_name.is_mailbox();
        let was_one = match self.records.insert(name, record_of_name)? {
            Some(old) => old.is_mailbox(),
            None => false,
        };
        match (was_one, is_one) {
            (false, true) => {
                let most = self.records.len() as u64;
                self.mailboxes = self.mailboxes.saturating_add(1).min(most);
            }
            (true, false) => self.mailboxes = self.mailboxes.saturating_sub(1),
            _ => {}
        }
        Ok(())
    }

    /// Takes the record of a name away.
    #[tactic(auto, using(crate::proofs::TableLaw::count_removed))]
    fn remove(&mut self, name: &MailName)
        ensures { self.new ≡ counted (without_key (slice_cmp nat_cmp) self.old.records name.now) self.old.serial }
    {
        if let Some(old) = self.records.remove(name) {
            if old.is_mailbox() {
                self.mailboxes = self.mailboxes.saturating_sub(1);
            }
        }
    }

    /// Reserves a name that has a record at a place.
    fn reserve_again(&mut self, name: &MailName, place: Location)
        ensures { self.new ≡ counted (reserved_again self.old.records name.now place (record_at self.old name.now)) self.old.serial }
    {
        reserve_in(&mut self.records, name, place);
    }
}

/// Reserves a name that has a record at a place.
fn reserve_in(records: &mut Map<MailName, Record>, name: &MailName, place: Location)
    ensures { records.new ≡ reserved_again records.old name.now place (value_at (slice_cmp nat_cmp) records.old name.now) }
{
    if let Some(found) = records.get_mut(name) {
        found.reserve(place);
    }
}

/// Carries an entry of the master's disk out. For want of memory the table stays as it was. Logarithmic in the records.
pub fn apply_master(table: &mut Table, entry: MasterRecord) -> Result<(), Memory>
    ensures ok { OnOk result (table.new ≡ table_after table.old entry) }
    ensures err { OnErr result (table.new ≡ table.old) }
{
    match entry {
        MasterRecord::Reserved(name, place, serial) => {
            let state = State::Bare(serial);
            table.put(name, Record { place, state })?;
            table.serial = table.serial.max(serial);
        }
        MasterRecord::Active(name, place, acl) => {
            let state = State::Active(acl);
            table.put(name, Record { place, state })?;
        }
        MasterRecord::Inactive(name, place) => table.reserve_again(&name, place),
        MasterRecord::Deleted(name) => table.remove(&name),
    }
    Ok(())
}
