// Messages by UID, with empty places, so that a list of changes that wants memory takes it before it changes anything.
ghost use Rattle.std.specs.Prelude.{◌≡◌, ◌≤◌, [], IfOk, OnOk, OnErr, length, map, None, Some, IsTrue};
ghost use Rattle.std.specs.List.{filter, fold};
ghost use Rattle.std.specs.List.{AllByRecursion};
ghost use Rattle.std.specs.Option.{option_copied, option_map, IfSome};
ghost use Rattle.std.specs.Ordering.{nat_cmp};
ghost use Rattle.mur_base.specs.Map.{with_value, with_entry, without_key, value_at, IsInOrder};
ghost use Rattle.mail_message.specs.Boxes.{message_at, with_message, without_uid, with_flags, relabelled, row_of, size_of, uids_of, is_deleted};
ghost use Rattle.mail_message.specs.Boxes.{IsRising, LeavesNext};
ghost use Rattle.mail_message.specs.RowOrder.{HasNext};
ghost use Rattle.mail_message.specs.Slots.{filled, flat, HasPlace, HasPlaceFor, HasPlaces, KeepsPlaces, flags_written};

use crate::change::Change;
use crate::flag_set::FlagSet;
use crate::message::{Message, Uids};
use crate::ordered_rows::OrderedRows;
use mur_base::{Map, Memory};
use std::alloc::Global;
use std::marker::Model;

/// Places of messages by UID: an empty place is seen by nobody.
#[derive(Drop)]
pub struct Slots {
    map: Map<u32, Option<Message>>,
}

impl Model for Slots {
    ghost use Rattle.mail_message.specs.Slots.{Places, IsStanding};

    ghost Value = { Places };

    ghost view = { λ slots. slots.map };

    ghost invariant = { λ slots. IsStanding slots.map };
}

impl Slots {
    pub fn new(alloc: Global) -> Slots
        ensures { result ≡ [] }
    {
        Slots {
            map: Map::new(alloc),
        }
    }

    /// The message with a UID, if it is there.
    pub fn find(&self, uid: u32) -> Option<&Message>
        ensures message { option_copied result ≡ message_at (filled self.now) uid }
        ensures next { IfSome result (λ message. HasNext message.now.uid) }
    {
        message_in(self.map.get(&uid))
    }

    /// The rows of all messages in rising order of UID, and the size of their bodies together.
    pub fn look(&self, alloc: Global) -> Result<(OrderedRows, u64), Memory>
        ensures rows { IfOk result (λ seen. seen.0 ≡ map row_of (filled self.now)) }
        ensures size { IfOk result (λ seen. seen.1 ≡ size_of (filled self.now)) }
        ensures rising { OnOk result (IsRising (filled self.now)) }
    {
        let mut rows = OrderedRows::with_room(alloc, self.map.len())?;
        let mut size = 0u64;
        for (_uid, slot) in self.map.iter() {
            if let Some(message) = slot {
                rows.push(message.row(alloc)?)?;
                size = size.saturating_add(message.body.len() as u64);
            }
        }
        Ok((rows, size))
    }

    /// The UIDs of the messages with `\Deleted`, in rising order.
    pub fn deleted(&self, alloc: Global) -> Result<Uids, Memory>
        ensures { IfOk result (λ uids. uids ≡ uids_of (filter is_deleted (filled self.now))) }
    {
        let mut uids = Uids::new(alloc);
        for (_uid, slot) in self.map.iter() {
            if let Some(message) = slot {
                if message.is_deleted() {
                    uids.push(message.uid)?;
                }
            }
        }
        Ok(uids)
    }

    /// How many places there are: as many as messages, or more.
    pub fn places(&self) -> usize
        ensures { length (filled self.now) ≤ result }
    {
        self.map.len()
    }

    /// How many messages there are. It looks at each place.
    pub fn len(&self) -> usize
        ensures { result ≡ length (filled self.now) }
    {
        // There are no more messages than places, so the count fits.
        let places = self.map.len();
        let mut count = 0;
        for (_uid, slot) in self.map.iter() {
            if slot.is_some() {
                count += 1;
            }
        }
        count
    }

    /// Makes a place for a UID, if there is none.
    pub fn reserve(&mut self, uid: u32) -> Result<(), Memory>
        requires { HasNext uid }
        ensures same { filled self.new ≡ filled self.old }
        ensures place { OnOk result (HasPlace self.new uid) }
        ensures kept { KeepsPlaces self.old self.new }
    {
        if self.map.contains_key(&uid) {
            return Ok(());
        }
        insert_empty(&mut self.map, uid)
    }

    /// Makes a place for what a change puts.
    pub fn reserve_for(&mut self, change: &Change) -> Result<(), Memory>
        requires { LeavesNext change.now }
        ensures same { filled self.new ≡ filled self.old }
        ensures place { OnOk result (HasPlaceFor self.new change.now) }
        ensures kept { KeepsPlaces self.old self.new }
    {
        match change {
            Change::Put(message) => self.reserve(message.uid),
            _ => Ok(()),
        }
    }

    /// Makes places for all that changes put.
    pub fn reserve_all(&mut self, changes: &[Change]) -> Result<(), Memory>
        requires { AllByRecursion LeavesNext changes.now }
        ensures same { filled self.new ≡ filled self.old }
        ensures places { OnOk result (HasPlaces self.new changes.now) }
    {
        for change in changes {
            self.reserve_for(change)?;
        }
        Ok(())
    }

    /// Puts a message in its place.
    pub fn put(&mut self, message: Message)
        requires { HasPlace self.old message.uid }
        ensures messages { filled self.new ≡ with_message (filled self.old) message }
        ensures kept { KeepsPlaces self.old self.new }
    {
        write(&mut self.map, message.uid, Some(message));
    }

    /// Empties the place of a UID.
    pub fn take(&mut self, uid: u32)
        ensures messages { filled self.new ≡ without_uid (filled self.old) uid }
        ensures kept { KeepsPlaces self.old self.new }
    {
        write(&mut self.map, uid, None);
    }

    /// Takes the message with a UID away, and its place with it.
    pub fn remove(&mut self, uid: u32)
        ensures { filled self.new ≡ without_uid (filled self.old) uid }
    {
        remove(&mut self.map, uid);
    }

    /// Gives the message with a UID other flags, if it is there.
    pub fn set_flags(&mut self, uid: u32, flags: FlagSet)
        ensures messages { filled self.new ≡ map (with_flags uid flags) (filled self.old) }
        ensures kept { KeepsPlaces self.old self.new }
    {
        write_flags(&mut self.map, uid, flags);
    }

    /// Takes the place of a UID away, if it is empty.
    pub fn clear(&mut self, uid: u32)
        ensures { filled self.new ≡ filled self.old }
    {
        if is_empty(self.map.get(&uid)) {
            remove(&mut self.map, uid);
        }
    }
}

/// Takes the places away that are empty, of some UIDs.
pub fn clear_all(slots: &mut Slots, uids: &[u32])
    ensures { filled slots.new ≡ filled slots.old }
{
    for uid in uids {
        slots.clear(*uid);
    }
}

/// Takes the messages with some UIDs away, and their places with them.
pub fn remove_all(slots: &mut Slots, uids: &[u32])
    ensures { filled slots.new ≡ fold without_uid (filled slots.old) uids.now }
{
    for uid in uids {
        slots.remove(*uid);
    }
}

fn message_in(slot: Option<&Option<Message>>) -> Option<&Message>
    ensures { option_copied result ≡ flat (option_copied slot.entry) }
{
    match slot {
        Some(message) => message.as_ref(),
        None => None,
    }
}

fn is_empty(slot: Option<&Option<Message>>) -> bool
    ensures { IsTrue result → option_copied slot.entry ≡ Some None }
{
    match slot {
        Some(message) => message.is_none(),
        None => false,
    }
}

fn insert_empty(map: &mut Map<u32, Option<Message>>, uid: u32) -> Result<(), Memory>
    ensures ok { OnOk result (map.new ≡ with_entry nat_cmp map.old uid None) }
    ensures ordered { IsInOrder nat_cmp map.new }
    ensures err { OnErr result (map.new ≡ map.old) }
{
    let _ = map.insert(uid, None)?;
    Ok(())
}

fn remove(map: &mut Map<u32, Option<Message>>, uid: u32)
    ensures entries { map.new ≡ without_key nat_cmp map.old uid }
    ensures ordered { IsInOrder nat_cmp map.new }
{
    let _ = map.remove(&uid);
}

/// Writes into a place that is there.
fn write(map: &mut Map<u32, Option<Message>>, uid: u32, slot: Option<Message>)
    ensures { map.new ≡ with_value nat_cmp map.old uid slot }
{
    match map.get_mut(&uid) {
        Some(place) => *place = slot,
        None => {}
    }
}

/// Writes other flags into a message that is there.
fn write_flags(map: &mut Map<u32, Option<Message>>, uid: u32, flags: FlagSet)
    ensures { map.new ≡ flags_written map.old uid flags (value_at nat_cmp map.old uid) }
{
    match map.get_mut(&uid) {
        Some(place) => relabel(place, flags),
        None => {}
    }
}

fn relabel(place: &mut Option<Message>, flags: FlagSet)
    ensures { place.new ≡ option_map (λ message. relabelled message flags) place.old }
{
    if let Some(message) = place {
        message.flags = flags;
    }
}
