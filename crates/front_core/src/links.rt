// The links of a frontend come up, and end.
ghost use Rattle.std.specs.Prelude.{◌≡◌, ◌++◌, nat_eq, IfOk, OnOk};
ghost use Rattle.std.specs.Map.{keys_of};
ghost use Rattle.std.specs.Cmp.Lexicographic.{pointwise};
ghost use Rattle.front_core.specs.Front.{connection_at, up_from, with_up, without_up};
ghost use Rattle.front_core.specs.Front.{all_end, awaited, behind_them, end_at, end_from, one_ends};
ghost use Rattle.front_core.specs.Room.{HasRoomAt, HasRooms};

use crate::ask_order::in_ask_order;
use crate::desk::Desk;
use crate::front::Front;
use feed_core::{Replica, update_line};
use link_msg::{LinkMsg, Out, Outs};
use mur_base::{Copied, Memory, NodeName};
use std::alloc::Global;

impl Front {
    /// The link to a node comes up. For want of memory the frontend is spent.
    pub(crate) fn comes_up(&mut self, alloc: Global, from: &NodeName) -> Result<Outs, Memory>
        ensures { IfOk result (λ outs. record { front = self.new; outs = outs }
            ≡ up_from (pointwise nat_eq from.now self.old.master) (with_up self.old from.now)) }
    {
        self.ups.insert(from.copy(alloc)?, ())?;
        self.up_from(alloc, from)
    }

    /// The link to a node ends. For want of memory the frontend is spent.
    pub(crate) fn goes_down(&mut self, alloc: Global, from: &NodeName) -> Result<Outs, Memory>
        requires room { HasRooms self.old }
        ensures { IfOk result (λ outs. record { front = self.new; outs = outs } ≡ end_from (without_up self.old from.now) from.now) }
    {
        self.ups.remove(from);
        self.end_from(alloc, from)
    }

    // The link to a node has come up: of the master's table nothing is known yet.
    #[tactic(auto, unfolding(crate::specs::Front::up_from))]
    fn up_from(&mut self, alloc: Global, from: &NodeName) -> Result<Outs, Memory>
        ensures { IfOk result (λ outs. record { front = self.new; outs = outs } ≡ up_from (pointwise nat_eq from.now self.old.master) self.old) }
    {
        let mut outs = Outs::new(alloc);
        if *from == self.master {
            self.replica = Replica::new(alloc);
            let master = self.master.copy(alloc)?;
            outs.push(Out::Link(master, LinkMsg::Line(update_line(alloc)?)))?;
        }
        Ok(outs)
    }

    // The link to a node has ended, of which each connection is told in the order of their numbers. It takes a look-up for each; what they ask then is
    // sorted by the names of mailboxes.
    fn end_from(&mut self, alloc: Global, from: &NodeName) -> Result<Outs, Memory>
        requires room { HasRooms self.old }
        ensures { IfOk result (λ outs. record { front = self.new; outs = outs } ≡ end_from self.old from.now) }
    {
        let conns = self.numbers(alloc)?;
        let mut outs = Outs::new(alloc);
        self.all_end(alloc, from, conns.as_slice(), &mut outs)?;
        in_ask_order(outs)
    }

    // The numbers of all connections, in their order.
    fn numbers(&self, alloc: Global) -> Result<Vec<u64>, Memory>
        ensures { IfOk result (λ conns. conns.items ≡ keys_of self.now.connections) }
    {
        let mut conns = Vec::new(alloc);
        for (conn, _slot) in self.connections.iter() {
            conns.push(*conn)?;
        }
        Ok(conns)
    }

    #[tactic(auto, unfolding(crate::specs::Front::all_end))]
    fn all_end(
        &mut self,
        alloc: Global,
        from: &NodeName,
        conns: &[u64],
        outs: &mut Outs,
    ) -> Result<(), Memory>
        requires room { HasRooms self.old }
        ensures { OnOk result (record { front = self.new; outs = outs.new } ≡ behind_them outs.old (all_end self.old from.now conns.now)) }
    {
        for conn in conns {
            self.one_ends(alloc, from, *conn, outs)?;
        }
        Ok(())
    }

    fn one_ends(
        &mut self,
        alloc: Global,
        from: &NodeName,
        conn: u64,
        outs: &mut Outs,
    ) -> Result<(), Memory>
        requires room { HasRoomAt self.old conn 0 }
        ensures { OnOk result (record { front = self.new; outs = outs.new } ≡ behind_them outs.old (one_ends self.old from.now conn)) }
    {
        if self.awaits(conn, from) {
            put_behind(self.end(alloc, conn)?, outs)
        } else {
            Ok(())
        }
    }

    /// Whether a command of a connection waits for something from this node.
    #[tactic(auto, unfolding(crate::specs::Front::awaited))]
    fn awaits(&self, conn: u64, node: &NodeName) -> bool
        ensures { result ≡ awaited self.now.master (connection_at self.now conn) node.now }
    {
        match self.connections.get(&conn) {
            Some(slot) => slot.awaits(&self.master, node),
            None => false,
        }
    }

    // The link ends to the node for which a connection's command waits.
    #[tactic(auto, unfolding(crate::specs::Front::end_at))]
    fn end(&mut self, alloc: Global, conn: u64) -> Result<Outs, Memory>
        requires room { HasRoomAt self.old conn 0 }
        ensures { IfOk result (λ outs. record { front = self.new; outs = outs } ≡ end_at self.old conn (connection_at self.old conn)) }
    {
        match self.connections.get_mut(&conn) {
            Some(slot) => {
                let desk = Desk {
                    alloc,
                    setting: &self.setting,
                    replica: &self.replica,
                    master: &self.master,
                    first: &self.first,
                    ups: &self.ups,
                    conn,
                };
                let outs = slot.end_comes(desk)?;
                Ok(outs)
            }
            None => Ok(Outs::new(alloc)),
        }
    }
}

// Puts outputs behind others.
fn put_behind(more: Outs, outs: &mut Outs) -> Result<(), Memory>
    ensures { OnOk result (outs.new ≡ outs.old ++ more) }
{
    for out in more.into_vec() {
        outs.push(out)?;
    }
    Ok(())
}
