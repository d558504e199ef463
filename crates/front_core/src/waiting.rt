// The inputs that waited behind a command.
ghost use Rattle.std.specs.Prelude.{◌≡◌, ◌<◌, ◌^◌, [], OnOk};
ghost use Rattle.front_core.specs.Room.{commands_of};
ghost use Rattle.front_core.specs.Taken.{inputs_come, behind_outs, ways_by};

use crate::connection::Connection;
use crate::desk::Desk;
use link_msg::Outs;
use mur_base::Memory;

impl Connection {
    /// Takes the inputs that wait, up to the next command that waits: those behind it stay where they are. Each
    /// input is taken out in constant time. For want of memory the connection is spent.
    pub(crate) fn waiting_come(&mut self, desk: Desk, outs: &mut Outs) -> Result<(), Memory>
        requires room { commands_of self.old < 2 ^ 64 }
        ensures { OnOk result (record { connection = self.new; outs = outs.new }
            ≡ behind_outs outs.old (inputs_come desk.entry.setting.now (ways_by desk.entry.replica.now.records desk.entry.master.now desk.entry.first.now desk.entry.ups.now)
            desk.entry.conn (record self.old { waiting = [] }) self.old.waiting)) }
    {
        while self.is_reading() {
            let Some(input) = self.waiting.pop() else {
                return Ok(());
            };
            self.input_in(desk, input, outs)?;
        }
        if self.has_ended() {
            self.waiting.clear();
        }
        Ok(())
    }
}
