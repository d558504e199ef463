// The bytes of a client that come in one piece.
ghost use Rattle.std.specs.Prelude.{◌≡◌, ◌+◌, ◌<◌, ◌^◌, length, OnOk};
ghost use Rattle.std.specs.Option.{option_to_list};
ghost use Rattle.front_core.specs.Ended.{with_released};
ghost use Rattle.front_core.specs.Front.{having_read};
ghost use Rattle.front_core.specs.Reading.{inputs_of_more};
ghost use Rattle.front_core.specs.Room.{commands_of};
ghost use Rattle.front_core.specs.Taken.{inputs_come, behind_outs, ways_by};

use crate::connection::Connection;
use crate::desk::Desk;
use imap_talk::Input;
use link_msg::Outs;
use mur_base::Memory;

impl Connection {
    /// Takes each input that ends in a piece, one by one: no byte behind one that ends the connection is looked at. For want of
    /// memory the connection is spent.
    pub(crate) fn inputs_come(
        &mut self,
        desk: Desk,
        piece: &[u8],
        outs: &mut Outs,
    ) -> Result<(), Memory>
        requires room { commands_of self.old + length piece.now < 2 ^ 64 }
        ensures { OnOk result (with_released (record { connection = self.new; outs = outs.new }) ≡ with_released (behind_outs outs.old
            (inputs_come desk.entry.setting.now (ways_by desk.entry.replica.now.records desk.entry.master.now desk.entry.first.now desk.entry.ups.now)
            desk.entry.conn (having_read desk.entry.setting.now self.old piece.now)
            (inputs_of_more desk.entry.setting.now self.old.reader piece.now)))) }
    {
        let mut taken = 0;
        while taken < piece.len() && !self.has_ended() && !self.reader.ended() {
            let (input, more) = self.reader.next(desk.alloc, desk.setting, &piece[taken..])?;
            taken += more;
            self.next_comes(desk, input, outs)?;
        }
        Ok(())
    }

    #[tactic(auto, unfolding(crate::specs::Taken::inputs_come))]
    fn next_comes(
        &mut self,
        desk: Desk,
        input: Option<Input>,
        outs: &mut Outs,
    ) -> Result<(), Memory>
        requires room { self.old.answered + 1 < 2 ^ 64 }
        ensures { OnOk result (record { connection = self.new; outs = outs.new }
            ≡ behind_outs outs.old (inputs_come desk.entry.setting.now (ways_by desk.entry.replica.now.records desk.entry.master.now desk.entry.first.now desk.entry.ups.now)
            desk.entry.conn self.old (option_to_list input))) }
    {
        match input {
            Some(input) => self.input_comes(desk, input, outs),
            None => Ok(()),
        }
    }
}
