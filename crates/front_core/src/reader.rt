// The bytes of a client's connection, cut into frames, and what these are to its session.
ghost use Rattle.std.specs.Prelude.{◌≡◌, ◌<◌, ◌≤◌, ◌++◌, length, drop, IfOk, IsSome, is_none};
ghost use Rattle.std.specs.Option.{option_to_list};
ghost use Rattle.front_core.specs.Given.{IsGiven};
ghost use Rattle.front_core.specs.Reading.{first_reading, inputs_of_more, read_more};

use imap_talk::{Before, Input, input_at};
use imap_wire::{Frame, Framer};
use mur_base::Memory;
use mur_model::Setting;
use std::alloc::Global;
use std::marker::Model;
use std::mem;

/// The framer of a connection, and what stands before its next frame. Contracts see the bytes of the frame that has begun,
/// or `None` once the connection has ended at a fault.
#[derive(Drop)]
pub struct Reader {
    framer: Framer,
    before: Before,
}

impl Model for Reader {
    ghost use Rattle.front_core.specs.Reading.{Reading};

    ghost Value = { Reading };

    ghost view = { λ reader. record { held = reader.framer.begun; before = reader.before } };
}

impl Reader {
    /// That of a new connection.
    pub fn new(alloc: Global) -> Reader
        ensures { result ≡ first_reading }
    {
        Reader {
            framer: Framer::new(alloc),
            before: Before::Hears(false),
        }
    }

    /// Whether no byte is taken any more.
    pub fn ended(&self) -> bool
        ensures { result ≡ is_none self.now.held }
    {
        self.framer.spent()
    }

    /// Takes bytes of the piece up to the end of the next frame, or all where none ends in it, and says how many.
    pub fn next(
        &mut self,
        alloc: Global,
        setting: &Setting,
        piece: &[u8],
    ) -> Result<(Option<Input>, usize), Memory>
        ensures inputs { IfOk result (λ fed. inputs_of_more setting.now self.old piece.now
            ≡ option_to_list fed.0 ++ inputs_of_more setting.now self.new (drop fed.1 piece.now)) }
        ensures rest { IfOk result (λ fed. read_more setting.now self.old piece.now ≡ read_more setting.now self.new (drop fed.1 piece.now)) }
        ensures within { IfOk result (λ fed. fed.1 ≤ length piece.now) }
        ensures some { IfOk result (λ fed. IsSome self.old.held → 0 < length piece.now → 0 < fed.1) }
    {
        let (frame, taken) = self.framer.feed(piece)?;
        let input = given(alloc, setting, &mut self.before, frame)?;
        Ok((input, taken))
    }
}

/// What a frame is, if there is one.
#[tactic(auto, unfolding(crate::specs::Given::IsGiven))]
fn given(
    alloc: Global,
    setting: &Setting,
    before: &mut Before,
    frame: Option<Frame>,
) -> Result<Option<Input>, Memory>
    ensures { IfOk result (λ input. IsGiven setting.now before.old frame input before.new) }
{
    let Some(frame) = frame else {
        return Ok(None);
    };
    let given = input_at(
        alloc,
        setting,
        mem::replace(before, Before::Hears(false)),
        frame,
    )?;
    *before = given.next;
    Ok(Some(given.input))
}
