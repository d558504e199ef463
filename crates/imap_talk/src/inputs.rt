// What the frames of a connection are to its session.
ghost use Rattle.std.specs.Prelude.{◌≡◌, IfOk};
ghost use Rattle.imap_talk.specs.declared.inputs.Before.TheVariants.{Hears};
ghost use Rattle.mur_model.specs.Waits.{begun_behind};
ghost use Rattle.imap_talk.specs.Inputs.{asks_for, continuation_of, input_at, line_at, line_of_frame, request_at, too_big_at, whole_given};

use imap_command::{read_request, too_big};
use imap_reply::Continuation;
use imap_types::{Command, Request, Tag};
use imap_wire::{Frame, FrameFault};
use mur_base::{Bytes, Memory};
use mur_model::{Setting, Wait, begun_behind, wait_of, waits_begun, with_line};
use std::alloc::Global;

/// What a frame is to a session.
#[derive(Drop)]
pub enum Input {
    /// The client is told to go on.
    GoesOn(Continuation),
    Asks(Request),
    /// Nothing can be read any more.
    Faults(FrameFault),
}

/// What stands before a frame of a connection.
#[derive(Drop)]
pub enum Before {
    /// Nothing waits for it. Whether a session has begun.
    Hears(bool),
    /// The command of this tag waits for it as its line.
    Waits(Tag, Wait),
}

/// What a frame is, and what stands before the next.
#[derive(Drop)]
pub struct Given {
    pub input: Input,
    pub next: Before,
}

/// What a frame is to a session, behind what stands before it. The bytes of a frame are read once.
#[tactic(auto, unfolding(crate::specs::Inputs::input_at))]
pub fn input_at(
    alloc: Global,
    setting: &Setting,
    before: Before,
    frame: Frame,
) -> Result<Given, Memory>
    ensures { IfOk result (λ given. given ≡ input_at setting.now before frame) }
{
    match frame {
        Frame::Whole(bytes) => whole_at(alloc, setting, before, bytes.as_slice()),
        Frame::TooBig(bytes) => too_big_at(alloc, setting, before, bytes.as_slice()),
        Frame::NeedLiteral(_) => Ok(Given {
            input: Input::GoesOn(Continuation::Literal),
            next: before,
        }),
        Frame::Fault(fault) => Ok(Given {
            input: Input::Faults(fault),
            next: before,
        }),
    }
}

#[tactic(auto, unfolding(crate::specs::Inputs::whole_given))]
fn whole_at(alloc: Global, setting: &Setting, before: Before, bytes: &[u8]) -> Result<Given, Memory>
    ensures { IfOk result (λ given. given ≡ whole_given setting.now before bytes.now) }
{
    match before {
        Before::Hears(begun) => {
            let request = read_request(alloc, bytes)?;
            request_at(alloc, setting, begun, request)
        }
        Before::Waits(tag, wait) => line_at(alloc, setting, tag, wait, line_in(bytes)),
    }
}

#[tactic(auto, unfolding(crate::specs::Inputs::too_big_at))]
fn too_big_at(
    alloc: Global,
    setting: &Setting,
    before: Before,
    bytes: &[u8],
) -> Result<Given, Memory>
    ensures { IfOk result (λ given. given ≡ too_big_at setting.now before bytes.now) }
{
    match before {
        Before::Hears(begun) => {
            let request = too_big(alloc, bytes)?;
            request_at(alloc, setting, begun, request)
        }
        Before::Waits(tag, wait) => line_at(alloc, setting, tag, wait, line_in(bytes)),
    }
}

/// The line in a frame: without the CRLF at its end.
fn line_in(bytes: &[u8]) -> &[u8]
    ensures { result.now ≡ line_of_frame bytes.now }
{
    &bytes[..bytes.len().saturating_sub(2)]
}

#[tactic(auto, unfolding(crate::specs::Inputs::line_at))]
fn line_at(
    alloc: Global,
    setting: &Setting,
    tag: Tag,
    wait: Wait,
    line: &[u8],
) -> Result<Given, Memory>
    ensures { IfOk result (λ given. given ≡ line_at setting.now tag wait line.now) }
{
    let command = with_line(wait, Bytes::from_slice(alloc, line)?);
    command_at(alloc, setting, waits_begun(wait), tag, command)
}

/// A command that waits for nothing more.
fn command_at(
    alloc: Global,
    setting: &Setting,
    begun: bool,
    tag: Tag,
    command: Command,
) -> Result<Given, Memory>
    ensures { IfOk result (λ given. given ≡ asks_for (Request.Command tag command) (Hears (begun_behind setting.now begun command))) }
{
    match begun_behind(alloc, setting, begun, &command) {
        Ok(behind) => Ok(asks_for(Request::Command(tag, command), behind)),
        Err(memory) => {
            // By a call, so that the drop is proved once, and not at each place.
            drop(command);
            Err(memory)
        }
    }
}

fn asks_for(request: Request, begun: bool) -> Given
    ensures { result ≡ asks_for request (Hears begun) }
{
    Given {
        input: Input::Asks(request),
        next: Before::Hears(begun),
    }
}

#[tactic(auto, unfolding(crate::specs::Inputs::request_at, crate::specs::Inputs::command_by))]
fn request_at(
    alloc: Global,
    setting: &Setting,
    begun: bool,
    request: Request,
) -> Result<Given, Memory>
    ensures { IfOk result (λ given. given ≡ request_at setting.now begun request) }
{
    match request {
        Request::Command(tag, command) => match wait_of(begun, &command) {
            Some(wait) => {
                drop(command);
                Ok(Given {
                    input: Input::GoesOn(continuation_of(wait)),
                    next: Before::Waits(tag, wait),
                })
            }
            None => command_at(alloc, setting, begun, tag, command),
        },
        request => Ok(asks_for(request, begun)),
    }
}

#[tactic(auto, unfolding(crate::specs::Inputs::continuation_of))]
fn continuation_of(wait: Wait) -> Continuation
    ensures { result ≡ continuation_of wait }
{
    match wait {
        Wait::Authenticate => Continuation::Response,
        Wait::Idle => Continuation::Done,
    }
}
