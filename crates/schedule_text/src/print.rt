// A schedule, printed: one line an event, each in its canonical form.
ghost use Rattle.std.specs.Prelude.{◌≡◌, ◌++◌, ◌∷◌, [], map, IfOk, OnOk};
ghost use Rattle.mur_base.specs.Ascii.{lf};
ghost use Rattle.schedule_text.specs.Meaning.{IsSchedule};
ghost use Rattle.schedule_text.specs.Words.{said_by};
ghost use Rattle.schedule_text.specs.Words.Value.{a_node};
ghost use Rattle.schedule_text.specs.Printed.{argument_value, value_text, argument_text, values_text, saying_line, saying_text, event_text, schedule_text};
ghost use Rattle.schedule_text.specs.Printed.{CanBePrinted, IsReadBack, AreReadBack, SaysWhatIsReadBack, AllReadBack};

use crate::event::{Event, Events};
use crate::text::put_text;
use crate::words::Word;
use mur_base::{Bytes, Memory, NodeName, put_number};
use mur_config::Config;
use std::alloc::Global;

/// An argument of a line.
#[derive(Clone, Copy)]
pub enum Argument<'a> {
    /// A node, by its name.
    Node(&'a [u8]),
    Number(u64),
    /// Bytes, whose text ends the line.
    Text(&'a [u8]),
}

/// The text of a schedule, which `read_schedule` reads back as the same events: a line for each event, ended by LF, one
/// space before each argument, numbers without leading zeros, bytes as `put_text` writes them. An event that has no word
/// in the format yet has no line.
#[tactic(auto, unfolding(crate::specs::Printed::schedule_text, crate::specs::Printed::AllReadBack))]
pub fn print_schedule(alloc: Global, events: &Events, config: &Config) -> Result<Bytes, Memory>
    ensures written { IfOk result (λ text. text ≡ schedule_text events.now) }
    ensures read_back { IfOk result (λ text. CanBePrinted config.now events.now → IsSchedule config.now text events.now) }
{
    let mut out = Bytes::new(alloc);
    for event in events.as_slice() {
        put_event(event, &mut out)?;
    }
    Ok(out)
}

/// Prints the line of an event: its word and its arguments.
#[tactic(auto, unfolding(crate::specs::Printed::event_text, crate::specs::Printed::saying_text, crate::specs::Words::said_by))]
fn put_event(event: &Event, out: &mut Bytes) -> Result<(), Memory>
    ensures written { OnOk result (out.new ≡ out.old ++ event_text event.now) }
    ensures read_back { OnOk result (SaysWhatIsReadBack (said_by event.now)) }
{
    match event {
        Event::Open(node, conn) => put_line(
            Word::Open,
            &[Argument::Node(node.as_bytes()), Argument::Number(*conn)],
            out,
        ),
        Event::Data(conn, bytes) => put_line(
            Word::Data,
            &[Argument::Number(*conn), Argument::Text(bytes.as_slice())],
            out,
        ),
        Event::Hang(conn) => put_line(Word::Hang, &[Argument::Number(*conn)], out),
        Event::Deliver(from, to) => put_pair(Word::Deliver, from, to, out),
        Event::Cut(one, other, kept, kept_back) => put_line(
            Word::Cut,
            &[
                Argument::Node(one.as_bytes()),
                Argument::Node(other.as_bytes()),
                Argument::Number(*kept),
                Argument::Number(*kept_back),
            ],
            out,
        ),
        Event::Join(one, other) => put_pair(Word::Join, one, other, out),
        Event::Flow(count) => put_line(Word::Flow, &[Argument::Number(*count)], out),
        Event::Heal => put_line(Word::Heal, &[], out),
        Event::Crash(..) | Event::Arm(..) | Event::Start(_) => Ok(()),
    }
}

/// Prints a line of a word and two nodes.
#[tactic(auto)]
fn put_pair(word: Word, one: &NodeName, other: &NodeName, out: &mut Bytes) -> Result<(), Memory>
    ensures written { OnOk result (out.new ≡ out.old ++ saying_line (record { word = word; values = a_node one.now ∷ a_node other.now ∷ [] }) ++ lf ∷ []) }
    ensures read_back { OnOk result (AreReadBack (a_node one.now ∷ a_node other.now ∷ [])) }
{
    put_line(
        word,
        &[
            Argument::Node(one.as_bytes()),
            Argument::Node(other.as_bytes()),
        ],
        out,
    )
}

/// Prints a line of a word and its arguments.
#[tactic(auto, unfolding(crate::specs::Printed::saying_line))]
fn put_line(word: Word, arguments: &[Argument<'_>], out: &mut Bytes) -> Result<(), Memory>
    ensures written { OnOk result (out.new ≡ out.old ++ saying_line (record { word = word; values = map argument_value arguments.now }) ++ lf ∷ []) }
    ensures read_back { OnOk result (AreReadBack (map argument_value arguments.now)) }
{
    out.extend_from_slice(word.text())?;
    put_arguments(arguments, out)?;
    out.push(b'\n')
}

#[tactic(auto, unfolding(crate::specs::Printed::values_text, crate::specs::Printed::argument_text, crate::specs::Printed::AreReadBack))]
fn put_arguments(arguments: &[Argument<'_>], out: &mut Bytes) -> Result<(), Memory>
    ensures written { OnOk result (out.new ≡ out.old ++ values_text (map argument_value arguments.now)) }
    ensures read_back { OnOk result (AreReadBack (map argument_value arguments.now)) }
{
    for argument in arguments {
        out.push(b' ')?;
        put_argument(*argument, out)?;
    }
    Ok(())
}

#[tactic(auto, unfolding(crate::specs::Printed::value_text))]
fn put_argument(argument: Argument<'_>, out: &mut Bytes) -> Result<(), Memory>
    ensures written { OnOk result (out.new ≡ out.old ++ value_text (argument_value argument.entry)) }
    ensures read_back { OnOk result (IsReadBack (argument_value argument.entry)) }
{
    match argument {
        Argument::Node(name) => out.extend_from_slice(name),
        Argument::Number(number) => put_number(number, out),
        Argument::Text(bytes) => put_text(bytes, out),
    }
}
