// The events that words and their arguments make, a row for each word.
ghost use Rattle.std.specs.Prelude.{◌≡◌, List, length, map};
ghost use Rattle.mur_config.specs.declared.config.Config.{Config};
ghost use Rattle.schedule_text.specs.declared.event.Event.{Event};
ghost use Rattle.schedule_text.specs.ScheduleRules.{IsReadByRule};
ghost use Rattle.schedule_text.specs.ScheduleOpened.{KnowsOpened};
ghost use Rattle.schedule_text.specs.Rows.{event_in, flow_count, text_in};
ghost use Rattle.schedule_text.specs.Words.{kinds_of};
ghost use Rattle.schedule_text.specs.declared.words.Word.TheVariants.{Open as open_word, Data as data_word, Hang as hang_word, Deliver as deliver_word, Cut as cut_word, Join as join_word, Flow as flow_word, Heal as heal_word};

use crate::event::Event;
use crate::schedule::fault::{LineError, Rule};
use crate::schedule::nodes::{client_node_in, link_in};
use crate::schedule::read_so_far::ReadSoFar;
use crate::schedule::words::number_in;
use crate::text::read_text;
use crate::words::Word;
use mur_base::{Bytes, Copied};
use mur_config::{Config, Link};
use std::alloc::Global;

/// The most deliveries of one `flow`, so that the steps of a whole schedule fit 64 bits.
pub const FLOW_LIMIT: u64 = 4_294_967_295;

/// The event of a word with as many arguments as it has kinds, by the first rule that they break.
#[tactic(auto, unfolding(crate::specs::Words::kinds_of))]
pub fn event_in(
    alloc: Global,
    config: &Config,
    so_far: &ReadSoFar,
    word: Word,
    arguments: &[&[u8]],
) -> Result<Event, LineError>
    requires opened { KnowsOpened so_far.now }
    requires count { length arguments.now ≡ length (kinds_of word) }
    ensures { IsReadByRule (event_in config.now so_far.now.events word (map (λ argument. argument.now) arguments.now)) result }
{
    match word {
        Word::Open => open_in(alloc, config, so_far, arguments),
        Word::Data => data_in(alloc, so_far, arguments),
        Word::Hang => Ok(hang_in(so_far, arguments)?),
        Word::Deliver => deliver_in(alloc, config, arguments),
        Word::Cut => cut_in(alloc, config, arguments),
        Word::Join => join_in(alloc, config, arguments),
        Word::Flow => Ok(flow_in(arguments)?),
        Word::Heal => Ok(heal_in(arguments)?),
    }
}

/// `open NODE C`: connection C, which no line before opened, is opened at a frontend, or at the master.
#[tactic(auto, unfolding(crate::specs::Rows::event_in))]
fn open_in(
    alloc: Global,
    config: &Config,
    so_far: &ReadSoFar,
    arguments: &[&[u8]],
) -> Result<Event, LineError>
    requires opened { KnowsOpened so_far.now }
    ensures { IsReadByRule (event_in config.now so_far.now.events open_word (map (λ argument. argument.now) arguments.now)) result }
{
    match arguments {
        [node, number] => {
            let conn = number_in(number)?;
            let node = client_node_in(config, node)?;
            so_far.unopened(conn)?;
            Ok(Event::Open(node.name.copy(alloc)?, conn))
        }
        _ => Err(LineError::Broken(Rule::WrongCount)),
    }
}

/// `data C TEXT`: bytes come from the client of connection C, which a line before opened.
#[tactic(auto, unfolding(crate::specs::Rows::event_in))]
fn data_in(alloc: Global, so_far: &ReadSoFar, arguments: &[&[u8]]) -> Result<Event, LineError>
    requires opened { KnowsOpened so_far.now }
    ensures { (config : Config) → IsReadByRule (event_in config so_far.now.events data_word (map (λ argument. argument.now) arguments.now)) result }
{
    match arguments {
        [number, text] => {
            let conn = number_in(number)?;
            so_far.opened_before(conn)?;
            Ok(Event::Data(conn, text_in(alloc, text)?))
        }
        _ => Err(LineError::Broken(Rule::WrongCount)),
    }
}

/// `hang C`: the client of connection C, which a line before opened, closes it.
#[tactic(auto, unfolding(crate::specs::Rows::event_in))]
fn hang_in(so_far: &ReadSoFar, arguments: &[&[u8]]) -> Result<Event, Rule>
    requires opened { KnowsOpened so_far.now }
    ensures { (config : Config) → result ≡ event_in config so_far.now.events hang_word (map (λ argument. argument.now) arguments.now) }
{
    match arguments {
        [number] => {
            let closed = number_in(number)?;
            so_far.opened_before(closed)?;
            Ok(Event::Hang(closed))
        }
        _ => Err(Rule::WrongCount),
    }
}

/// `deliver A B`: the first message from node A to node B, which a link joins, is taken.
#[tactic(auto, unfolding(crate::specs::Rows::event_in))]
fn deliver_in(alloc: Global, config: &Config, arguments: &[&[u8]]) -> Result<Event, LineError>
    ensures { (before : List Event) → IsReadByRule (event_in config.now before deliver_word (map (λ argument. argument.now) arguments.now)) result }
{
    match arguments {
        [from, to] => {
            let Link { from, to } = link_in(alloc, config, from, to)?;
            Ok(Event::Deliver(from, to))
        }
        _ => Err(LineError::Broken(Rule::WrongCount)),
    }
}

/// `cut A B K L`: the link that joins nodes A and B breaks, and keeps at most K messages from A to B and L back.
#[tactic(auto, unfolding(crate::specs::Rows::event_in))]
fn cut_in(alloc: Global, config: &Config, arguments: &[&[u8]]) -> Result<Event, LineError>
    ensures { (before : List Event) → IsReadByRule (event_in config.now before cut_word (map (λ argument. argument.now) arguments.now)) result }
{
    match arguments {
        [one, other, to, from] => {
            let kept = number_in(to)?;
            let kept_back = number_in(from)?;
            let Link { from, to } = link_in(alloc, config, one, other)?;
            Ok(Event::Cut(from, to, kept, kept_back))
        }
        _ => Err(LineError::Broken(Rule::WrongCount)),
    }
}

/// `join A B`: the link that joins nodes A and B comes up, if it may.
#[tactic(auto, unfolding(crate::specs::Rows::event_in))]
fn join_in(alloc: Global, config: &Config, arguments: &[&[u8]]) -> Result<Event, LineError>
    ensures { (before : List Event) → IsReadByRule (event_in config.now before join_word (map (λ argument. argument.now) arguments.now)) result }
{
    match arguments {
        [one, other] => {
            let Link { from, to } = link_in(alloc, config, one, other)?;
            Ok(Event::Join(from, to))
        }
        _ => Err(LineError::Broken(Rule::WrongCount)),
    }
}

/// `flow K`: at most K deliveries, in rounds over the links.
#[tactic(auto, unfolding(crate::specs::Rows::event_in))]
fn flow_in(arguments: &[&[u8]]) -> Result<Event, Rule>
    ensures { (config : Config) (before : List Event) → result ≡ event_in config before flow_word (map (λ argument. argument.now) arguments.now) }
{
    match arguments {
        [number] => Ok(Event::Flow(flow_count(number)?)),
        _ => Err(Rule::WrongCount),
    }
}

/// `heal`: every link that may come up does.
#[tactic(auto, unfolding(crate::specs::Rows::event_in))]
fn heal_in(arguments: &[&[u8]]) -> Result<Event, Rule>
    ensures { (config : Config) (before : List Event) → result ≡ event_in config before heal_word (map (λ argument. argument.now) arguments.now) }
{
    match arguments {
        [] => Ok(Event::Heal),
        _ => Err(Rule::WrongCount),
    }
}

/// The number of deliveries that a word is.
#[tactic(auto, unfolding(crate::specs::Rows::flow_count))]
fn flow_count(word: &[u8]) -> Result<u64, Rule>
    ensures { result ≡ flow_count word.now }
{
    let count = number_in(word)?;
    if count <= FLOW_LIMIT {
        Ok(count)
    } else {
        Err(Rule::BadNumber)
    }
}

/// The bytes that a text spells.
#[tactic(auto, unfolding(crate::specs::Rows::text_in))]
fn text_in(alloc: Global, text: &[u8]) -> Result<Bytes, LineError>
    ensures { IsReadByRule (text_in text.now) result }
{
    match read_text(alloc, text)? {
        Some(bytes) => Ok(bytes),
        None => Err(LineError::Broken(Rule::BadText)),
    }
}
