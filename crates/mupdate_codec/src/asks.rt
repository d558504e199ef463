// The tags between the nodes of a cluster.
ghost use Rattle.std.specs.Prelude.{◌≡◌, ◌<◌, ◌^◌, ℕ, List, [], IfOk, Some, codes, None};
ghost use Rattle.mur_base.specs.declared.point.AskId.{AskId};
ghost use Rattle.mupdate_codec.specs.declared.command.MCommand.{MCommand};
ghost use Rattle.mupdate_codec.specs.declared.command.MResponse.{MResponse};
ghost use Rattle.mupdate_codec.specs.declared.tag.Tag.{Tag};
ghost use Rattle.mupdate_codec.specs.Arguments.{exact};
ghost use Rattle.mupdate_codec.specs.Asks.{tag_of, split_dash, ask_in, ask_id_of, line_ask};
ghost use Rattle.mupdate_codec.specs.Commands.{command_line, IsCommandLine};
ghost use Rattle.mupdate_codec.specs.Responses.{response_line, IsResponseLine};

use crate::tag::Tag;
use grammar::put_decimal;
use mur_base::{AskId, Bytes, Memory, read_number};
use std::alloc::Global;

/// The tag of a frontend's UPDATE.
pub const UPDATE_TAG: &[u8] = b"u";

/// The tag of the LIST with which a backend begins a resync.
pub const RESYNC_TAG: &[u8] = b"l";

/// The tag of a line for whose answer no client's command waits.
pub const UNASKED_TAG: &[u8] = b"r0";

/// The tag of an ACTIVATE at its own sender, after the command was answered.
pub const BACK_TAG: &[u8] = b"r1";

/// The tag of a backend's FIND.
pub const FIND_TAG: &[u8] = b"r2";

/// The tag of a line that a client's command waits for: the number of its connection, `-`, and its own number in it.
#[tactic(auto, using(std::proofs::lemmas::Grind::common_steps), unfolding(crate::specs::Asks::tag_of))]
pub fn tag_of(alloc: Global, ask: &AskId) -> Result<Tag, Memory>
    ensures { IfOk result (λ tag. tag ≡ tag_of ask.now) }
{
    let mut text = Bytes::new(alloc);
    put_decimal(ask.conn, &mut text)?;
    text.push(b'-')?;
    put_decimal(ask.command, &mut text)?;
    Ok(Tag::Text(text))
}

/// Two numbers, where both texts write one.
fn ask_in(conn: &[u8], command: &[u8]) -> Option<AskId>
    ensures { result ≡ ask_in (Some (conn.now, command.now)) }
{
    let conn = read_number(conn)?;
    let command = read_number(command)?;
    Some(AskId { conn, command })
}

/// The command that a text tells.
#[tactic(auto, unfolding(crate::specs::Asks::split_dash))]
fn ask_in_text(text: &[u8]) -> Option<AskId>
    ensures { result ≡ ask_in (split_dash [] text.now) }
{
    for (i, byte) in text.iter().enumerate() {
        if *byte == b'-' {
            return ask_in(&text[..i], &text[i + 1..]);
        }
    }
    None
}

/// The command of a client that a tag tells.
#[tactic(auto, unfolding(crate::specs::Asks::ask_id_of))]
pub fn ask_of(tag: &Tag) -> Option<AskId>
    ensures { result ≡ ask_id_of tag.now }
{
    match tag {
        Tag::Star => None,
        Tag::Text(text) => ask_in_text(text.as_slice()),
    }
}

/// A client's command is told by its own tag, and by none of the others.
pub fn a_tag_tells_its_ask()
    ensures ask { (ask : AskId) → ask.conn < 2 ^ 64 → ask.command < 2 ^ 64 → ask_id_of (tag_of ask) ≡ Some ask }
    ensures update { ask_id_of (Tag.Text (codes "u")) ≡ None }
    ensures resync { ask_id_of (Tag.Text (codes "l")) ≡ None }
    ensures unasked { ask_id_of (Tag.Text (codes "r0")) ≡ None }
    ensures back { ask_id_of (Tag.Text (codes "r1")) ≡ None }
    ensures find { ask_id_of (Tag.Text (codes "r2")) ≡ None }
{}

/// A line tells its command by its tag alone, a command and a response alike; under the tag of a client's command it does so even where
/// no line is so.
pub fn a_line_tells_its_ask()
    ensures command { (line : List ℕ) (it : Tag × MCommand) → IsCommandLine line it → line_ask line ≡ ask_id_of it.0 }
    ensures response { (line : List ℕ) (it : Tag × MResponse) → IsResponseLine line it → line_ask line ≡ ask_id_of it.0 }
    ensures own_command { (ask : AskId) (it : MCommand) → line_ask ((command_line exact).text (tag_of ask, it)) ≡ ask_id_of (tag_of ask) }
    ensures own_response { (ask : AskId) (it : MResponse) → line_ask ((response_line exact).text (tag_of ask, it)) ≡ ask_id_of (tag_of ask) }
{}
