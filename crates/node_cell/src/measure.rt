// How many bytes the lines of a log have; nothing is printed to find out.
ghost use Rattle.std.specs.Prelude.{◌≡◌, ◌≤◌, length, decimal};
ghost use Rattle.schedule_text.specs.Text.{spelling_of, text_of};
ghost use Rattle.node_cell.specs.Lines.{line_length};
ghost use Rattle.node_cell.specs.Rest.{IsRest};

use itoa::Buffer;
use mur_base::NodeName;
use mur_base::limits::SHORT_NAME_LIMIT;
use node_step::NodeInput;

/// What is left of so many bytes behind the line that says what a node of this name took.
#[tactic(auto, using(crate::proofs::LineLaws::by_length))]
pub(crate) fn room_behind(room: u64, name: &NodeName, input: &NodeInput) -> Option<u64>
    ensures { IsRest room (line_length name.now input.now) result }
{
    match input {
        NodeInput::Opened(conn) => behind(room, 7 + name_size(name) + digits(*conn)),
        NodeInput::Piece(conn, bytes) => {
            let Some(rest) = behind(room, 7 + digits(*conn)) else {
                return None;
            };
            behind_text(rest, bytes.as_slice())
        }
        NodeInput::Hung(conn) => behind(room, 6 + digits(*conn)),
        NodeInput::From(sender, _) => behind(room, 10 + name_size(sender) + name_size(name)),
    }
}

/// What is left behind so many bytes.
fn behind(room: u64, taken: u64) -> Option<u64>
    ensures { IsRest room taken result }
{
    room.checked_sub(taken)
}

/// How many bytes a node's name has.
#[tactic(auto, using(crate::proofs::LineLaws::name_short))]
fn name_size(name: &NodeName) -> u64
    ensures size { result ≡ length name.now }
    ensures few { result ≤ SHORT_NAME_LIMIT }
{
    name.len() as u64
}

/// How many digits a number has in decimal.
fn digits(n: u64) -> u64
    ensures length { result ≡ length (decimal n) }
    ensures few { result ≤ 20 }
{
    Buffer::new().format(n).len() as u64
}

/// What is left behind the printable text of bytes.
#[tactic(auto, using(crate::proofs::LineLaws::by_length))]
fn behind_text(room: u64, bytes: &[u8]) -> Option<u64>
    ensures { IsRest room (length (text_of bytes.now)) result }
{
    let mut rest = room;
    for byte in bytes {
        let Some(less) = behind(rest, spelling_size(*byte)) else {
            return None;
        };
        rest = less;
    }
    Some(rest)
}

/// How many bytes stand for a byte in a printable text.
#[tactic(auto, unfolding(schedule_text::specs::Text::spelling_of, schedule_text::specs::Text::is_printed))]
fn spelling_size(byte: u8) -> u64
    ensures { result ≡ length (spelling_of byte) }
{
    match byte {
        b'\\' | b'\r' | b'\n' => 2,
        b' '..=b'~' => 1,
        _ => 4,
    }
}
