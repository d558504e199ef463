// The lines of the output.
ghost use Rattle.std.specs.Prelude.{◌≡◌, ℕ, List, ◌++◌, OnOk};
ghost use Rattle.top_call.specs.Output.{what_text, unreached_text, location_text, row_text, phase_text, row_counts_text, pointer_text, state_word};

use cluster_core::HomeRow;
use mur_base::{Bytes, Location, MailName, Memory, NodeName, Phase, Point, What, put_number};
use node_record::{Record, State};
use schedule_text::{put_name_text, put_text};

/// What is printed as one line.
pub trait Line {
    // the line, with its LF
    ghost text: { Self → List ℕ };

    /// Writes the line behind what is there.
    fn put(&self, out: &mut Bytes) -> Result<(), Memory>
        ensures { OnOk result (out.new ≡ out.old ++ text self.now) };
}

/// `to C TEXT`: a piece of what the client of a connection was given.
#[derive(Drop)]
pub struct Given<'a> {
    pub conn: u64,
    pub piece: &'a [u8],
}

/// `master NAME STATE SERVER!PARTITION`: a record of the master's table.
#[derive(Drop)]
pub struct Recorded<'a> {
    pub name: &'a MailName,
    pub it: &'a Record,
}

/// `end STEPS POINTS`.
#[derive(Drop)]
pub struct End {
    pub steps: u64,
    pub points: u64,
}

impl Line for Given<'_> {
    ghost use Rattle.top_call.specs.Output.{to_line};

    ghost text = { λ line. to_line line.conn line.piece.now };

    #[tactic(auto, unfolding(crate::specs::Output::to_line))]
    fn put(&self, out: &mut Bytes) -> Result<(), Memory> {
        out.extend_from_slice(b"to ")?;
        put_number(self.conn, out)?;
        out.push(b' ')?;
        put_text(self.piece, out)?;
        out.push(b'\n')
    }
}

/// `point STEP C.K WHAT`.
impl Line for Point {
    ghost use Rattle.top_call.specs.Output.{point_line};

    ghost text = { point_line };

    #[tactic(auto, unfolding(crate::specs::Output::point_line))]
    fn put(&self, out: &mut Bytes) -> Result<(), Memory> {
        out.extend_from_slice(b"point ")?;
        put_number(self.step, out)?;
        out.push(b' ')?;
        put_number(self.ask.conn, out)?;
        out.push(b'.')?;
        put_number(self.ask.command, out)?;
        out.push(b' ')?;
        put_what(&self.what, out)?;
        out.push(b'\n')
    }
}

#[tactic(auto, unfolding(crate::specs::Output::what_text))]
fn put_what(what: &What, out: &mut Bytes) -> Result<(), Memory>
    ensures { OnOk result (out.new ≡ out.old ++ what_text what.now) }
{
    match what {
        What::Reply => out.extend_from_slice(b"reply"),
        What::Read => out.extend_from_slice(b"read"),
        What::Lost => out.extend_from_slice(b"lost"),
        What::Reserved => out.extend_from_slice(b"refused reserved"),
        What::Unreached(node) => put_unreached(node, out),
    }
}

#[tactic(auto, unfolding(crate::specs::Output::unreached_text))]
fn put_unreached(node: &NodeName, out: &mut Bytes) -> Result<(), Memory>
    ensures { OnOk result (out.new ≡ out.old ++ unreached_text node.now) }
{
    out.extend_from_slice(b"refused unreached ")?;
    out.extend_from_slice(node.as_bytes())?;
    Ok(())
}

impl Line for Recorded<'_> {
    ghost use Rattle.top_call.specs.Output.{record_line};

    ghost text = { λ line. record_line (line.name.now, line.it.now) };

    #[tactic(auto, unfolding(crate::specs::Output::record_line))]
    fn put(&self, out: &mut Bytes) -> Result<(), Memory> {
        out.extend_from_slice(b"master ")?;
        put_name_text(self.name.as_bytes(), out)?;
        out.push(b' ')?;
        out.extend_from_slice(state_word(&self.it.state))?;
        out.push(b' ')?;
        put_location(&self.it.place, out)?;
        out.push(b'\n')
    }
}

fn state_word(state: &State) -> &'static [u8]
    ensures { result.now ≡ state_word state.now }
{
    match state {
        State::Bare(_) | State::Kept(_) => b"reserved",
        State::Active(_) => b"active",
    }
}

#[tactic(auto, unfolding(crate::specs::Output::location_text))]
fn put_location(place: &Location, out: &mut Bytes) -> Result<(), Memory>
    ensures { OnOk result (out.new ≡ out.old ++ location_text place.now) }
{
    out.extend_from_slice(place.server.as_bytes())?;
    out.push(b'!')?;
    out.extend_from_slice(place.partition.as_slice())?;
    Ok(())
}

/// `box NAME NODE PHASE UIDVALIDITY UIDNEXT COUNT`, or `box NAME NODE pointer SERVER`. A mailbox whose content is coming in isn't
/// printed.
impl Line for HomeRow {
    ghost use Rattle.top_call.specs.Output.{box_line};

    ghost text = { box_line };

    #[tactic(auto, unfolding(crate::specs::Output::box_line, crate::specs::Output::line_by_phase))]
    fn put(&self, out: &mut Bytes) -> Result<(), Memory> {
        match &self.phase {
            Phase::Receiving => Ok(()),
            Phase::Creating | Phase::Open | Phase::Closing | Phase::Ready | Phase::Pointer(_) => {
                put_row(self, out)
            }
        }
    }
}

#[tactic(auto, unfolding(crate::specs::Output::row_text))]
fn put_row(row: &HomeRow, out: &mut Bytes) -> Result<(), Memory>
    ensures { OnOk result (out.new ≡ out.old ++ row_text row.now) }
{
    out.extend_from_slice(b"box ")?;
    put_name_text(row.name.as_bytes(), out)?;
    out.push(b' ')?;
    out.extend_from_slice(row.backend.as_bytes())?;
    out.push(b' ')?;
    put_phase(row, out)
}

#[tactic(auto, unfolding(crate::specs::Output::phase_text))]
fn put_phase(row: &HomeRow, out: &mut Bytes) -> Result<(), Memory>
    ensures { OnOk result (out.new ≡ out.old ++ phase_text row.now row.now.phase) }
{
    match &row.phase {
        Phase::Creating => put_counts(b"creating", row, out),
        Phase::Open => put_counts(b"open", row, out),
        Phase::Closing => put_counts(b"closing", row, out),
        Phase::Receiving => put_counts(b"receiving", row, out),
        Phase::Ready => put_counts(b"ready", row, out),
        Phase::Pointer(server) => put_pointer(server, out),
    }
}

#[tactic(auto, unfolding(crate::specs::Output::row_counts_text))]
fn put_counts(phase: &[u8], row: &HomeRow, out: &mut Bytes) -> Result<(), Memory>
    ensures { OnOk result (out.new ≡ out.old ++ row_counts_text phase.now row.now) }
{
    out.extend_from_slice(phase)?;
    out.push(b' ')?;
    put_number(u64::from(row.serial), out)?;
    out.push(b' ')?;
    put_number(u64::from(row.next), out)?;
    out.push(b' ')?;
    put_number(row.count, out)?;
    out.push(b'\n')
}

#[tactic(auto, unfolding(crate::specs::Output::pointer_text))]
fn put_pointer(server: &NodeName, out: &mut Bytes) -> Result<(), Memory>
    ensures { OnOk result (out.new ≡ out.old ++ pointer_text server.now) }
{
    out.extend_from_slice(b"pointer ")?;
    out.extend_from_slice(server.as_bytes())?;
    out.push(b'\n')
}

impl Line for End {
    ghost use Rattle.top_call.specs.Output.{end_line};

    ghost text = { λ line. end_line line.steps line.points };

    #[tactic(auto, unfolding(crate::specs::Output::end_line))]
    fn put(&self, out: &mut Bytes) -> Result<(), Memory> {
        out.extend_from_slice(b"end ")?;
        put_number(self.steps, out)?;
        out.push(b' ')?;
        put_number(self.points, out)?;
        out.push(b'\n')
    }
}
