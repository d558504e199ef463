// The line of counts that a drill prints.
ghost use Rattle.std.specs.Prelude.{◌≡◌, ◌++◌, OnOk};
ghost use Rattle.drill_gen.specs.Summary.{field_text, run_text, lines_text, summary_line};

use mur_base::{Bytes, Memory, put_number};

/// `drill NUMBER SIZE steps S points P ok A no B bad C bye D boxes E`.
#[derive(Clone, Copy, Debug, PartialEq, Eq, Drop)]
pub struct Summary {
    pub number: u64,
    pub size: u32,
    pub steps: u64,
    pub points: u64,
    /// Commands that were answered OK, NO and BAD.
    pub ok: u64,
    pub no: u64,
    pub bad: u64,
    /// Lines that end a connection.
    pub bye: u64,
    /// Mailboxes that take changes.
    pub boxes: u64,
}

impl Summary {
    /// Writes the line, with its LF, behind what is there.
    #[tactic(auto, unfolding(crate::specs::Summary::summary_line))]
    pub fn put(&self, out: &mut Bytes) -> Result<(), Memory>
        ensures { OnOk result (out.new ≡ out.old ++ summary_line self.now) }
    {
        put_run(self, out)?;
        put_lines(self, out)
    }
}

// The drill, its steps and its points.
#[tactic(auto, unfolding(crate::specs::Summary::run_text))]
fn put_run(summary: &Summary, out: &mut Bytes) -> Result<(), Memory>
    ensures { OnOk result (out.new ≡ out.old ++ run_text summary.now) }
{
    put_field(b"drill ", summary.number, out)?;
    put_field(b" ", u64::from(summary.size), out)?;
    put_field(b" steps ", summary.steps, out)?;
    put_field(b" points ", summary.points, out)
}

// What clients were told, and the mailboxes.
#[tactic(auto, unfolding(crate::specs::Summary::lines_text))]
fn put_lines(summary: &Summary, out: &mut Bytes) -> Result<(), Memory>
    ensures { OnOk result (out.new ≡ out.old ++ lines_text summary.now) }
{
    put_field(b" ok ", summary.ok, out)?;
    put_field(b" no ", summary.no, out)?;
    put_field(b" bad ", summary.bad, out)?;
    put_field(b" bye ", summary.bye, out)?;
    put_field(b" boxes ", summary.boxes, out)?;
    out.push(b'\n')
}

#[tactic(auto, unfolding(crate::specs::Summary::field_text))]
fn put_field(word: &[u8], count: u64, out: &mut Bytes) -> Result<(), Memory>
    ensures { OnOk result (out.new ≡ out.old ++ field_text word.now count) }
{
    out.extend_from_slice(word)?;
    put_number(count, out)
}
