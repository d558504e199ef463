// The output of a run, written part by part.
ghost use Rattle.std.specs.Prelude.{OnOk};
ghost use Rattle.std.specs.List.{flat_map};
ghost use Rattle.mur_edge.specs.Counts.{HasHostCause};
ghost use Rattle.mur_edge.specs.Sink.{Took, TookFront};
ghost use Rattle.top_call.specs.Output.{client_lines, given_lines, lines_of, record_line, records_of};
ghost use Rattle.top_call.specs.Writing.{DidPut};

mod lines;

use cluster_core::{Cluster, HomeRows, Points};
use lines::{End, Given, Line, Recorded};
use mur_base::limits::PIECE_LIMIT;
use mur_base::{Bytes, MailName, Map};
use mur_edge::{HostFault, Sink, write_all};
use node_record::Record;
use schedule_text::LineCuts;
use std::alloc::Global;

/// Writes the output of a cluster, whose history and mailboxes are these, a part of about `PIECE_LIMIT` bytes at a time. Where it
/// fails a front of the output is taken.
pub fn write_output<S: Sink>(
    alloc: Global,
    cluster: &Cluster,
    points: &Points,
    rows: &HomeRows,
    sink: &mut S,
) -> Result<(), HostFault>
    ensures all { OnOk result (Took (S.facts sink.old).taken (S.facts sink.new).taken (lines_of cluster.now points.now rows.now)) }
    ensures front { TookFront (S.facts sink.old).taken (S.facts sink.new).taken (lines_of cluster.now points.now rows.now) }
    ensures cause { HasHostCause (S.facts sink.old).faults (S.facts sink.new).faults result }
{
    let mut part = Bytes::new(alloc);
    write_lines(cluster, points, rows, &mut part, sink)?;
    write_all(sink, part.as_slice())?;
    Ok(())
}

/// All lines but what is kept back in `part`.
fn write_lines<S: Sink>(
    cluster: &Cluster,
    points: &Points,
    rows: &HomeRows,
    part: &mut Bytes,
    sink: &mut S,
) -> Result<(), HostFault>
    ensures did { DidPut (S.facts sink.old).taken (S.facts sink.new).taken part.old part.new (lines_of cluster.now points.now rows.now) result }
    ensures cause { HasHostCause (S.facts sink.old).faults (S.facts sink.new).faults result }
{
    write_clients(cluster, part, sink)?;
    write_each(points.as_slice(), part, sink)?;
    write_table(cluster, part, sink)?;
    write_each(rows.as_slice(), part, sink)?;
    let end = End {
        steps: cluster.steps(),
        points: points.len() as u64,
    };
    write_line(&end, part, sink)?;
    Ok(())
}

fn write_clients<S: Sink>(
    cluster: &Cluster,
    part: &mut Bytes,
    sink: &mut S,
) -> Result<(), HostFault>
    ensures did { DidPut (S.facts sink.old).taken (S.facts sink.new).taken part.old part.new (flat_map client_lines cluster.now.world.clients) result }
    ensures cause { HasHostCause (S.facts sink.old).faults (S.facts sink.new).faults result }
{
    for (conn, _) in cluster.world().clients.iter() {
        write_given(*conn, cluster.sent(*conn), part, sink)?;
    }
    Ok(())
}

/// The records of the master's table.
fn write_table<S: Sink>(cluster: &Cluster, part: &mut Bytes, sink: &mut S) -> Result<(), HostFault>
    ensures did { DidPut (S.facts sink.old).taken (S.facts sink.new).taken part.old part.new (flat_map record_line (records_of cluster.now)) result }
    ensures cause { HasHostCause (S.facts sink.old).faults (S.facts sink.new).faults result }
{
    match cluster.table() {
        Some(table) => write_records(table.records(), part, sink),
        None => Ok(()),
    }
}

fn write_records<S: Sink>(
    records: &Map<MailName, Record>,
    part: &mut Bytes,
    sink: &mut S,
) -> Result<(), HostFault>
    ensures did { DidPut (S.facts sink.old).taken (S.facts sink.new).taken part.old part.new (flat_map record_line records.now) result }
    ensures cause { HasHostCause (S.facts sink.old).faults (S.facts sink.new).faults result }
{
    for (name, it) in records.iter() {
        write_line(&Recorded { name, it }, part, sink)?;
    }
    Ok(())
}

fn write_each<L: Line, S: Sink>(
    lines: &[L],
    part: &mut Bytes,
    sink: &mut S,
) -> Result<(), HostFault>
    ensures did { DidPut (S.facts sink.old).taken (S.facts sink.new).taken part.old part.new (flat_map L.text lines.now) result }
    ensures cause { HasHostCause (S.facts sink.old).faults (S.facts sink.new).faults result }
{
    for line in lines {
        write_line(line, part, sink)?;
    }
    Ok(())
}

/// A line is put behind the part, and a part that is large enough is written.
#[tactic(auto, using(crate::proofs::WritingLaws::by_line))]
fn write_line<L: Line, S: Sink>(line: &L, part: &mut Bytes, sink: &mut S) -> Result<(), HostFault>
    ensures did { DidPut (S.facts sink.old).taken (S.facts sink.new).taken part.old part.new (L.text line.now) result }
    ensures cause { HasHostCause (S.facts sink.old).faults (S.facts sink.new).faults result }
{
    line.put(part)?;
    if part.len() < PIECE_LIMIT {
        return Ok(());
    }
    write_all(sink, part.as_slice())?;
    part.clear();
    Ok(())
}

fn write_given<S: Sink>(
    conn: u64,
    given: &[u8],
    part: &mut Bytes,
    sink: &mut S,
) -> Result<(), HostFault>
    ensures did { DidPut (S.facts sink.old).taken (S.facts sink.new).taken part.old part.new (given_lines conn given.now) result }
    ensures cause { HasHostCause (S.facts sink.old).faults (S.facts sink.new).faults result }
{
    for piece in LineCuts::new(given) {
        write_line(&Given { conn, piece }, part, sink)?;
    }
    Ok(())
}
