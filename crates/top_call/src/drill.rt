// `drill NUMBER SIZE`: runs the schedule that a number makes, and writes the line of its counts.
ghost use Rattle.std.specs.Prelude.{◌≡◌, ◌≤◌, IfOk, Some, length};
ghost use Rattle.std.specs.List.{filter, flat_map};
ghost use Rattle.drill_gen.specs.Drill.{drill_events};
ghost use Rattle.drill_gen.specs.DrillCluster.{drill_config};
ghost use Rattle.drill_gen.specs.Summary.{summary_line};
ghost use Rattle.mur_config.specs.declared.job.Job.TheVariants.{Drill};
ghost use Rattle.schedule_text.specs.ScheduleFits.{HasCountRoom};
ghost use Rattle.top_call.specs.Drill.{DidDrill, client_kinds, is_open_row, summary_of};
ghost use Rattle.top_call.specs.Replay.{EndsWriting};
ghost use Rattle.top_call.specs.Status.{CountsStatus};
ghost use Rattle.top_call.specs.TopCall.{DidWords};

use crate::status::Status;
use cluster_core::{Client, Cluster, HomeRow, run};
use drill_gen::{LineKind, Summary, count_of, put_kinds};
use mur_base::{Bytes, Items, Map, Memory, Phase};
use mur_config::Config;
use mur_edge::{Host, HostFault, Used, write_all};
use schedule_text::Events;
use std::alloc::Global;

/// Runs the drill of a number and a size, which is 1 to 9,999, and writes its line.
pub fn drill<H: Host>(alloc: Global, host: &mut H, number: u64, size: u32) -> Status
    requires some { 1 ≤ size }
    requires few { size ≤ 9999 }
    ensures did { DidWords (Some (Drill number size)) (H.facts host.old) (H.facts host.new) result }
    ensures counts { CountsStatus result (H.facts host.old).faults (H.facts host.new).faults }
{
    match drill_gen::drill(alloc, number, size) {
        Ok((config, events)) => write_drill(alloc, host, number, size, config, events),
        Err(_) => Status::Memory,
    }
}

// Runs the events of a drill, and writes the line of the run.
fn write_drill<H: Host>(
    alloc: Global,
    host: &mut H,
    number: u64,
    size: u32,
    config: Config,
    events: Events,
) -> Status
    requires cluster { config ≡ drill_config }
    requires events { events ≡ drill_events number size }
    requires room { HasCountRoom events }
    ensures did { DidDrill number size (H.facts host.old) (H.facts host.new) result }
    ensures counts { CountsStatus result (H.facts host.old).faults (H.facts host.new).faults }
{
    match run(alloc, &config, events) {
        Ok(cluster) => write_counts(alloc, host, number, size, &cluster),
        Err(_) => Status::Memory,
    }
}

// Writes the line of counts of a cluster.
fn write_counts<H: Host>(
    alloc: Global,
    host: &mut H,
    number: u64,
    size: u32,
    cluster: &Cluster,
) -> Status
    ensures did { EndsWriting (summary_line (summary_of number size cluster.now)) (H.facts host.old) (H.facts host.new) result }
    ensures counts { CountsStatus result (H.facts host.old).faults (H.facts host.new).faults }
{
    match line(alloc, number, size, cluster) {
        Ok(line) => write_line(host, line.as_slice()),
        Err(Memory) => Status::Memory,
    }
}

fn line(alloc: Global, number: u64, size: u32, cluster: &Cluster) -> Result<Bytes, Memory>
    ensures { IfOk result (λ line. line ≡ summary_line (summary_of number size cluster.now)) }
{
    let mut line = Bytes::new(alloc);
    summary(alloc, number, size, cluster)?.put(&mut line)?;
    Ok(line)
}

#[tactic(auto, unfolding(crate::specs::Drill::summary_of, crate::specs::Drill::kinds_given))]
fn summary(alloc: Global, number: u64, size: u32, cluster: &Cluster) -> Result<Summary, Memory>
    ensures { IfOk result (λ summary. summary ≡ summary_of number size cluster.now) }
{
    let points = cluster.history(alloc)?;
    let rows = cluster.homes(alloc)?;
    let kinds = kinds_given(alloc, &cluster.world().clients)?;
    Ok(Summary {
        number,
        size,
        steps: cluster.steps(),
        points: points.len() as u64,
        ok: count_of(LineKind::Ok, kinds.as_slice()),
        no: count_of(LineKind::No, kinds.as_slice()),
        bad: count_of(LineKind::Bad, kinds.as_slice()),
        bye: count_of(LineKind::Bye, kinds.as_slice()),
        boxes: open_boxes(rows.as_slice()),
    })
}

// What each line tells that a client was given, in the order of connections.
fn kinds_given(alloc: Global, clients: &Map<u64, Client>) -> Result<Items<LineKind>, Memory>
    ensures { IfOk result (λ kinds. kinds ≡ flat_map client_kinds clients.now) }
{
    let mut kinds = Items::new(alloc);
    for (_, client) in clients.iter() {
        put_kinds(client.given.as_slice(), &mut kinds)?;
    }
    Ok(kinds)
}

fn open_boxes(rows: &[HomeRow]) -> u64
    ensures { result ≡ length (filter is_open_row rows.now) }
{
    rows.iter().filter(|row| is_open_row(row)).count() as u64
}

fn is_open_row(row: &HomeRow) -> bool
    ensures { result ≡ is_open_row row.now }
{
    matches!(row.phase, Phase::Open)
}

// Writes a line to the output.
fn write_line<H: Host>(host: &mut H, line: &[u8]) -> Status
    ensures did { EndsWriting line.now (H.facts host.old) (H.facts host.new) result }
    ensures counts { CountsStatus result (H.facts host.old).faults (H.facts host.new).faults }
{
    let mut out = match host.out() {
        Ok(out) => out,
        Err(HostFault::Failed) => return Status::Write,
        Err(HostFault::Memory) => return Status::Memory,
    };
    let written = write_all(&mut out, line);
    host.back(Used::Out(out));
    match written {
        Ok(()) => Status::Done,
        Err(_) => Status::Write,
    }
}
