// `replay CONFIG SCHEDULE`: reads both files, runs the cluster and writes the text of the run.
ghost use Rattle.std.specs.Prelude.{◌≡◌, IfOk};
ghost use Rattle.cluster_core.specs.Flow.{run_of};
ghost use Rattle.cluster_core.specs.Headline.{IsOneServer};
ghost use Rattle.cluster_core.specs.World.{layout_of};
ghost use Rattle.schedule_text.specs.ScheduleFits.{HasCountRoom};
ghost use Rattle.top_call.specs.Output.{lines_of, output_of};
ghost use Rattle.top_call.specs.ReadBack.{TellsRun};
ghost use Rattle.top_call.specs.Replay.{DidReadConfig, DidReadSchedule, EndsWriting, DidReplay, replay_text};
ghost use Rattle.top_call.specs.Status.{CountsStatus, CountsFile};
ghost use Rattle.mur_config.specs.Rules.{config_rule_number as config_rule};
ghost use Rattle.top_call.specs.declared.status.Status.TheVariants.{Schedule};
ghost use Rattle.schedule_text.specs.ScheduleRules.{schedule_rule_number};

use crate::file::read_file;
use crate::output::write_output;
use crate::status::Status;
use cluster_core::{Cluster, HomeRows, Points, run};
use mur_base::limits::SCHEDULE_LIMIT;
use mur_config::{CONFIG_LIMIT, Config, ConfigError, ConfigFault, read_config};
use mur_edge::{Host, HostFault, Used};
use schedule_text::{Events, SchedFault, ScheduleError, read_schedule};
use std::alloc::Global;

/// Runs the schedule of a file on the cluster of another file, and writes what clients were given and the history.
pub fn replay<H: Host>(
    alloc: Global,
    host: &mut H,
    config_name: &[u8],
    schedule_name: &[u8],
) -> Status
    ensures did { DidReplay (record { config = config_name.now; schedule = schedule_name.now }) (H.facts host.old) (H.facts host.new) result }
    ensures counts { CountsStatus result (H.facts host.old).faults (H.facts host.new).faults }
{
    let config = match configuration(alloc, host, config_name) {
        Ok(config) => config,
        Err(status) => return status,
    };
    let events = match schedule(alloc, host, schedule_name, &config) {
        Ok(events) => events,
        Err(status) => return status,
    };
    write_run(alloc, host, config, events)
}

// The configuration of a file, or how the call ends. Memory for a longer text than `CONFIG_LIMIT` is never asked for.
fn configuration<H: Host>(alloc: Global, host: &mut H, name: &[u8]) -> Result<Config, Status>
    ensures did { DidReadConfig name.now (H.facts host.old) (H.facts host.new) result }
    ensures counts { CountsFile result (H.facts host.old).faults (H.facts host.new).faults }
{
    let text = match read_file(alloc, host, name, CONFIG_LIMIT) {
        Ok(text) => text,
        Err(HostFault::Failed) => return Err(Status::Read),
        Err(HostFault::Memory) => return Err(Status::Memory),
    };
    if text.len() > CONFIG_LIMIT {
        return Err(Status::Memory);
    }
    match read_config(alloc, text.as_slice()) {
        Ok(config) => Ok(config),
        Err(ConfigError::Refused(fault)) => Err(refused_config(fault)),
        Err(ConfigError::Memory) => Err(Status::Memory),
    }
}

// How a call ends whose configuration is refused.
fn refused_config(fault: ConfigFault) -> Status
    ensures { result ≡ Status.Config (config_rule fault) }
{
    Status::Config {
        rule: fault.number(),
    }
}

// The events of a file, whose bytes are let go, or how the call ends.
fn schedule<H: Host>(
    alloc: Global,
    host: &mut H,
    name: &[u8],
    config: &Config,
) -> Result<Events, Status>
    ensures did { DidReadSchedule config.now name.now (H.facts host.old) (H.facts host.new) result }
    ensures room { IfOk result (λ events. HasCountRoom events) }
    ensures counts { CountsFile result (H.facts host.old).faults (H.facts host.new).faults }
{
    let text = match read_file(alloc, host, name, SCHEDULE_LIMIT) {
        Ok(text) => text,
        Err(HostFault::Failed) => return Err(Status::Read),
        Err(HostFault::Memory) => return Err(Status::Memory),
    };
    match read_schedule(alloc, text.as_slice(), config) {
        Ok(events) => Ok(events),
        Err(ScheduleError::Refused(fault)) => Err(refused(fault)),
        Err(ScheduleError::Memory) => Err(Status::Memory),
    }
}

// How a call ends whose schedule is refused.
fn refused(fault: SchedFault) -> Status
    ensures { result ≡ Schedule fault.line (schedule_rule_number fault.why) }
{
    Status::Schedule {
        line: fault.line,
        rule: fault.why.number(),
    }
}

// Runs the events and writes the text of the run.
#[tactic(auto, using(crate::proofs::ReadBackLaw::by_reading))]
fn write_run<H: Host>(alloc: Global, host: &mut H, config: Config, events: Events) -> Status
    requires room { HasCountRoom events }
    ensures one_server { IsOneServer config events }
    ensures tells { TellsRun (replay_text config events) (layout_of config) (run_of config events) }
    ensures did { EndsWriting (replay_text config events) (H.facts host.old) (H.facts host.new) result }
    ensures counts { CountsStatus result (H.facts host.old).faults (H.facts host.new).faults }
{
    // The nodes are those of a configuration, which their type keeps.
    let _nodes = config.nodes.as_slice();
    match run(alloc, &config, events) {
        Ok(cluster) => write_cluster(alloc, host, &cluster),
        Err(_) => Status::Memory,
    }
}

// Writes what clients were given, the history and the mailboxes of a cluster.
#[tactic(auto, unfolding(crate::specs::Output::output_of))]
fn write_cluster<H: Host>(alloc: Global, host: &mut H, cluster: &Cluster) -> Status
    ensures did { EndsWriting (output_of cluster.now) (H.facts host.old) (H.facts host.new) result }
    ensures counts { CountsStatus result (H.facts host.old).faults (H.facts host.new).faults }
{
    let Ok(points) = cluster.history(alloc) else {
        return Status::Memory;
    };
    let Ok(rows) = cluster.homes(alloc) else {
        return Status::Memory;
    };
    write_text(alloc, host, cluster, &points, &rows)
}

// Writes the text of a run whose history and mailboxes are these.
fn write_text<H: Host>(
    alloc: Global,
    host: &mut H,
    cluster: &Cluster,
    points: &Points,
    rows: &HomeRows,
) -> Status
    ensures did { EndsWriting (lines_of cluster.now points.now rows.now) (H.facts host.old) (H.facts host.new) result }
    ensures counts { CountsStatus result (H.facts host.old).faults (H.facts host.new).faults }
{
    let mut out = match host.out() {
        Ok(out) => out,
        Err(HostFault::Failed) => return Status::Write,
        Err(HostFault::Memory) => return Status::Memory,
    };
    let written = write_output(alloc, cluster, points, rows, &mut out);
    host.back(Used::Out(out));
    match written {
        Ok(()) => Status::Done,
        Err(HostFault::Failed) => Status::Write,
        Err(HostFault::Memory) => Status::Memory,
    }
}
