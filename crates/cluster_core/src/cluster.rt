// The cluster as one value.
ghost use Rattle.std.specs.Prelude.{◌≡◌, ◌≤◌, List, length, IfOk, OnOk};
ghost use Rattle.std.specs.Option.{option_copied, option_map};
ghost use Rattle.master_core.specs.declared.master.Master.{Master};
ghost use Rattle.mur_config.specs.declared.config.Config.{Config};
ghost use Rattle.imap_command.specs.Ruled.{IsDate};
ghost use Rattle.mur_config.specs.Nodes.{AreNodes};
ghost use Rattle.schedule_text.specs.declared.event.Event.{Event};
ghost use Rattle.schedule_text.specs.Brings.{most_links};
ghost use Rattle.schedule_text.specs.ScheduleFits.{HasCountRoom};
ghost use Rattle.cluster_core.specs.Headline.AtRest.{NothingWaitsBehind};
ghost use Rattle.cluster_core.specs.Flow.{happens, ran, run_steps, steps_of_event, steps_of_run};
ghost use Rattle.cluster_core.specs.Headline.FlowLaw.{AreItsSteps};
ghost use Rattle.cluster_core.specs.Headline.{IsOneServer};
ghost use Rattle.cluster_core.specs.History.{history_of};
ghost use Rattle.cluster_core.specs.Headline.OneNode.{OneNodeWorksEach, ServesItsOwnBehind};
ghost use Rattle.cluster_core.specs.Numbers.{NumbersFitAll};
ghost use Rattle.cluster_core.specs.Room.{HasRoom};
ghost use Rattle.cluster_core.specs.Shown.{given_to, home_rows};
ghost use Rattle.cluster_core.specs.World.{begun, master_at};

use crate::happens::happens;
use crate::history::history;
use crate::homes::home_rows;
use crate::layout::Layout;
use crate::start::{dated, start};
use crate::world::World;
use mark_history::Points;
use mur_base::{Items, MailName, Memory, NodeName, Phase};
use mur_config::Config;
use node_record::Table;
use schedule_text::{Event, Events};
use std::alloc::Global;
use std::marker::Model;

/// A mailbox as one node has it.
#[derive(Drop)]
pub struct HomeRow {
    pub name: MailName,
    pub backend: NodeName,
    pub phase: Phase,
    /// UIDVALIDITY.
    pub serial: u32,
    /// UIDNEXT.
    pub next: u32,
    /// How many messages.
    pub count: u64,
}

/// The mailboxes of all nodes, in byte order of their names.
pub type HomeRows = Items<HomeRow>;

/// The cluster, which takes one event at a time. Contracts see it as its layout and its world.
#[derive(Drop)]
pub struct Cluster {
    alloc: Global,
    layout: Layout,
    world: World,
}

impl Model for Cluster {
    ghost use Rattle.cluster_core.specs.World.{ClusterState};
    ghost use Rattle.mail_message.specs.contracts.key.Key as key;
    ghost use Rattle.std.specs.Coded.{codes};

    ghost Value = { ClusterState };

    ghost coded = { Prim.hlevel (codes, key.the_row.coded) };

    ghost view = { λ cluster. record { layout = cluster.layout; world = cluster.world } };
}

impl Cluster {
    /// The cluster before its first event.
    pub fn new(alloc: Global, config: &Config) -> Result<Cluster, Memory>
        ensures start { IfOk result (λ cluster. cluster ≡ begun config.now) }
        ensures nodes { AreNodes config.now.nodes }
        ensures date { IsDate config.now.date }
    {
        dated(config);
        let layout = Layout::new(alloc, config)?;
        let world = start(alloc, config, &layout)?;
        Ok(Cluster {
            alloc,
            layout,
            world,
        })
    }

    /// Takes one event, in single steps, in each of which one node works, for its own clients alone. For want of memory the cluster is spent: drop it.
    #[tactic(auto, using(crate::proofs::Runs::Unrolled::event_made))]
    pub fn step(&mut self, event: Event) -> Result<(), Memory>
        requires room { HasRoom self.old.world event }
        requires links { length self.old.layout.pairs ≤ most_links }
        ensures event { OnOk result (self.new ≡ record self.old { world = happens self.old.layout self.old.world event }) }
        ensures steps { OnOk result (self.new.world ≡ run_steps self.old.world (steps_of_event self.old.layout self.old.world event)) }
        ensures its_steps { AreItsSteps self.old.layout self.old.world event }
        ensures one_node { OneNodeWorksEach self.old.world (steps_of_event self.old.layout self.old.world event) }
        ensures own_clients { ServesItsOwnBehind self.old.layout self.old.world event }
        ensures at_rest { NothingWaitsBehind self.old.layout self.old.world event }
    {
        happens(self.alloc, &self.layout, &mut self.world, event)
    }

    /// The world at this moment.
    pub fn world(&self) -> &World
        ensures { result.now ≡ self.now.world }
    {
        &self.world
    }

    /// How many steps were taken.
    pub fn steps(&self) -> u64
        ensures { result ≡ self.now.world.steps }
    {
        self.world.steps
    }

    /// The history so far.
    pub fn history(&self, alloc: Global) -> Result<Points, Memory>
        ensures { IfOk result (λ points. points ≡ history_of self.now.world) }
    {
        history(alloc, &self.world)
    }

    /// The bytes given to the client of a connection so far; none where there is no such connection.
    #[tactic(auto, unfolding(crate::specs::Shown::given_to))]
    pub fn sent(&self, conn: u64) -> &[u8]
        ensures { result.now ≡ given_to self.now.world conn }
    {
        match self.world.clients.get(&conn) {
            Some(client) => client.given.as_slice(),
            None => &[],
        }
    }

    /// The table of the master.
    pub fn table(&self) -> Option<&Table>
        ensures { option_copied result ≡ option_map (λ (master : Master). master.table) (master_at self.now.world self.now.layout.master) }
    {
        self.world.table(&self.layout.master)
    }

    /// The mailboxes of all nodes.
    pub fn homes(&self, alloc: Global) -> Result<HomeRows, Memory>
        ensures { IfOk result (λ rows. rows ≡ home_rows self.now.layout self.now.world) }
    {
        home_rows(alloc, &self.layout, &self.world)
    }
}

/// Runs the events one after another from the start. Each event is let go once it was taken. The headline holds of the run.
pub fn run(alloc: Global, config: &Config, events: Events) -> Result<Cluster, Memory>
    requires { HasCountRoom events }
    ensures ran { IfOk result (λ cluster. cluster ≡ ran config.now events) }
    ensures one_server { IsOneServer config.now events }
{
    let mut cluster = Cluster::new(alloc, config)?;
    for event in events.into_vec() {
        cluster.step(event)?;
    }
    Ok(cluster)
}

/// The headline as a law of its own: it holds of every configuration and of all events in which connections have numbers of 64 bits and no client sends
/// 2^32 bytes. The call does nothing.
pub fn headline()
    ensures { (config : Config) (events : List Event) → AreNodes config.nodes → IsDate config.date
        → NumbersFitAll config (steps_of_run config events) → IsOneServer config events }
{}
