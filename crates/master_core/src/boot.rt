// The master that starts from the entries of its disk.
ghost use Rattle.std.specs.Prelude.{◌≡◌, ℕ, Err, IfOk};
ghost use Rattle.node_record.specs.Table.{empty_table};
ghost use Rattle.master_core.specs.Boot.{IsNoEntry, IsRead, IsBooted, booted};

use crate::master::Master;
use mur_base::{Bytes, Items, Map, NodeName};
use node_record::{RecordFault, Table, apply_master, decode_master};
use std::alloc::Global;

/// The table of a disk with these entries.
fn table_of(alloc: Global, entries: &[Bytes]) -> Result<Table, RecordFault>
    ensures ok { IfOk result (IsRead entries.now) }
    ensures bad { (at : ℕ) → result ≡ Err (RecordFault.Bad at) → IsNoEntry entries.now at }
{
    let mut table = Table::new(alloc);
    for entry in entries {
        match decode_master(alloc, entry.as_slice()) {
            Ok(record) => apply_master(&mut table, record)?,
            Err(fault) => return Err(fault),
        }
    }
    Ok(table)
}

impl Master {
    /// The master whose disk is empty: no record, no stream and no connection. It takes no memory.
    #[tactic(auto, unfolding(crate::specs::Boot::booted))]
    pub fn new(alloc: Global, me: NodeName, backends: Items<NodeName>) -> Master
        ensures { result ≡ booted me backends empty_table }
    {
        Master {
            me,
            backends,
            table: Table::new(alloc),
            streams: Map::new(alloc),
            watchers: Map::new(alloc),
            outside: Map::new(alloc),
        }
    }

    /// The master whose disk has these entries, from the first to the last: their table, no stream and no connection.
    #[tactic(auto, unfolding(crate::specs::Boot::booted))]
    pub fn boot(
        alloc: Global,
        me: NodeName,
        backends: Items<NodeName>,
        entries: &[Bytes],
    ) -> Result<Master, RecordFault>
        ensures ok { IfOk result (λ master. IsBooted me backends entries.now master) }
        ensures bad { (at : ℕ) → result ≡ Err (RecordFault.Bad at) → IsNoEntry entries.now at }
    {
        let table = table_of(alloc, entries)?;
        Ok(Master {
            me,
            backends,
            table,
            streams: Map::new(alloc),
            watchers: Map::new(alloc),
            outside: Map::new(alloc),
        })
    }
}
