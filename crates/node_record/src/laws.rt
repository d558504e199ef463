// What holds of entries, whoever reads them.
ghost use Rattle.std.specs.Prelude.{◌≡◌, ℕ, List};
ghost use Rattle.node_record.specs.declared.master.MasterRecord.{MasterRecord};
ghost use Rattle.node_record.specs.declared.backend.BackendRecord.{BackendRecord};
ghost use Rattle.node_record.specs.MasterEntries.{master_entry};
ghost use Rattle.node_record.specs.BackendEntries.{backend_entry};
ghost use Rattle.node_record.specs.Ruled.{IsMasterRecord, IsBackendRecord};
ghost use Rattle.node_record.specs.Stored.{IsStored};

/// Bytes are one entry of the master.
pub fn a_master_entry_is_one_record()
    ensures { (bytes : List ℕ) (it other : MasterRecord) → IsStored IsMasterRecord master_entry bytes it
        → IsStored IsMasterRecord master_entry bytes other → it ≡ other }
{}

/// Bytes are one entry of a backend.
pub fn a_backend_entry_is_one_record()
    ensures { (bytes : List ℕ) (it other : BackendRecord) → IsStored IsBackendRecord backend_entry bytes it
        → IsStored IsBackendRecord backend_entry bytes other → it ≡ other }
{}
