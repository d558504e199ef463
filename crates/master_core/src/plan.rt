// A step of the master that was carried out in memory.
ghost use Rattle.std.specs.Prelude.{◌≡◌, [], None};

use link_msg::Outs;
use node_record::MasterRecord;
use std::alloc::Global;

/// A step that was carried out in memory, until its outputs are handed out.
#[derive(Drop)]
pub struct MasterPlan {
    /// The entry that the disk gets before the outputs go out.
    pub entry: Option<MasterRecord>,
    pub out: Outs,
}

impl MasterPlan {
    /// Nothing was changed, and nothing goes out. It takes no memory.
    pub fn nothing(alloc: Global) -> MasterPlan
        ensures { result ≡ record { entry = None; out = [] } }
    {
        MasterPlan {
            entry: None,
            out: Outs::new(alloc),
        }
    }
}
