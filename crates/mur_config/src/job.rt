// What the words of a call ask for.
use mur_base::Bytes;

/// The greatest size of a drill.
pub const DRILL_LIMIT: u32 = 9_999;

/// A job of the program.
#[derive(Drop)]
pub enum Job {
    /// `replay CONFIG SCHEDULE`: a schedule of a file is run on the cluster of a configuration. Both are names of files.
    Replay(Bytes, Bytes),
    /// `drill NUMBER SIZE`: a schedule that is made from a number is run. The size is 1 to `DRILL_LIMIT`.
    Drill(u64, u32),
}
