// The device calls until a disk stops.
ghost use Rattle.std.specs.Prelude.{◌≡◌, IsFalse, MatchResult};
ghost use Rattle.mur_base.specs.Counts.{Rose};
ghost use Rattle.mur_disk.specs.Countdowns.{Passes, StopsInside};
ghost use Rattle.mur_disk.specs.declared.fault.DiskFault.TheVariants.{Failed};

use crate::fault::DiskFault;

/// How many device calls a disk still carries out, whether it has stopped, and how often it has failed.
#[derive(Drop)]
pub struct Countdown {
    pub left: u64,
    pub stopped: bool,
    pub faults: u64,
}

/// The disk has stopped.
#[derive(Clone, Copy)]
pub(crate) struct Stopped;

impl Countdown {
    // Counts a failed call.
    pub(crate) fn fail(&mut self)
        ensures counted { Rose self.old.faults self.new.faults }
        ensures left { self.new.left ≡ self.old.left }
        ensures stopped { self.new.stopped ≡ self.old.stopped }
    {
        self.faults = self.faults.saturating_add(1);
    }

    // Counts a device call: where none is left, the disk stops inside this one.
    pub(crate) fn count(&mut self) -> Result<(), Stopped>
        requires { IsFalse self.old.stopped }
        ensures counts { MatchResult result (λ _. Passes self.old self.new) (λ _. StopsInside self.old self.new) }
        ensures faults { MatchResult result (λ _. self.new.faults ≡ self.old.faults) (λ _. Rose self.old.faults self.new.faults) }
    {
        match self.left.checked_sub(1) {
            Some(left) => {
                self.left = left;
                Ok(())
            }
            None => {
                self.stopped = true;
                self.fail();
                Err(Stopped)
            }
        }
    }
}

impl From<Stopped> for DiskFault {
    ghost from_gives = { λ _ fault. fault ≡ Failed };

    fn from(_stopped: Stopped) -> DiskFault {
        DiskFault::Failed
    }
}
