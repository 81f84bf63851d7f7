// How often a disk was called, which of its calls fail, and how often one failed.
ghost use Rattle.std.specs.Prelude.{◌≡◌, ◌↔◌, ◌≤◌, IsErr, OnOk, OnErr};
ghost use Rattle.cct_edge.specs.Faults.{next_count};
ghost use Rattle.cct_edge.specs.Memory.{FailsNext};

use cct_edge::Failed;

// Counts one more fault, and gives the error that shows it.
pub(crate) fn count_fault(faults: &mut u64) -> Failed
    ensures counted { faults.new ≡ next_count faults.old }
    ensures later { faults.old ≤ faults.new }
{
    *faults = faults.saturating_add(1);
    Failed
}

// The calls that fail, by their numbers, and how many calls and faults there were.
#[derive(Drop)]
pub(crate) struct Calls {
    fails: Vec<u64>,
    made: u64,
    faults: u64,
}

impl Calls {
    pub(crate) fn new(fails: Vec<u64>) -> Self
        ensures { result ≡ record { fails = fails; made = 0; faults = 0 } }
    {
        Calls {
            fails,
            made: 0,
            faults: 0,
        }
    }

    // Counts one more call, which fails where its number is one of those.
    pub(crate) fn begin(&mut self) -> Result<(), Failed>
        ensures fails { IsErr result ↔ FailsNext self.old.fails.items self.old.made }
        ensures begun { OnOk result (self.new ≡ record self.old { made = next_count self.old.made }) }
        ensures failed { OnErr result (self.new ≡ record self.old {
          made = next_count self.old.made;
          faults = next_count self.old.faults;
        }) }
    {
        self.made = self.made.saturating_add(1);
        if self.fails.contains(&self.made) {
            return Err(self.fail());
        }
        Ok(())
    }

    // Counts one more fault.
    pub(crate) fn fail(&mut self) -> Failed
        ensures { self.new ≡ record self.old { faults = next_count self.old.faults } }
    {
        count_fault(&mut self.faults)
    }
}
