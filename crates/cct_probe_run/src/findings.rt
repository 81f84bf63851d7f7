//! What was found of each premise at each device.

use crate::bench::Stop;
use arrayvec::ArrayVec;
use cct_probe_plan::Premise;

/// The most findings: of each premise, at each device of a setup and of the line.
pub(crate) const MOST_FOUND: usize = 1024;

/// What is found of a premise.
#[derive(Clone, Copy, Default, PartialEq, Eq)]
pub(crate) enum Standing {
    /// Each trial of it was done and kept it.
    #[default]
    Kept,
    /// Some trial of it wasn't done; this is why the first one wasn't.
    Untried(Why),
    /// Some trial showed it broken.
    Broken,
}

/// Why a trial isn't done.
#[derive(Clone, Copy, PartialEq, Eq)]
pub(crate) enum Why {
    /// The device doesn't answer.
    Absent,
    /// It orders more coins than may be ordered.
    Coins,
    /// It needs a person.
    Hands,
    /// It needs a person for long.
    Long,
    /// The person skipped it.
    Skipped,
    /// An exchange of it wasn't answered as it has to be, which another premise is for.
    Silent,
}

impl Why {
    /// The word by which it is reported.
    pub(crate) fn word(self) -> &'static [u8] {
        match self {
            Why::Absent => b"absent",
            Why::Coins => b"coins",
            Why::Hands => b"hands",
            Why::Long => b"long",
            Why::Skipped => b"skipped",
            Why::Silent => b"silent",
        }
    }
}

/// What is found of a premise at a device.
#[derive(Clone, Copy, Default)]
pub(crate) struct Finding {
    pub(crate) addr: u8,
    pub(crate) premise: Premise,
    pub(crate) standing: Standing,
}

/// All that was found, in the order in which each premise was first tried.
#[derive(Drop)]
pub(crate) struct Findings {
    found: ArrayVec<Finding, MOST_FOUND>,
}

impl Findings {
    /// Nothing.
    pub(crate) fn new() -> Findings {
        Findings {
            found: ArrayVec::new(),
        }
    }

    /// All of them.
    pub(crate) fn as_slice(&self) -> &[Finding] {
        self.found.as_slice()
    }

    /// Whether a premise is shown broken at a device.
    pub(crate) fn is_broken(&self, addr: u8, premise: Premise) -> bool {
        self.found.as_slice().iter().any(|found| {
            found.addr == addr && found.premise == premise && found.standing == Standing::Broken
        })
    }

    /// One trial more found this of a premise at a device.
    pub(crate) fn note(
        &mut self,
        addr: u8,
        premise: Premise,
        standing: Standing,
    ) -> Result<(), Stop> {
        for found in self.found.as_mut_slice().iter_mut() {
            if found.addr == addr && found.premise == premise {
                found.standing = both(found.standing, standing);
                return Ok(());
            }
        }
        if self.found.is_full() {
            return Err(Stop::Full);
        }
        self.found.push(Finding {
            addr,
            premise,
            standing,
        });
        Ok(())
    }
}

/// What two trials find together.
fn both(before: Standing, now: Standing) -> Standing {
    match (before, now) {
        (Standing::Broken, _) | (_, Standing::Broken) => Standing::Broken,
        (Standing::Untried(why), _) => Standing::Untried(why),
        (Standing::Kept, now) => now,
    }
}
