//! The devices of a machine, as the lines of a setup say them.
ghost use Rattle.cct_model.specs.Setup.{IsSoundSetup};
ghost use Rattle.cct_journal_carry.specs.Sound.{IsSoundSetup-prop};

use crate::codes::{BAD_SETUP, NO_MEMORY};
use cct_edge::MemSource;
use cct_model_lines::Setup;
use cct_script::{SetupNo, read_setup};
use std::alloc::Global;

/// So many bytes of a text are taken at once.
const PIECE: usize = 4096;

/// A setup that is sound.
#[derive(Drop)]
pub struct Machine {
    pub(crate) setup: Setup,
    ghost sound: { IsSoundSetup setup } by { IsSoundSetup-prop setup },
}

impl Machine {
    /// The machine that a text of setup lines says; else what a call answers, with the number of
    /// the line that is refused.
    pub(crate) fn read(alloc: Global, text: &[u8], line: &mut u32) -> Result<Machine, u32> {
        let Ok(text) = text.to_vec(alloc) else {
            return Err(NO_MEMORY);
        };
        let mut source = MemSource::new(text, PIECE, Vec::new(alloc));
        match read_setup(&mut source) {
            Ok(setup) => Ok(Machine { setup }),
            Err(SetupNo::Line { number, .. }) => {
                *line = number;
                Err(BAD_SETUP)
            }
            Err(SetupNo::Read) => Err(BAD_SETUP),
        }
    }
}
