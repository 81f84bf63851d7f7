//! What the service asks of the program around it.
ghost use Rattle.std.specs.Prelude.{◌≡◌, IfSome, ⊤};
ghost use Rattle.cct_disk.specs.File.{file_faults};
ghost use Rattle.cct_edge.specs.Faults.{Caused};

use cct_advice::advise_line;
use cct_disk::FileDisk;
use cct_live_service::{Beside, Outside};
use cct_model_lines::LineKind;
use std::fs::{self, Files};

/// The program around a service over the journal of this path.
#[derive(Drop)]
pub(crate) struct Around<'r, R> {
    rt: &'r R,
    journal: &'r str,
    /// How often the journal couldn't be opened or read beside the service.
    misses: u64,
}

impl<'r, R: Files + Eprint> Around<'r, R> {
    /// Around a service over the journal of a path.
    pub(crate) fn new(rt: &'r R, journal: &'r str) -> Around<'r, R> {
        Around {
            rt,
            journal,
            misses: 0,
        }
    }

    /// The disk of the journal once more, to be read alone; none where its file is gone.
    fn open_again(&self) -> Option<FileDisk<R>>
        ensures { IfSome result (λ disk. file_faults disk ≡ 0) }
    {
        // A disk over a file that is gone would make it anew.
        match fs::metadata(self.rt, self.journal) {
            Ok(_) => Some(FileDisk::open_file(self.rt, self.journal)),
            Err(_) => None,
        }
    }

    /// Counts one miss more.
    fn miss(&mut self)
        ensures { Caused self.old.misses self.new.misses ⊤ }
    {
        self.misses = self.misses.saturating_add(1);
    }
}

impl<R: Files + Eprint> Outside for Around<'_, R> {
    ghost misses = { λ around. around.misses };

    // Of standard error no clause says what it shows.
    ghost heard = { λ around refusals. ⊤ };

    fn refused(&mut self, number: u32, kind: LineKind, line: &[u8]) {
        let _ = self.rt.eprintln(advise_line(number, kind, line));
    }
}

impl<R: Files + Eprint> Beside<FileDisk<R>> for Around<'_, R> {
    fn beside(&mut self, _: &FileDisk<R>) -> Option<FileDisk<R>> {
        let disk = self.open_again();
        if disk.is_none() {
            self.miss();
        }
        disk
    }

    fn failed(&mut self, _: FileDisk<R>) {
        self.miss();
    }
}
