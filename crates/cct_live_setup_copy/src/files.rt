//! The file of the setup that is beside a journal.
ghost use Rattle.std.specs.Prelude.{IfOk, IfSome};
ghost use Rattle.cct_model_lines.specs.Setup.{IsSoundSetup};

use crate::difference::first_difference;
use crate::reading::read_copy;
use crate::writing::write_setup;
use cct_edge::{StdSink, StdSource};
use cct_model_lines::{LineKind, Setup};
use cct_script::SetupNo;
use std::alloc::{AllocError, Global};
use std::fs;
use std::fs::{File, Files, OpenFile};
use std::io::ErrorKind;

/// Why the setup beside a journal can't be had, or can't be kept.
#[derive(Clone, Copy, Debug, PartialEq, Eq)]
pub enum CopyNo {
    /// The file can't be opened or read.
    Unread,
    /// The file is no setup that was written whole: the line of this number is refused.
    Torn { number: u32, kind: LineKind },
    /// The file can't be made, written, synced, read back as it was written, or renamed, or its
    /// folder can't be synced.
    Unwritten,
}

/// The names of the files beside a journal.
#[derive(Drop)]
pub struct CopyNames {
    /// `JOURNAL.setup`: the setup that the journal was made for.
    kept: String,
    /// `JOURNAL.setup.new`, which is renamed once it is whole.
    fresh: String,
    /// `JOURNAL.setup.new` is in it.
    folder: String,
}

impl CopyNames {
    /// Those beside the journal of a path.
    pub fn beside(alloc: Global, journal: &str) -> Result<CopyNames, AllocError> {
        Ok(CopyNames {
            kept: format!(in alloc; "{journal}.setup")?,
            fresh: format!(in alloc; "{journal}.setup.new")?,
            folder: String::from_str(alloc, folder_of(journal))?,
        })
    }

    /// `JOURNAL.setup`
    pub fn kept(&self) -> &str {
        self.kept.as_str()
    }

    /// The setup that is kept; `None` where there is no file, or an empty one.
    pub fn find<R: Files>(&self, rt: &R) -> Result<Option<Setup>, CopyNo>
        ensures sound { IfOk result (λ found. IfSome found IsSoundSetup) }
    {
        match File::open(rt, self.kept.as_str()) {
            Ok(file) => read_file(file),
            Err(error) if error.kind() == ErrorKind::NotFound => Ok(None),
            Err(_) => Err(CopyNo::Unread),
        }
    }

    /// Keeps a setup in the place of the one that is kept: another file is written whole, synced
    /// and read back, then it is renamed, and the folder is synced. So at each moment one of the
    /// two is there, whole. After an error it is the one from before, or where the folder alone
    /// couldn't be synced either of them.
    pub fn keep<R: Files>(&self, rt: &R, setup: &Setup) -> Result<(), CopyNo> {
        self.write_fresh(rt, setup)?;
        self.check_fresh(rt, setup)?;
        match fs::rename(rt, self.fresh.as_str(), self.kept.as_str()) {
            Ok(()) => sync_folder(rt, self.folder.as_str()),
            Err(_) => Err(CopyNo::Unwritten),
        }
    }

    /// Writes the other file, and syncs it.
    fn write_fresh<R: Files>(&self, rt: &R, setup: &Setup) -> Result<(), CopyNo> {
        let mut file = match File::create(rt, self.fresh.as_str()) {
            Ok(file) => file,
            Err(_) => return Err(CopyNo::Unwritten),
        };
        if write_setup(setup, &mut StdSink::new(&mut file)).is_err() {
            return Err(CopyNo::Unwritten);
        }
        match file.sync_all() {
            Ok(()) => Ok(()),
            Err(_) => Err(CopyNo::Unwritten),
        }
    }

    /// Whether the other file reads back as a setup that doesn't differ.
    fn check_fresh<R: Files>(&self, rt: &R, setup: &Setup) -> Result<(), CopyNo> {
        let Ok(file) = File::open(rt, self.fresh.as_str()) else {
            return Err(CopyNo::Unwritten);
        };
        match read_file(file) {
            Ok(Some(written)) if first_difference(&written, setup).is_none() => Ok(()),
            _ => Err(CopyNo::Unwritten),
        }
    }
}

/// The setup in an open file.
fn read_file<F: std::io::Read + Drop>(file: F) -> Result<Option<Setup>, CopyNo>
    ensures sound { IfOk result (λ found. IfSome found IsSoundSetup) }
{
    match read_copy(&mut StdSource::new(file)) {
        Ok(found) => Ok(found),
        Err(SetupNo::Read) => Err(CopyNo::Unread),
        Err(SetupNo::Line { number, kind }) => Err(CopyNo::Torn { number, kind }),
    }
}

/// The folder in which a file stands, by its path.
fn folder_of(path: &str) -> &str {
    match path.rsplit_once('/') {
        Some(("", _)) => "/",
        Some((folder, _)) => folder,
        None => ".",
    }
}

/// Syncs a folder, so that its names outlast a power cut.
fn sync_folder<R: Files>(rt: &R, folder: &str) -> Result<(), CopyNo> {
    let synced = match File::open(rt, folder) {
        Ok(folder) => folder.sync_all().is_ok(),
        Err(_) => false,
    };
    if synced {
        Ok(())
    } else {
        Err(CopyNo::Unwritten)
    }
}
