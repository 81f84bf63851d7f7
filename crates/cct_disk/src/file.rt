// A disk over a file, which shows nothing of its bytes.
ghost use Rattle.std.specs.Prelude.{◌≡◌, ◌↔◌, false, true, None, IfOk, IsTrue, IsOk, IsErr, OnOk};
ghost use Rattle.std.specs.Prelude.{OnErr, [], length};
ghost use Rattle.cct_edge.specs.Faults.{CountsFaults, next_count};
ghost use Rattle.cct_disk.specs.Disk.{CountsCut};
ghost use Rattle.cct_disk.specs.File.{FileGoesOn, FileOutlasts, is_open, file_len, file_faults};
ghost use Rattle.cct_disk.specs.File.{file_cuts};
ghost use Rattle.cct_disk.specs.Laws.{untold_fits};

use crate::Disk;
use crate::calls::count_fault;
use cct_edge::Failed;
use std::fs::{File, Files, OpenFile, OpenOptions, TryLockError};
use std::io::{ErrorKind, Read, Seek, SeekFrom, Write};
use std::{fs, io};

/// How many bytes a file has that is made here, and how many a disk has that has no file.
pub const MADE_LEN: u64 = 2_097_152;

// So many zeros are written at a time into a file that is made.
const PIECE: usize = 16_384;

// So often.
const PIECES: u64 = MADE_LEN / PIECE as u64;

/// A disk over a file, which shows nothing of its bytes. `docs/JOURNAL.md` says what a real file
/// does and doesn't do.
///
/// A cut leaves what was written, and answers Ok where there is a file. After a sync that failed
/// there is none, and each call fails: the system may have dropped what was to be synced, and
/// answer a later sync as done all the same.
#[derive(Drop)]
pub struct FileDisk<R: Files> {
    file: Option<R::File>,
    len: u64,
    faults: u64,
    cuts: u64,
}

/// A file of which a process can take the lock, so that no other process takes it.
pub trait Lockable {
    /// Takes the lock, without waiting, for as long as the file is open. The system lets go of it
    /// when the process ends, however it ends.
    ///
    /// [`TryLockError::WouldBlock`] comes where another opening of the file has the lock, and
    /// [`TryLockError::Error`] where the system has no lock for it.
    fn take_lock(&self) -> Result<(), TryLockError>;
}

impl Lockable for File {
    fn take_lock(&self) -> Result<(), TryLockError> {
        self.try_lock()
    }
}

/// Another process has the lock of the file.
#[derive(Clone, Copy, Debug, PartialEq, Eq)]
pub struct InUse;

impl<R: Files> FileDisk<R> {
    /// Opens a file, for reading and writing, at its length. One that isn't there is made:
    /// 2,097,152 zeros are written and synced. It takes no lock, and heeds none.
    ///
    /// Where it can't be opened, made or measured, the disk has 2,097,152 bytes, and each call
    /// fails. A file that is made and can't be filled is removed again.
    pub fn open_file(rt: &R, path: &str) -> FileDisk<R>
        ensures len { is_open result ≡ false → file_len result ≡ MADE_LEN }
        ensures faults { file_faults result ≡ 0 }
        ensures cuts { file_cuts result ≡ 0 }
    {
        match open_or_create(rt, path) {
            Ok(found) => FileDisk::over(filled(rt, path, found)),
            Err(why) => FileDisk::over(Err(why)),
        }
    }

    /// As [`FileDisk::open_file`], and takes the lock of the file before a byte of it is read or
    /// written. The disk has the lock until it is dropped, or a sync of it fails.
    ///
    /// `InUse` where another process has the lock. Then nothing is written.
    pub fn open_locked(rt: &R, path: &str) -> Result<FileDisk<R>, InUse>
    where
        R::File: Lockable,
        ensures len { IfOk result (λ disk. is_open disk ≡ false → file_len disk ≡ MADE_LEN) }
        ensures faults { IfOk result (λ disk. file_faults disk ≡ 0) }
        ensures cuts { IfOk result (λ disk. file_cuts disk ≡ 0) }
    {
        match open_or_create(rt, path) {
            Ok(found) => match found.file.take_lock() {
                Ok(()) => Ok(FileDisk::over(filled(rt, path, found))),
                Err(TryLockError::WouldBlock) => Err(InUse),
                Err(TryLockError::Error(why)) => {
                    remove_new(rt, path, found.is_new);
                    Ok(FileDisk::over(Err(why)))
                }
            },
            Err(why) => Ok(FileDisk::over(Err(why))),
        }
    }

    // The disk over a file of this length, or over none.
    fn over(file: io::Result<(R::File, u64)>) -> FileDisk<R>
        ensures len { is_open result ≡ false → file_len result ≡ MADE_LEN }
        ensures faults { file_faults result ≡ 0 }
        ensures cuts { file_cuts result ≡ 0 }
    {
        let (file, len) = match file {
            Ok((file, len)) => (Some(file), len),
            Err(_) => (None, MADE_LEN),
        };
        FileDisk {
            file,
            len,
            faults: 0,
            cuts: 0,
        }
    }
}

// A file that was opened.
#[derive(Drop)]
struct Found<F> {
    file: F,
    // It wasn't there, and has no bytes yet.
    is_new: bool,
}

// A file, opened, or made without bytes where it isn't there.
fn open_or_create<R: Files>(rt: &R, path: &str) -> io::Result<Found<R::File>> {
    match open(rt, path) {
        Err(why) if why.kind() == ErrorKind::NotFound => create(rt, path),
        found => found,
    }
}

fn open<R: Files>(rt: &R, path: &str) -> io::Result<Found<R::File>> {
    let file = OpenOptions::new().read(true).write(true).open(rt, path)?;
    Ok(Found {
        file,
        is_new: false,
    })
}

fn create<R: Files>(rt: &R, path: &str) -> io::Result<Found<R::File>> {
    match File::create_new(rt, path) {
        Ok(file) => Ok(Found { file, is_new: true }),
        // Another process made it meanwhile.
        Err(why) if why.kind() == ErrorKind::AlreadyExists => open(rt, path),
        Err(why) => Err(why),
    }
}

// A file with its length, after a new one got its bytes. One that can't get them is removed.
fn filled<R: Files>(rt: &R, path: &str, found: Found<R::File>) -> io::Result<(R::File, u64)> {
    let Found { mut file, is_new } = found;
    if is_new {
        if let Err(why) = fill(&mut file) {
            remove_new(rt, path, is_new);
            return Err(why);
        }
    }
    let len = file.metadata()?.len();
    Ok((file, len))
}

// Gives a new file all its bytes, so that there is room for them on the medium.
fn fill<F: Write + OpenFile>(file: &mut F) -> io::Result<()> {
    let zeros = [0; PIECE];
    for _ in 0..PIECES {
        file.write_all(&zeros)?;
    }
    file.flush()?;
    file.sync_all()
}

// Removes a file that was made in vain, as far as the system does so.
fn remove_new<R: Files>(rt: &R, path: &str, is_new: bool) {
    if is_new {
        let _ = rt.remove_file(path);
    }
}

fn read_at<F: Read + Seek>(file: &mut F, at: u64, room: &mut [u8]) -> io::Result<()> {
    file.seek(SeekFrom::Start(at))?;
    file.read_exact(room)
}

fn write_at<F: Write + Seek>(file: &mut F, at: u64, bytes: &[u8]) -> io::Result<()> {
    file.seek(SeekFrom::Start(at))?;
    file.write_all(bytes)?;
    file.flush()
}

// The answer of a call that was done or not, which counts one more fault in the latter case.
fn answer(done: bool, faults: &mut u64) -> Result<(), Failed>
    ensures done { IsOk result ↔ IsTrue done }
    ensures counted { CountsFaults faults.old faults.new result }
{
    if done {
        Ok(())
    } else {
        Err(count_fault(faults))
    }
}

impl<R: Files> Disk for FileDisk<R> {
    ghost size = { file_len };

    ghost honest = { λ _. false };

    ghost seen = { λ _. None };

    ghost may_leave = { λ _ _. Unit {0} };

    ghost moment = { λ _. 0 };

    ghost left_since = { λ _ _ _. Unit {0} };

    ghost faults = { file_faults };

    ghost spent = { λ _ _ _. ⊥ };

    ghost cuts = { file_cuts };

    ghost below = { λ _. [] };

    ghost cut_to = { λ before _ now. file_cuts now ≡ next_count (file_cuts before) };

    ghost fits = { λ s bytes is. untold_fits (file_len s) bytes is };

    ghost is_image = { λ _ _ _ _. tt };

    ghost unfailed = { λ _ _ _ spent. absurd spent };

    ghost counts_now = { λ _ _ _ _ _. tt };

    ghost only_now = { λ _ _ _. tt };

    fn len(&self) -> u64 {
        self.len
    }

    fn read(&mut self, at: u64, room: &mut [u8]) -> Result<(), Failed>
        ensures room { length room.new ≡ length room.old }
        ensures goes_on { FileGoesOn self.old self.new }
        ensures counted { CountsFaults (file_faults self.old) (file_faults self.new) result }
        ensures closed { is_open self.old ≡ false → IsErr result }
        ensures open { is_open self.new ≡ is_open self.old }
    {
        let done = match &mut self.file {
            Some(file) => read_at(file, at, room).is_ok(),
            None => false,
        };
        answer(done, &mut self.faults)
    }

    fn write(&mut self, at: u64, bytes: &[u8]) -> Result<(), Failed>
        ensures goes_on { FileGoesOn self.old self.new }
        ensures counted { CountsFaults (file_faults self.old) (file_faults self.new) result }
        ensures closed { is_open self.old ≡ false → IsErr result }
        ensures open { is_open self.new ≡ is_open self.old }
    {
        let done = match &mut self.file {
            Some(file) => write_at(file, at, bytes).is_ok(),
            None => false,
        };
        answer(done, &mut self.faults)
    }

    fn sync(&mut self) -> Result<(), Failed>
        ensures goes_on { FileGoesOn self.old self.new }
        ensures counted { CountsFaults (file_faults self.old) (file_faults self.new) result }
        ensures closed { is_open self.old ≡ false → IsErr result }
        ensures open { OnOk result (is_open self.new ≡ is_open self.old) }
        // After a sync that failed there is no file any more: the system may have dropped what
        // wasn't written, and report a later sync as done.
        ensures given_up { OnErr result (is_open self.new ≡ false) }
    {
        let done = match &self.file {
            Some(file) => file.sync_data().is_ok(),
            None => false,
        };
        if !done {
            self.file = None;
        }
        answer(done, &mut self.faults)
    }

    fn power_cut(&mut self, _choice: u64) -> Result<(), Failed>
        ensures outlasts { FileOutlasts self.old self.new }
        ensures cuts { CountsCut (file_cuts self.old) (file_cuts self.new) result }
        ensures counted { CountsFaults (file_faults self.old) (file_faults self.new) result }
        ensures opened { IsOk result ↔ (is_open self.old ≡ true) }
        ensures open { is_open self.new ≡ is_open self.old }
    {
        answer(self.file.is_some(), &mut self.faults)?;
        self.cuts = self.cuts.saturating_add(1);
        Ok(())
    }
}
