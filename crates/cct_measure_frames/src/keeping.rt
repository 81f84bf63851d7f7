//! Records, one a pass: gone over by a tally, put into a journal, and found again.
ghost use Rattle.cct_model.specs.Setup.{IsSoundSetup};
ghost use Rattle.cct_record.specs.Body.{Encodable};

use crate::acceptor;
use crate::disk::{Calls, NONE, PlainDisk};
use cct_disk::MADE_LEN;
use cct_journal::Journal;
use cct_journal_carry::Tally;
use cct_model::{Devices, Record, Setup};
use std::alloc::{AllocError, Global};

/// What a pass does with its record.
#[derive(Clone, Copy)]
pub(crate) enum Keeping {
    /// A tally goes over it.
    Tallies,
    /// The same, and a journal takes it.
    Puts,
    /// The same, and the journal turns for it, if there was one before.
    Turns,
    /// As `Puts`, and after the last pass the journal is opened again.
    Reopened,
}

/// How many records there are after all passes, and which calls the disk was given.
#[derive(Clone, Copy)]
pub(crate) struct Kept {
    pub(crate) records: u32,
    pub(crate) calls: Calls,
}

/// What there is if a call fails.
const NOTHING: Kept = Kept {
    records: 0,
    calls: NONE,
};

/// The length of a disk whose halves take one record each, so that each put but the first begins
/// with a turn.
const LEAST_LEN: u64 = 2_368;

/// What so many passes leave.
pub(crate) fn keep(alloc: Global, keeping: Keeping, passes: u32) -> Result<Kept, AllocError> {
    let setup = setup();
    match keeping {
        Keeping::Tallies => Ok(Kept {
            records: tallied(&setup, passes),
            calls: NONE,
        }),
        Keeping::Puts => Ok(put(PlainDisk::new(alloc, MADE_LEN as usize)?, &setup, passes)),
        Keeping::Turns => Ok(put(PlainDisk::new(alloc, LEAST_LEN as usize)?, &setup, passes)),
        Keeping::Reopened => Ok(reopened(
            PlainDisk::new(alloc, MADE_LEN as usize)?,
            &setup,
            passes,
        )),
    }
}

/// A machine of one acceptor.
fn setup() -> Setup
    ensures { IsSoundSetup result }
{
    let mut devices = Devices::new();
    devices.push(acceptor());
    Setup { devices }
}

/// The record of a pass: by turns an epoch begins, and ends.
fn record(pass: u32) -> Record
    ensures { Encodable result }
{
    if pass % 2 == 0 {
        Record::Epoch {
            addr: 2,
            mask: 1,
            accepts: 0,
        }
    } else {
        Record::EpochEnd { addr: 2 }
    }
}

/// How many records a tally went over after so many passes.
fn tallied(setup: &Setup, passes: u32) -> u32
    requires { IsSoundSetup setup.now }
{
    let mut tally = Tally::new(setup);
    for pass in 0..passes {
        if tally.many() == u32::MAX || !tally.add(&record(pass)) {
            return 0;
        }
    }
    tally.many()
}

/// What a journal has after so many puts on a blank disk.
fn put(disk: PlainDisk, setup: &Setup, passes: u32) -> Kept
    requires { IsSoundSetup setup.now }
{
    match filled(disk, setup, passes) {
        Some(journal) => Kept {
            records: journal.used(),
            calls: journal.into_disk().calls,
        },
        None => NOTHING,
    }
}

/// What is found if a journal is opened again after so many puts on a blank disk.
fn reopened(disk: PlainDisk, setup: &Setup, passes: u32) -> Kept
    requires { IsSoundSetup setup.now }
{
    let Some(journal) = filled(disk, setup, passes) else {
        return NOTHING;
    };
    match Journal::reopen(journal.into_disk()) {
        Ok((journal, records)) => Kept {
            records,
            calls: journal.into_disk().calls,
        },
        Err(_) => NOTHING,
    }
}

/// A new journal with so many records on a blank disk, if no call fails.
fn filled(disk: PlainDisk, setup: &Setup, passes: u32) -> Option<Journal<PlainDisk>>
    requires { IsSoundSetup setup.now }
{
    let mut journal = Journal::create(disk).ok()?;
    let mut tally = Tally::new(setup);
    for pass in 0..passes {
        if tally.many() != journal.used() || tally.many() == u32::MAX {
            return None;
        }
        let record = record(pass);
        journal.put(&record, tally.carry()).ok()?;
        tally.add(&record);
    }
    Some(journal)
}
