//! A journal on a disk in memory: one record is put, the power is cut in the put of the next one,
//! and it goes on.
ghost use Rattle.std.specs.Prelude.{◌≡◌, IfOk, IfSome, OnOk, false};
ghost use Rattle.cct_model_wire.specs.Setup.{IsSoundSetup};
ghost use Rattle.cct_record.specs.Body.{Encodable};
ghost use Rattle.cct_journal_carry.specs.Tally.{many_of};
ghost use Rattle.cct_journal.specs.Journal.{has_failed, used_of};

use crate::acceptor;
use cct_disk::{Disk, MemDisk, TornDisk};
use cct_journal::{Journal, JournalNo, OpenNo, ReadNo};
use cct_journal_carry::Tally;
use cct_model_lines::{CarryEpoch, Devices, Record, Setup};
use std::test::Fail;

/// An epoch begins at the acceptor of address 2, which accepted no coin yet: it is to accept all
/// its coins.
const BEGUN: Record = Record::Epoch {
    addr: 2,
    mask: 0xffff,
    accepts: 0,
};

/// It ends.
const ENDED: Record = Record::EpochEnd { addr: 2 };

/// The devices of the machine: one acceptor.
fn setup() -> Setup
    ensures { IsSoundSetup result }
{
    let mut devices = Devices::new();
    devices.push(acceptor::setup());
    Setup { devices }
}

/// Puts a record, with the carry of those before it.
fn put<D: Disk>(
    journal: &mut Journal<D>,
    tally: &mut Tally<'_>,
    entry: &Record,
) -> Result<(), JournalNo>
    requires whole { has_failed journal.old ≡ false }
    requires counted { many_of tally.old ≡ used_of journal.old }
    requires encodable { Encodable entry.now }
    ensures whole { OnOk result (has_failed journal.new ≡ false) }
    ensures counted { OnOk result (many_of tally.new ≡ used_of journal.new) }
{
    journal.put(entry, tally.carry())?;
    tally.add(entry);
    Ok(())
}

/// The journal on a disk.
fn opened<D: Disk + Drop>(disk: D) -> Result<Journal<D>, OpenNo>
    ensures { IfOk result (λ journal. has_failed journal ≡ false) }
{
    match Journal::reopen(disk) {
        Ok((journal, _)) => Ok(journal),
        Err((_, why)) => Err(why),
    }
}

/// The tally of all records of a journal, if it is one of this machine: it begins with the carry,
/// and goes over the records of the current half.
fn tally_of<'s, D: Disk>(
    setup: &'s Setup,
    journal: &mut Journal<D>,
) -> Result<Option<Tally<'s>>, ReadNo>
    requires sound { IsSoundSetup setup.now }
    requires whole { has_failed journal.old ≡ false }
    ensures whole { has_failed journal.new ≡ false }
    ensures counted { IfOk result (λ found. IfSome found
        (λ tally. many_of tally ≡ used_of journal.new)) }
{
    let Some(mut tally) = Tally::resume(setup, journal.base(), journal.carry()) else {
        return Ok(None);
    };
    for index in journal.base()..journal.used() {
        let entry = journal.read_at(index)?;
        if !tally.add(&entry) {
            return Ok(None);
        }
    }
    Ok(Some(tally))
}

#[test]
fn a_record_outlives_a_power_cut(rt: HostRuntime) -> Result<(), Fail> {
    let alloc = rt.alloc();
    let setup = setup();
    // Each half has 37 slots of 32 bytes: a header, 35 for a carry, and here one for a record.
    let disk = MemDisk::new(alloc, 2368, Vec::new(alloc))?;
    let mut journal = Journal::create(disk).map_err(|(_, why)| why)?;
    let mut tally = Tally::new(&setup);
    put(&mut journal, &mut tally, &BEGUN)?;

    // The half is full, so the next put begins the other one first. The power is cut after the
    // second of the four disk calls of the put itself: the body was written and synced, and the
    // gate that makes it count wasn't.
    assert!(rt; journal.used() < journal.capacity());
    let mut disk = journal
        .put_calls(&ENDED, tally.carry(), 2)
        .map_err(|(_, failed)| failed)?;
    disk.power_cut(0)?;

    // The machine starts again. The other record isn't there, and is put once more.
    let mut journal = opened(disk)?;
    assert_eq!(rt; journal.used(), 1);
    let Some(mut tally) = tally_of(&setup, &mut journal)? else {
        panic!(rt; "the records of this machine");
    };
    put(&mut journal, &mut tally, &ENDED)?;
    assert_eq!(rt; journal.used(), 2);

    // It is in the other half, which began with the carry of the first record: the epoch that it
    // gives.
    assert_eq!(rt; journal.base(), 1);
    assert!(rt; matches!(journal.read_at(1)?, Record::EpochEnd { addr: 2 }));
    let epoch = CarryEpoch {
        addr: 2,
        mask: 0xffff,
        counter: 0,
        accepts: 0,
    };
    assert_eq!(rt; journal.carry().epochs.as_slice(), [epoch].as_slice());
    Ok(())
}

#[test]
fn a_torn_body_is_no_record(rt: HostRuntime) -> Result<(), Fail> {
    let alloc = rt.alloc();
    let setup = setup();
    // A new journal takes five calls of its disk. The sixth writes the body of the first record: it
    // fails, and writes every other byte.
    let disk = TornDisk::new(alloc, 2368, vec![in alloc; 6]?, 2)?;
    let journal = Journal::create(disk).map_err(|(_, why)| why)?;
    let tally = Tally::new(&setup);
    assert!(rt; journal.used() < journal.capacity());
    let Err((mut disk, _)) = journal.put_calls(&BEGUN, tally.carry(), 4) else {
        panic!(rt; "a put whose write fails");
    };
    disk.power_cut(1)?;

    // The gate of that slot is still shut.
    assert_eq!(rt; opened(disk)?.used(), 0);
    Ok(())
}
