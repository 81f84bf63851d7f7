//! A host starts again after a power cut, over what its disk then keeps.
ghost use Rattle.std.specs.Prelude.{◌≡◌, ◌≤◌, ◌<◌, ◌+◌, List, Err, IfErr, IfOk, IfSome, OnOk};
ghost use Rattle.std.specs.Prelude.{Option, Some, false, length, reverse, true};
ghost use Rattle.cct_model.specs.lines.entry.Entry.{Entry};
ghost use Rattle.cct_model.specs.terms.device.Setup.{Setup};
ghost use Rattle.cct_model.specs.lines.record.Record.{Record};
ghost use Rattle.cct_model.specs.Carry.{carry_of};
ghost use Rattle.cct_model.specs.Carried.{IsRightly};
ghost use Rattle.cct_model.specs.Following.{all_follow, follows};
ghost use Rattle.cct_model.specs.Script.{IsCrash};
ghost use Rattle.cct_model.specs.Setup.{IsSoundSetup};
ghost use Rattle.cct_record.specs.Body.{Encodable};
ghost use Rattle.cct_journal.specs.Journal as journals;
ghost use Rattle.cct_journal.specs.Opening.{ReplaysAll};
ghost use Rattle.cct_journal_carry.specs.Tally as tallies;
ghost use Rattle.cct_laws.specs.Restart.{calls_in, due_in};
ghost use Rattle.cct_host.specs.OnDisk.{KeepsRecords, ReadsRest};
ghost use Rattle.cct_host.specs.Desks as all_desks;
ghost use Rattle.cct_host.specs.Host.{put_by};
ghost use Rattle.cct_host.specs.Parts.{BelongTogether};
ghost use Rattle.cct_host.specs.Replayed.{AreUnused, Resumes};
ghost use Rattle.cct_host.specs.Restarting.{IsLost, JournalFails, JournalRestarts, due_for};
ghost use Rattle.cct_host.specs.Starting.{TalliesOver};

use crate::Desks;
use crate::refusal::CrashNo;
use crate::replay::ReplayState;
use cct_disk::Disk;
use cct_journal::{Journal, MOST_RECORDS, OpenNo, Replay};
use cct_journal_carry::Tally;
use cct_model::{Carry, CrashAt, Record, Setup};

/// What a power cut left.
#[derive(Drop)]
pub struct Crashed {
    /// How many records the journal has.
    pub records: u32,
    /// The record of the put under way, where it was kept.
    pub kept: Option<Record>,
}

/// The parts of a host have a power cut, in a put of the job at an address or in none, and start
/// again over what the disk then keeps. The record of that put is the one that is due at its
/// address, if one is.
pub(crate) fn restart<'s, D: Disk>(
    desks: &mut Desks<'s>,
    tally: &mut Tally<'s>,
    journal: &mut Journal<D>,
    at: Option<CrashAt>,
    choice: u64,
) -> Result<Crashed, CrashNo>
    requires whole { journals.has_failed journal.old ≡ false }
    requires few { IsCrash at }
    requires together { BelongTogether desks.old tally.old journal.old }

    // what holds of the parts of a host
    ensures setup { all_desks.setup_of desks.new ≡ all_desks.setup_of desks.old }
    ensures together { BelongTogether desks.new tally.new journal.new }

    // what is restarted, and what it gives
    ensures due { (past : List Entry) → all_desks.StandsFor desks.old past
        → due_for desks.old at ≡ due_in (all_desks.setup_of desks.old) past at }
    ensures restarts { IfOk result (λ crashed. JournalRestarts (calls_in at) (due_for desks.old at)
        (tallies.carry_in tally.old) choice journal.old journal.new crashed.kept) }
    ensures records { IfOk result (λ crashed. crashed.records ≡ journals.used_of journal.new) }
    ensures over { OnOk result ((rest : List Record)
        → ReadsRest D.seen (journals.disk_of journal.new) (journals.place_of journal.new) rest
        → TalliesOver (all_desks.setup_of desks.old) (journals.carry_before journal.new) rest
        (tallies.carry_in tally.new)) }
    ensures begins { OnOk result (Resumes desks.new (tallies.carry_in tally.new)) }

    // why it isn't
    ensures fails { IfErr result (JournalFails (all_desks.setup_of desks.old) (due_for desks.old at)
        (tallies.carry_in tally.old) choice journal.old journal.new) }
    ensures never { IfErr result (λ why. (records : List Record)
        → KeepsRecords (all_desks.setup_of desks.old) D.honest D.seen D.may_leave (journals.disk_of journal.old)
        (journals.place_of journal.old) records
        → tallies.carry_in tally.old ≡ carry_of (all_desks.setup_of desks.old) records
        → all_follow (all_desks.setup_of desks.old) (reverse records) ≡ true
        → IfSome (due_for desks.old at) (λ r. follows (all_desks.setup_of desks.old) (reverse records) r ≡ true)
        → why ≡ CrashNo.Disk) }
{
    let due = due_for(desks, at);
    let setup = desks.setup();
    let mut replayed = ReplayState::new(setup);
    let kept = match lose(
        journal,
        due,
        tally.carry(),
        calls_in(at),
        choice,
        &mut replayed,
    ) {
        Ok(kept) => kept,
        Err(why) => {
            clear(desks, tally, journal.used());
            return Err(why);
        }
    };
    match replayed.bad {
        None => {
            let records = journal.used();
            *desks = Desks::resume(setup, replayed.tally.carry());
            *tally = replayed.tally;
            Ok(Crashed { records, kept })
        }
        Some(index) => {
            clear(desks, tally, journal.used());
            Err(CrashNo::BadRecord { index })
        }
    }
}

/// Parts of a host that isn't started again: they have no job, and no records but their number.
fn clear<'s>(desks: &mut Desks<'s>, tally: &mut Tally<'s>, many: u32)
    ensures setup { all_desks.setup_of desks.new ≡ all_desks.setup_of desks.old }
    ensures unused { AreUnused desks.new }
    ensures same { tallies.setup_of tally.new ≡ all_desks.setup_of desks.old }
    ensures tallied { tallies.many_of tally.new ≡ many }
{
    let setup = desks.setup();
    *desks = Desks::new(setup);
    *tally = Tally::counted(setup, many);
}

/// The record that is due where a power cut comes, if one is.
fn due_for(desks: &Desks<'_>, at: Option<CrashAt>) -> Option<Record>
    ensures value { result ≡ due_for desks.now at }
    ensures fits { IfSome result Encodable }
    ensures puts { IfSome result (λ r. 1 ≤ all_desks.puts_of desks.now) }
    ensures stands { (past : List Entry) → all_desks.StandsFor desks.now past
        → result ≡ due_in (all_desks.setup_of desks.now) past at }
{
    match at {
        Some(at) => desks.due(at.addr),
        None => None,
    }
}

/// How many of the four disk calls of a put a power cut comes after.
fn calls_in(at: Option<CrashAt>) -> u8
    ensures { result ≡ calls_in at }
{
    match at {
        Some(at) => at.calls,
        None => 0,
    }
}

/// A journal has a power cut in a put of the record that is due, after those of this carry, or in
/// none, and is opened on what is left, whose records are replayed. It says which record was kept
/// beside those that were put.
fn lose<D: Disk, R: Replay>(
    journal: &mut Journal<D>,
    due: Option<Record>,
    so_far: &Carry,
    calls: u8,
    choice: u64,
    replay: &mut R,
) -> Result<Option<Record>, CrashNo>
    requires whole { journals.has_failed journal.old ≡ false }
    requires few { calls ≤ 4 }
    requires room { IfSome due (λ _. journals.used_of journal.old < MOST_RECORDS) }
    requires encodable { IfSome due Encodable }
    requires rightly { IfSome due (λ _. IsRightly (journals.used_of journal.old) so_far.now) }

    ensures restarts { IfOk result (JournalRestarts calls due so_far.now choice journal.old
        journal.new) }
    ensures replayed { OnOk result (ReplaysAll D.seen R.replayed (journals.disk_of journal.new)
        (journals.place_of journal.new) replay.old replay.new) }
    ensures fails { IfErr result (λ why. (setup : Setup)
        → JournalFails setup due so_far.now choice journal.old journal.new why) }
    ensures never { IfErr result (λ why. (setup : Setup) (records : List Record)
        → KeepsRecords setup D.honest D.seen D.may_leave (journals.disk_of journal.old) (journals.place_of journal.old) records
        → so_far.now ≡ carry_of setup records → why ≡ CrashNo.Disk) }
{
    let put = journal.used();
    match journal.restart(&due, so_far, calls, choice, replay) {
        Ok(found) => kept_in(found, put, due),
        Err(OpenNo::Disk) => Err(CrashNo::Disk),
        Err(OpenNo::Alien) => Err(CrashNo::Alien),
        Err(OpenNo::BadRecord { index }) => Err(CrashNo::BadRecord { index }),
    }
}

/// Which record was kept beside those that were put, by how many there are.
fn kept_in(found: u32, put: u32, due: Option<Record>) -> Result<Option<Record>, CrashNo>
    ensures kept { IfOk result (λ kept. IfSome kept (λ r. due ≡ Some r)) }
    ensures counts { IfOk result (λ kept. found ≡ put + length (put_by kept)) }
    ensures lost { IfErr result (λ why. (why ≡ CrashNo.Lost found put) × IsLost due found put) }
{
    match due {
        _ if found == put => Ok(None),
        Some(entry) if u64::from(found) == u64::from(put) + 1 => Ok(Some(entry)),
        _ => Err(CrashNo::Lost { found, put }),
    }
}
