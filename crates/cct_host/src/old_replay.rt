//! A tally goes over the carry and the records of a journal of an older version.
ghost use Rattle.std.specs.Prelude.{◌≡◌, ◌≤◌, ◌<◌, ◌+◌, List, Err, IfErr, IfOk, OnOk};
ghost use Rattle.cct_model.specs.lines.record.Record.{Record};
ghost use Rattle.cct_model.specs.lines.carry.Carry.{Carry};
ghost use Rattle.cct_model.specs.Carry.{Fits};
ghost use Rattle.cct_model.specs.Setup.{IsSoundSetup};
ghost use Rattle.cct_journal_carry.specs.Tally as tallies;
ghost use Rattle.cct_journal.specs.OldImage.{bodies_at};
ghost use Rattle.cct_journal.specs.declared.format.TheConstants.{MOST_RECORDS};
ghost use Rattle.cct_journal.specs.OldJournal as olds;
ghost use Rattle.cct_journal.specs.OldStands.{OldCounts, OldReadsFrom};
ghost use Rattle.cct_host.specs.OldTally.{OnlyReadOld, RefusesBodies, TalliesUpTo};
ghost use Rattle.cct_host.specs.Starting.{RefusesResume, TalliesFirst, TalliesOver};

use cct_disk::Disk;
use cct_journal::{OldJournal, ReadNo};
use cct_journal_carry::Tally;
use cct_model::Setup;

/// A tally of all records of a journal of an older version: it begins with the carry of those
/// before the current half, and goes over the others, oldest first.
///
/// [`ReadNo::BadRecord`] comes at the first record of the current half where the carry doesn't fit
/// the setup, and at the first one there that can't be read or doesn't follow.
pub(crate) fn tally_old<'s, D: Disk>(
    setup: &'s Setup,
    journal: &mut OldJournal<D>,
) -> Result<Tally<'s>, ReadNo>
    requires sound { IsSoundSetup setup.now }

    // what it returns
    ensures setup { IfOk result (λ tally. tallies.setup_of tally ≡ setup.now) }
    ensures counted { IfOk result (λ tally. tallies.many_of tally ≡ olds.used_of journal.old) }
    ensures over { IfOk result (λ tally. (rest : List Record)
        → OldReadsFrom D.seen (olds.disk_of journal.old) (olds.place_of journal.old) rest
        → TalliesOver setup.now (olds.carry_before journal.old) rest (tallies.carry_in tally)) }
    ensures reads_all { IfOk result (λ tally. OldCounts D.seen (olds.disk_of journal.old) (olds.place_of journal.old)
        → TalliesUpTo setup.now journal.old (olds.used_of journal.old) (tallies.carry_in tally)) }
    ensures refused { IfErr result (λ why. (rest : List Record)
        → OldReadsFrom D.seen (olds.disk_of journal.old) (olds.place_of journal.old) rest
        → RefusesResume why setup.now (olds.base_of journal.old) (olds.carry_before journal.old) rest) }
    ensures bad { IfErr result (λ why. (counts : OldCounts D.seen (olds.disk_of journal.old) (olds.place_of journal.old))
        → RefusesBodies why setup.now (olds.base_of journal.old) (olds.carry_before journal.old)
        (bodies_at (olds.place_of journal.old) counts.image)) }

    // the journal
    ensures reads { OnlyReadOld journal.old journal.new (result ≡ Err ReadNo.Disk) }
{
    let base = journal.base();
    match Tally::resume(setup, base, journal.carry()) {
        Some(tally) => tally_rest(tally, journal),
        None => Err(ReadNo::BadRecord { index: base }),
    }
}

/// A tally of the records before the current half of a journal of an older version goes over those
/// in it, oldest first.
fn tally_rest<'s, D: Disk>(
    before: Tally<'s>,
    journal: &mut OldJournal<D>,
) -> Result<Tally<'s>, ReadNo>
    requires counted { tallies.many_of before ≡ olds.base_of journal.old }
    requires carry { tallies.carry_in before ≡ olds.carry_before journal.old }
    requires fits { Fits (tallies.setup_of before) (olds.carry_before journal.old) }
    ensures setup { IfOk result (λ tally. tallies.setup_of tally ≡ tallies.setup_of before.entry) }
    ensures counted { IfOk result (λ tally. tallies.many_of tally ≡ olds.used_of journal.old) }
    ensures over { IfOk result (λ tally. (rest : List Record)
        → OldReadsFrom D.seen (olds.disk_of journal.old) (olds.place_of journal.old) rest
        → TalliesOver (tallies.setup_of before.entry) (olds.carry_before journal.old) rest (tallies.carry_in tally)) }
    ensures reads_all { IfOk result (λ tally. OldCounts D.seen (olds.disk_of journal.old) (olds.place_of journal.old)
        → TalliesUpTo (tallies.setup_of before.entry) journal.old (olds.used_of journal.old) (tallies.carry_in tally)) }
    ensures refused { IfErr result (λ why. (rest : List Record)
        → OldReadsFrom D.seen (olds.disk_of journal.old) (olds.place_of journal.old) rest
        → RefusesResume why (tallies.setup_of before.entry) (olds.base_of journal.old) (olds.carry_before journal.old) rest) }
    ensures bad { IfErr result (λ why. (counts : OldCounts D.seen (olds.disk_of journal.old) (olds.place_of journal.old))
        → RefusesBodies why (tallies.setup_of before.entry) (olds.base_of journal.old) (olds.carry_before journal.old)
        (bodies_at (olds.place_of journal.old) counts.image)) }
    ensures reads { OnlyReadOld journal.old journal.new (result ≡ Err ReadNo.Disk) }
{
    let mut tally = before;
    for index in journal.base()..journal.used() {
        tally_next(&mut tally, journal, index)?;
    }
    Ok(tally)
}

/// The record of an index is read, and a tally goes over it, where it follows.
fn tally_next<D: Disk>(
    tally: &mut Tally<'_>,
    journal: &mut OldJournal<D>,
    index: u32,
) -> Result<(), ReadNo>
    requires from { olds.base_of journal.old ≤ index }
    requires within { index < olds.used_of journal.old }
    requires few { index < MOST_RECORDS }
    requires counted { tallies.many_of tally.old ≡ index }
    ensures setup { tallies.setup_of tally.new ≡ tallies.setup_of tally.old }
    ensures counted { OnOk result (tallies.many_of tally.new ≡ index + 1) }
    // over the records that a read gives, if all of them can be read
    ensures over { OnOk result ((rest : List Record)
        → OldReadsFrom D.seen (olds.disk_of journal.old) (olds.place_of journal.old) rest
        → TalliesFirst (tallies.setup_of tally.old) (olds.base_of journal.old) (olds.carry_before journal.old) rest index
        (tallies.carry_in tally.old)
        → TalliesFirst (tallies.setup_of tally.old) (olds.base_of journal.old) (olds.carry_before journal.old) rest (index + 1)
        (tallies.carry_in tally.new)) }
    ensures refused { IfErr result (λ why. (rest : List Record)
        → OldReadsFrom D.seen (olds.disk_of journal.old) (olds.place_of journal.old) rest
        → TalliesFirst (tallies.setup_of tally.old) (olds.base_of journal.old) (olds.carry_before journal.old) rest index
        (tallies.carry_in tally.old)
        → RefusesResume why (tallies.setup_of tally.old) (olds.base_of journal.old) (olds.carry_before journal.old) rest) }
    // and over those that its bodies spell, up to the first bad one
    ensures reads_next { OnOk result (TalliesUpTo (tallies.setup_of tally.old) journal.old index (tallies.carry_in tally.old)
        → TalliesUpTo (tallies.setup_of tally.old) journal.old (index + 1) (tallies.carry_in tally.new)) }
    ensures bad { IfErr result (λ why. (counts : OldCounts D.seen (olds.disk_of journal.old) (olds.place_of journal.old))
        → TalliesUpTo (tallies.setup_of tally.old) journal.old index (tallies.carry_in tally.old)
        → RefusesBodies why (tallies.setup_of tally.old) (olds.base_of journal.old) (olds.carry_before journal.old)
        (bodies_at (olds.place_of journal.old) counts.image)) }
    ensures reads { OnlyReadOld journal.old journal.new (result ≡ Err ReadNo.Disk) }
{
    let entry = journal.read_at(index)?;
    if tally.add(&entry) {
        Ok(())
    } else {
        Err(ReadNo::BadRecord { index })
    }
}
