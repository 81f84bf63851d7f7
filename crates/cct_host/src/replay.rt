//! A host that starts goes over the carry and the records of its journal: it reads them, or is
//! shown them as they are found.
ghost use Rattle.std.specs.Prelude.{◌≡◌, ◌≤◌, ◌<◌, ◌+◌, ℕ, List, Err, IfErr, IfOk, IsTrue, OnOk};
ghost use Rattle.std.specs.Prelude.{Ok, is_ok};
ghost use Rattle.cct_model.specs.lines.record.Record.{Record};
ghost use Rattle.cct_model.specs.lines.carry.Carry.{Carry};
ghost use Rattle.cct_model.specs.Carried.{empty_carry};
ghost use Rattle.cct_model.specs.Carry.{Fits};
ghost use Rattle.cct_model.specs.Setup.{IsSoundSetup};
ghost use Rattle.cct_journal_carry.specs.Tally as tallies;
ghost use Rattle.cct_journal.specs.Journal as journals;
ghost use Rattle.cct_host.specs.OnDisk.{ReadsRest};
ghost use Rattle.cct_host.specs.Starting.{OnlyReadIn, RefusesResume, TalliesFirst, TalliesOver};
ghost use Rattle.cct_host.specs.Starting.{TalliesSome};

use crate::refusal::StartNo;
use cct_disk::Disk;
use cct_journal::{Journal, Replay};
use cct_journal_carry::Tally;
use cct_model::{Carry, Record, Setup};

/// A tally of all records of a journal: it begins with the carry of those before the current half,
/// and goes over the others, oldest first.
///
/// [`StartNo::BadRecord`] comes at the first record of the current half where the carry doesn't fit
/// the setup, and at the first one there that can't be read or doesn't follow.
pub(crate) fn replay_all<'s, D: Disk>(
    setup: &'s Setup,
    journal: &mut Journal<D>,
) -> Result<Tally<'s>, StartNo>
    requires sound { IsSoundSetup setup.now }

    // what it returns
    ensures setup { IfOk result (λ tally. tallies.setup_of tally ≡ setup.now) }
    ensures counted { IfOk result (λ tally. tallies.many_of tally ≡ journals.used_of journal.old) }
    ensures some { IfOk result (λ tally. TalliesSome setup.now (journals.base_of journal.old)
        (journals.carry_before journal.old) (journals.used_of journal.old) (tallies.carry_in tally)) }
    ensures over { IfOk result (λ tally. (rest : List Record)
        → ReadsRest D.seen (journals.disk_of journal.old) (journals.place_of journal.old) rest
        → TalliesOver setup.now (journals.carry_before journal.old) rest (tallies.carry_in tally)) }
    ensures starts { journals.used_of journal.old ≡ 0 → IsTrue (is_ok result) }
    ensures fresh { IfOk result (λ tally. journals.used_of journal.old ≡ 0 → tallies.carry_in tally
        ≡ empty_carry) }
    ensures refused { IfErr result (λ why. (rest : List Record)
        → ReadsRest D.seen (journals.disk_of journal.old) (journals.place_of journal.old) rest
        → RefusesResume why setup.now (journals.base_of journal.old) (journals.carry_before journal.old) rest) }

    // the journal
    ensures reads { OnlyReadIn journal.old journal.new (result ≡ Err StartNo.Disk) }
    ensures untouched { journals.used_of journal.old ≡ 0 → journal.new ≡ journal.old }
{
    let base = journal.base();
    match Tally::resume(setup, base, journal.carry()) {
        Some(tally) => replay_rest(tally, journal),
        None => Err(StartNo::BadRecord { index: base }),
    }
}

/// A tally of the records before the current half of a journal goes over those in it, oldest first.
fn replay_rest<'s, D: Disk>(
    before: Tally<'s>,
    journal: &mut Journal<D>,
) -> Result<Tally<'s>, StartNo>
    requires counted { tallies.many_of before ≡ journals.base_of journal.old }
    ensures setup { IfOk result (λ tally. tallies.setup_of tally ≡ tallies.setup_of before.entry) }
    ensures counted { IfOk result (λ tally. tallies.many_of tally ≡ journals.used_of journal.old) }
    ensures some { IfOk result (λ tally. Fits (tallies.setup_of before.entry) (tallies.carry_in before.entry)
        → TalliesSome (tallies.setup_of before.entry) (journals.base_of journal.old) (tallies.carry_in before.entry)
        (journals.used_of journal.old) (tallies.carry_in tally)) }
    ensures over { IfOk result (λ tally. (rest : List Record)
        → ReadsRest D.seen (journals.disk_of journal.old) (journals.place_of journal.old) rest
        → Fits (tallies.setup_of before.entry) (tallies.carry_in before.entry)
        → TalliesOver (tallies.setup_of before.entry) (tallies.carry_in before.entry) rest (tallies.carry_in tally)) }
    ensures refused { IfErr result (λ why. (rest : List Record)
        → ReadsRest D.seen (journals.disk_of journal.old) (journals.place_of journal.old) rest
        → Fits (tallies.setup_of before.entry) (tallies.carry_in before.entry)
        → RefusesResume why (tallies.setup_of before.entry) (journals.base_of journal.old) (tallies.carry_in before.entry) rest) }
    ensures none { journals.used_of journal.old ≡ journals.base_of journal.old
        → (result ≡ Ok before.entry) × (journal.new ≡ journal.old) }
    ensures reads { OnlyReadIn journal.old journal.new (result ≡ Err StartNo.Disk) }
{
    let mut tally = before;
    for index in journal.base()..journal.used() {
        replay_next(&mut tally, journal, index)?;
    }
    Ok(tally)
}

/// The record of an index is read, and a tally goes over it, where it follows.
fn replay_next<D: Disk>(
    tally: &mut Tally<'_>,
    journal: &mut Journal<D>,
    index: u32,
) -> Result<(), StartNo>
    requires from { journals.base_of journal.old ≤ index }
    requires within { index < journals.used_of journal.old }
    requires counted { tallies.many_of tally.old ≡ index }
    ensures setup { tallies.setup_of tally.new ≡ tallies.setup_of tally.old }
    ensures counted { OnOk result (tallies.many_of tally.new ≡ index + 1) }
    ensures some { OnOk result ((base : ℕ) (c : Carry)
        → TalliesSome (tallies.setup_of tally.old) base c index (tallies.carry_in tally.old)
        → TalliesSome (tallies.setup_of tally.old) base c (index + 1) (tallies.carry_in tally.new)) }
    ensures over { OnOk result ((rest : List Record)
        → ReadsRest D.seen (journals.disk_of journal.old) (journals.place_of journal.old) rest
        → (c : Carry)
        → TalliesFirst (tallies.setup_of tally.old) (journals.base_of journal.old) c rest index
        (tallies.carry_in tally.old)
        → TalliesFirst (tallies.setup_of tally.old) (journals.base_of journal.old) c rest (index + 1)
        (tallies.carry_in tally.new)) }
    ensures refused { IfErr result (λ why. (rest : List Record)
        → ReadsRest D.seen (journals.disk_of journal.old) (journals.place_of journal.old) rest
        → (c : Carry)
        → TalliesFirst (tallies.setup_of tally.old) (journals.base_of journal.old) c rest index
        (tallies.carry_in tally.old)
        → RefusesResume why (tallies.setup_of tally.old) (journals.base_of journal.old) c rest) }
    ensures reads { OnlyReadIn journal.old journal.new (result ≡ Err StartNo.Disk) }
{
    let entry = journal.read_at(index)?;
    if tally.add(&entry) {
        Ok(())
    } else {
        Err(StartNo::BadRecord { index })
    }
}

/// What goes over the carry and the records that are found after a power cut: a tally, up to the
/// first record that doesn't follow.
#[derive(Drop)]
pub(crate) struct ReplayState<'s> {
    pub(crate) tally: Tally<'s>,
    /// The index of that record, or of the first one after a carry that doesn't fit the setup. The
    /// tally goes over none from it on.
    pub(crate) bad: Option<u32>,
}

impl<'s> ReplayState<'s> {
    /// Before any record.
    pub(crate) fn new(setup: &'s Setup) -> Self
        requires sound { IsSoundSetup setup.now }
        ensures setup { tallies.setup_of result.tally ≡ setup.now }
    {
        ReplayState {
            tally: Tally::new(setup),
            bad: None,
        }
    }
}

impl Replay for ReplayState<'_> {
    ghost use Rattle.cct_host.specs.Replaying.{ReplaysTo};

    ghost replayed = { ReplaysTo };

    fn begin(&mut self, base: u32, carry: &Carry) {
        match Tally::resume(self.tally.setup(), base, carry) {
            Some(tally) => {
                self.tally = tally;
                self.bad = None;
            }
            None => self.bad = Some(base),
        }
    }

    fn replay(&mut self, index: u32, entry: &Record) {
        if self.bad.is_some() {
            return;
        }
        if !self.tally.add(entry) {
            self.bad = Some(index);
        }
    }
}
