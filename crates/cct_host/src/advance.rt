//! One attempt of a job, over the parts of a host: a record is put before its entry is reported.
ghost use Rattle.std.specs.Prelude.{◌≡◌, ◌≤◌, ◌<◌, ◌+◌, ◌-◌, ◌^◌, ◌∷◌, ◌++◌, ℕ, List, Option, Some};
ghost use Rattle.std.specs.Prelude.{None, IfSome, OnErr, OnOk, true, false, length};
ghost use Rattle.arrayvec.specs.ArrayVec.{array_vec_len};
ghost use Rattle.cct_edge.specs.Faults.{HasCause};
ghost use Rattle.cct_model.specs.lines.entry.Entry.{Entry};
ghost use Rattle.cct_model.specs.lines.record.Record.{Record};
ghost use Rattle.cct_model.specs.Carry.{carry};
ghost use Rattle.cct_model.specs.Carried.{IsRightly};
ghost use Rattle.cct_model.specs.Following.{all_follow};
ghost use Rattle.cct_record.specs.Body.{Encodable};
ghost use Rattle.cct_journal_carry.specs.Tally as tallies;
ghost use Rattle.cct_journal.specs.Journal as journals;
ghost use Rattle.cct_disk.specs.Disk.{GoesOn, Takes};
ghost use Rattle.cct_journal.specs.Turning.{put_bytes, put_calls};
ghost use Rattle.cct_host.specs.Desks as all_desks;
ghost use Rattle.cct_host.specs.Host.{Advances, FailsToPut, FillsOn, PutFails, Puts, put_by};
ghost use Rattle.cct_host.specs.Parts.{BelongTogether};
ghost use Rattle.cct_host.specs.Report.{kept};

use crate::Desks;
use arrayvec::ArrayVec;
use cct_disk::Disk;
use cct_edge::Failed;
use cct_journal::{Journal, JournalNo, MOST_RECORDS};
use cct_journal_carry::Tally;
use cct_model::{Carry, Entry, Record};
use cct_wire::Link;

/// The job at an address makes one attempt: what it is about to put is in the journal before it
/// goes on. What it reports replaces the last entry of the report.
pub(crate) fn advance<D: Disk, L: Link>(
    desks: &mut Desks<'_>,
    tally: &mut Tally<'_>,
    journal: &mut Journal<D>,
    addr: u8,
    link: &mut L,
    report: &mut ArrayVec<Entry, 8>,
) -> Result<(), Failed>
    requires last { 1 ≤ array_vec_len report.old }
    requires room { array_vec_len report.old ≤ 7 }
    requires whole { journals.has_failed journal.old ≡ false }
    requires together { BelongTogether desks.old tally.old journal.old }

    // what holds of the parts of a host
    ensures setup { all_desks.setup_of desks.new ≡ all_desks.setup_of desks.old }
    ensures together { BelongTogether desks.new tally.new journal.new }

    // the attempt
    ensures advances { OnOk result (Advances L.gives link.old link.new addr desks.old desks.new tally.old tally.new
        journal.old journal.new (kept report.old.items) report.new.items) }
    ensures fills { OnOk result (FillsOn journal.old journal.new) }

    // a put that failed
    ensures fails { OnErr result (FailsToPut addr desks.old desks.new tally.old tally.new journal.old
        journal.new) }
    ensures report { OnErr result (report.new ≡ report.old) }
    ensures link { OnErr result (link.new ≡ link.old) }

    // the disk
    ensures cause { HasCause (D.faults (journals.disk_of journal.old))
        (D.faults (journals.disk_of journal.new)) result }
    ensures goes_on { GoesOn D.size D.honest D.seen D.cuts (journals.disk_of journal.old)
        (journals.disk_of journal.new) }
    ensures takes { Takes D.below D.spent put_calls put_bytes (journals.disk_of journal.old)
        (journals.disk_of journal.new) }
{
    let found = desks.find(addr);
    if desks.puts_there(addr, found) {
        put_and_go_on(desks, tally, journal, addr, found, link, report)
    } else {
        desks.ask_there(addr, found, link, report);
        Ok(())
    }
}

/// The job at an address puts the record that it is about to put, and goes on. In a function of its
/// own its record takes no room where none is due.
#[inline(never)]
fn put_and_go_on<D: Disk, L: Link>(
    desks: &mut Desks<'_>,
    tally: &mut Tally<'_>,
    journal: &mut Journal<D>,
    addr: u8,
    found: Option<usize>,
    link: &mut L,
    report: &mut ArrayVec<Entry, 8>,
) -> Result<(), Failed>
    requires last { 1 ≤ array_vec_len report.old }
    requires room { array_vec_len report.old ≤ 7 }
    requires whole { journals.has_failed journal.old ≡ false }
    requires together { BelongTogether desks.old tally.old journal.old }
    requires found { all_desks.FindsDesk desks.old addr found }

    // what holds of the parts of a host
    ensures setup { all_desks.setup_of desks.new ≡ all_desks.setup_of desks.old }
    ensures together { BelongTogether desks.new tally.new journal.new }

    // the attempt
    ensures advances { OnOk result (Advances L.gives link.old link.new addr desks.old desks.new tally.old tally.new
        journal.old journal.new (kept report.old.items) report.new.items) }
    ensures fills { OnOk result (FillsOn journal.old journal.new) }

    // a put that failed
    ensures fails { OnErr result (FailsToPut addr desks.old desks.new tally.old tally.new journal.old
        journal.new) }
    ensures report { OnErr result (report.new ≡ report.old) }
    ensures link { OnErr result (link.new ≡ link.old) }

    // the disk
    ensures cause { HasCause (D.faults (journals.disk_of journal.old))
        (D.faults (journals.disk_of journal.new)) result }
    ensures goes_on { GoesOn D.size D.honest D.seen D.cuts (journals.disk_of journal.old)
        (journals.disk_of journal.new) }
    ensures takes { Takes D.below D.spent put_calls put_bytes (journals.disk_of journal.old)
        (journals.disk_of journal.new) }
{
    let due = desks.due_there(addr, found);
    put(journal, &due, tally.carry())?;
    desks.next_there(addr, found, &due, link, report);
    count(tally, &due);
    Ok(())
}

/// Puts the record that is due, if one is, into a journal that takes it, with the carry of those
/// before it.
fn put<D: Disk>(
    journal: &mut Journal<D>,
    due: &Option<Record>,
    so_far: &Carry,
) -> Result<(), Failed>
    requires whole { journals.has_failed journal.old ≡ false }
    requires encodable { IfSome due.now Encodable }
    requires room { IfSome due.now (λ r. journals.used_of journal.old < MOST_RECORDS) }
    requires rightly { IsRightly (journals.used_of journal.old) so_far.now }
    ensures puts { OnOk result (Puts due.now so_far.now journal.old journal.new) }
    ensures fills { OnOk result (FillsOn journal.old journal.new) }
    ensures fails { OnErr result (PutFails due.now so_far.now journal.old journal.new) }
    ensures cause { HasCause (D.faults (journals.disk_of journal.old))
        (D.faults (journals.disk_of journal.new)) result }
    ensures goes_on { GoesOn D.size D.honest D.seen D.cuts (journals.disk_of journal.old)
        (journals.disk_of journal.new) }
    ensures takes { Takes D.below D.spent put_calls put_bytes (journals.disk_of journal.old)
        (journals.disk_of journal.new) }
{
    match due {
        None => Ok(()),
        Some(entry) => match journal.put(entry, so_far) {
            Ok(()) => Ok(()),
            Err(JournalNo::Disk) => Err(Failed),
            Err(JournalNo::Full { .. }) => unreachable!(),
        },
    }
}

/// The tally counts the record that was put, if one was, and goes on by it. One that doesn't follow
/// those before it would be counted alone; a host puts none.
fn count(tally: &mut Tally<'_>, due: &Option<Record>)
    requires few { IfSome due.now (λ r. tallies.many_of tally.old < 2 ^ 32 - 1) }
    requires encodable { IfSome due.now Encodable }
    ensures setup { tallies.setup_of tally.new ≡ tallies.setup_of tally.old }
    ensures counted { tallies.many_of tally.new ≡ tallies.many_of tally.old
        + length (put_by due.now) }
    ensures adds { (before : List Record)
        → IfSome due.now (λ r. all_follow (tallies.setup_of tally.old) (r ∷ before) ≡ true)
        → tallies.carry_in tally.old ≡ carry (tallies.setup_of tally.old) before
        → tallies.carry_in tally.new ≡ carry (tallies.setup_of tally.old) (put_by due.now ++ before) }
{
    if let Some(entry) = due {
        tally.add(entry);
    }
}
