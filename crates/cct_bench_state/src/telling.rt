//! What a journal knows is read off it, and written.
ghost use Rattle.std.specs.Prelude.{◌≡◌, ◌+◌, ◌≤◌, ◌<◌, ℕ, List, Err, IfErr, IfOk, IfSome, OnOk};
ghost use Rattle.std.specs.Prelude.{Some, option_map};
ghost use Rattle.cct_audit.specs.Writing.{WritesLines};
ghost use Rattle.cct_disk.specs.Disk.{OnlyReads};
ghost use Rattle.cct_edge.specs.Bytes.{Serves};
ghost use Rattle.cct_edge.specs.Faults.{Caused, Rose};
ghost use Rattle.cct_journal.specs.Journal as journals;
ghost use Rattle.cct_model.specs.Setup.{IsSoundSetup};
ghost use Rattle.cct_model.specs.lines.record.Record.{Record};
ghost use Rattle.cct_bench_state.specs.Known.{any_disk, of_image};
ghost use Rattle.cct_bench_state.specs.Reading.{AreReady, IsGathered, ReadsOne, RefusesRead};
ghost use Rattle.cct_bench_state.specs.Reading.{TellsRead};
ghost use Rattle.cct_bench_state.specs.Telling.{Decides, Tells};

use crate::books::Books;
use crate::money::Misfit;
use crate::writing::write_state;
use cct_disk::Disk;
use cct_edge::{Failed, Sink};
use cct_journal::{Journal, MOST_RECORDS, OpenNo, ReadNo};
use cct_model::Setup;
use cct_text::TextLine;

/// How the writing of a state came to its end.
#[derive(Drop)]
pub enum StateEnd {
    /// The whole state was written.
    Done,
    /// Writing failed. What was written is a front of the state.
    Unwritten,
    /// Nothing was written: the disk has no journal, a call of it failed, or the record of this
    /// index spells none or, by the setup, doesn't follow. Where the carry doesn't fit the setup,
    /// that is the first index after it.
    Unread(OpenNo),
}

/// Says what the journal on a disk knows now, a line by each put; the disk is only read, and given
/// back. By a setup the money is reported too, and a journal that another machine wrote is refused.
///
/// Nothing is written before the last record is read.
pub fn tell_state<K: Sink, D: Disk>(
    out: &mut K,
    line: &mut TextLine,
    setup: Option<&Setup>,
    disk: D,
) -> (StateEnd, D)
    requires sound { IfSome setup (λ setup. IsSoundSetup setup.now) }
    // what the image of the disk shows, and what was written of it
    ensures told { (image : List ℕ) → D.seen disk ≡ Some image
        → Tells (of_image image) (option_map (λ s. s.now) setup.entry) result.0
        (λ lines answer. WritesLines K.written K.puts out.old lines answer out.new) }
    // Of a disk that shows no bytes the lines are the state of some records.
    ensures lines { Tells any_disk (option_map (λ s. s.now) setup.entry) result.0
        (λ lines answer. WritesLines K.written K.puts out.old lines answer out.new) }

    // the disk and the sink; each end that isn't reported by the image has its cause
    ensures reads { OnlyReads D.size D.honest D.seen D.may_leave D.moment D.left_since D.cuts disk
        result.1 }
    ensures disk_cause { Caused (D.faults disk) (D.faults result.1)
        (result.0 ≡ StateEnd.Unread OpenNo.Disk) }
    ensures sink { Serves K.written K.faults out.old out.new (result.0 ≡ StateEnd.Unwritten) }

    // With no fault the image alone decides.
    ensures complete { (image : List ℕ) → D.seen disk ≡ Some image → (Rose (K.faults out.old) (K.faults out.new) → ⊥)
        → (Rose (D.faults disk) (D.faults result.1) → ⊥)
        → Decides (option_map (λ s. s.now) setup.entry) result.0 image }
{
    match Journal::reopen(disk) {
        Ok((mut journal, _)) => {
            let how = tell_journal(out, line, setup, &mut journal);
            (how, journal.into_disk())
        }
        Err((disk, why)) => (StateEnd::Unread(why), disk),
    }
}

/// Says what a journal knows.
fn tell_journal<K: Sink, D: Disk>(
    out: &mut K,
    line: &mut TextLine,
    setup: Option<&Setup>,
    journal: &mut Journal<D>,
) -> StateEnd
    requires sound { IfSome setup (λ setup. IsSoundSetup setup.now) }
    ensures told { TellsRead (journals.JournalReadsFrom journal.old) (option_map (λ s. s.now) setup.entry)
        (journals.base_of journal.old) (journals.carry_before journal.old) result
        (λ lines answer. WritesLines K.written K.puts out.old lines answer out.new) }
    ensures reads { OnlyReads D.size D.honest D.seen D.may_leave D.moment D.left_since D.cuts
        (journals.disk_of journal.old) (journals.disk_of journal.new) }
    ensures disk_cause { Caused (D.faults (journals.disk_of journal.old)) (D.faults (journals.disk_of journal.new))
        (result ≡ StateEnd.Unread OpenNo.Disk) }
    ensures sink { Serves K.written K.faults out.old out.new (result ≡ StateEnd.Unwritten) }
{
    match gather(setup, journal) {
        Ok(books) => match write_state(out, line, &books) {
            Ok(()) => StateEnd::Done,
            Err(Failed) => StateEnd::Unwritten,
        },
        Err(why) => StateEnd::Unread(why),
    }
}

/// The books over all records of a journal.
fn gather<'s, D: Disk>(
    setup: Option<&'s Setup>,
    journal: &mut Journal<D>,
) -> Result<Books<'s>, OpenNo>
    requires sound { IfSome setup (λ setup. IsSoundSetup setup.now) }
    ensures all { IfOk result (IsGathered (journals.JournalReadsFrom journal.old) (option_map (λ s. s.now) setup.entry)
        (journals.carry_before journal.old)) }
    ensures refused { IfErr result (RefusesRead (journals.JournalReadsFrom journal.old) (option_map (λ s. s.now) setup.entry)
        (journals.base_of journal.old) (journals.carry_before journal.old)) }
    ensures reads { OnlyReads D.size D.honest D.seen D.may_leave D.moment D.left_since D.cuts
        (journals.disk_of journal.old) (journals.disk_of journal.new) }
    ensures disk_cause { Caused (D.faults (journals.disk_of journal.old)) (D.faults (journals.disk_of journal.new))
        (result ≡ Err OpenNo.Disk) }
{
    let base = journal.base();
    let mut books = match Books::of(setup, base, journal.carry()) {
        Ok(books) => books,
        Err(Misfit) => return Err(OpenNo::BadRecord { index: base }),
    };
    for index in base..journal.used() {
        match read_on(journal, index, &mut books) {
            Ok(()) => {}
            Err(why) => return Err(why),
        }
    }
    Ok(books)
}

/// Reads one record of a journal, and keeps the books on by it.
fn read_on<D: Disk>(
    journal: &mut Journal<D>,
    index: u32,
    books: &mut Books<'_>,
) -> Result<(), OpenNo>
    requires from { journals.base_of journal.old ≤ index }
    requires within { index < journals.used_of journal.old }
    requires few { index < MOST_RECORDS }
    requires ready { AreReady index books.old }
    ensures one { ReadsOne (journals.JournalReadsFrom journal.old) (journals.base_of journal.old) index books.old books.new
        result }
    ensures ready { OnOk result (AreReady (index + 1) books.new) }

    // the journal stays as it is
    ensures told { (rest : List Record) → journals.JournalReadsFrom journal.old rest
        → journals.JournalReadsFrom journal.new rest }
    ensures place { journals.place_of journal.new ≡ journals.place_of journal.old }
    ensures reads { OnlyReads D.size D.honest D.seen D.may_leave D.moment D.left_since D.cuts
        (journals.disk_of journal.old) (journals.disk_of journal.new) }
    ensures disk_cause { Caused (D.faults (journals.disk_of journal.old)) (D.faults (journals.disk_of journal.new))
        (result ≡ Err OpenNo.Disk) }
{
    let entry = match journal.read_at(index) {
        Ok(entry) => entry,
        Err(ReadNo::Disk) => return Err(OpenNo::Disk),
        Err(ReadNo::BadRecord { index }) => return Err(OpenNo::BadRecord { index }),
    };
    match books.add(&entry) {
        Ok(()) => Ok(()),
        Err(Misfit) => Err(OpenNo::BadRecord { index }),
    }
}
