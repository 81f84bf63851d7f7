//! A journal is listed, record by record.
ghost use Rattle.std.specs.Prelude.{◌≡◌, ◌<◌, ◌≤◌, ◌+◌, ℕ, List, Err, Some};
ghost use Rattle.cct_edge.specs.Bytes.{Serves};
ghost use Rattle.cct_edge.specs.Faults.{Caused, Rose};
ghost use Rattle.cct_model_lines.specs.declared.carry.Carry.{Carry};
ghost use Rattle.cct_model_lines.specs.declared.record.Record.{Record};
ghost use Rattle.cct_disk.specs.Disk.{OnlyReads};
ghost use Rattle.cct_journal.specs.Image.{HasFrom, least_size};
ghost use Rattle.cct_journal.specs.Journal as journals;
ghost use Rattle.cct_text.specs.Writing.{Writes};
ghost use Rattle.cct_bench_report.specs.Sums.{AreWithin, with_record};
ghost use Rattle.cct_bench_report.specs.Listing.{Decides, Finds, Lists, ListsOne, ListsSome};

use crate::sums::Sums;
use cct_disk::Disk;
use cct_edge::{Failed, Sink};
use cct_journal::{Journal, MOST_RECORDS, OpenNo, ReadNo};
use cct_model_lines::Entry;
use cct_text::{TextLine, write_entry};

/// How the listing of a journal came to its end.
#[derive(Debug, Drop)]
pub enum ReportEnd {
    /// All records and their sums were written.
    Done,
    /// Writing failed. What was written is a front of the listing.
    Unwritten,
    /// The journal wasn't read to its end: the disk has none, the body of the record of this index
    /// spells none, or a call of the disk failed. What was written are the lines of the first
    /// records that the journal keeps one by one, or none.
    Unread(OpenNo),
}

/// Lists the journal on a disk, which is only read: a line for each record that it keeps one by
/// one, numbered from how many stood before them, and then the line of the sums over these and
/// those, each by one put. The disk is given back.
///
/// [`OpenNo::Alien`] comes where the disk has fewer than 2,368 bytes, no half of it is open, or the
/// current one begins with no header and carry, and [`OpenNo::BadRecord`] at the first body after
/// an open gate of it that spells no record, where no shut gate is before it. Then nothing is
/// written, unless a later read of the disk gives other bytes than an earlier one.
pub fn list_journal<K: Sink, D: Disk>(out: &mut K, line: &mut TextLine, disk: D) -> (ReportEnd, D)
    // what the image of the disk has, and what was written of it
    ensures found { (image : List ℕ) → D.seen disk ≡ Some image →
        Finds result.0 image (out.new ≡ out.old) }
    // Each line by one put. If a put fails, a front of the listing is written, and if the disk
    // fails, whole lines of the first records.
    ensures every { (image : List ℕ) (base : ℕ) (carry : Carry) (rest : List Record) → D.seen disk ≡ Some image
        → HasFrom image base carry rest
        → Lists result.0 base carry rest (λ entries answer. Writes K.written K.puts out.old entries answer out.new) }

    // what was written, whether or not the disk shows its bytes: Of a disk that shows no bytes the
    // lines are the listing of some records, or of the first of some.
    ensures lines { ListsSome result.0 (λ entries answer. Writes K.written K.puts out.old entries
        answer out.new) }
    ensures short { D.size disk < least_size → result.0 ≡ ReportEnd.Unread OpenNo.Alien }

    // the disk and the sink; each end that isn't reported by the image has its cause
    ensures reads { OnlyReads D.size D.honest D.seen D.may_leave D.moment D.left_since D.cuts disk
        result.1 }
    ensures disk_cause { Caused (D.faults disk) (D.faults result.1)
        (result.0 ≡ ReportEnd.Unread OpenNo.Disk) }
    ensures sink { Serves K.written K.faults out.old out.new (result.0 ≡ ReportEnd.Unwritten) }

    // With no fault the image alone decides.
    ensures complete { (image : List ℕ) → D.seen disk ≡ Some image → (Rose (K.faults out.old) (K.faults out.new) → ⊥)
        → (Rose (D.faults disk) (D.faults result.1) → ⊥) → Decides result.0 image }
{
    match Journal::reopen(disk) {
        Ok((mut journal, _)) => {
            let how = list_records(out, line, &mut journal);
            (how, journal.into_disk())
        }
        Err((disk, why)) => (ReportEnd::Unread(why), disk),
    }
}

/// Lists the records of a journal that it keeps one by one, and then the sums over all.
fn list_records<K: Sink, D: Disk>(
    out: &mut K,
    line: &mut TextLine,
    journal: &mut Journal<D>,
) -> ReportEnd
    ensures lines { ListsSome result (λ entries answer. Writes K.written K.puts out.old entries
        answer out.new) }
    ensures every { (rest : List Record) → journals.JournalReadsFrom journal.old rest
        → Lists result (journals.base_of journal.old) (journals.carry_before journal.old) rest
        (λ entries answer. Writes K.written K.puts out.old entries answer out.new) }
    ensures reads { OnlyReads D.size D.honest D.seen D.may_leave D.moment D.left_since D.cuts
        (journals.disk_of journal.old) (journals.disk_of journal.new) }
    ensures disk_cause { Caused (D.faults (journals.disk_of journal.old)) (D.faults (journals.disk_of journal.new))
        (result ≡ ReportEnd.Unread OpenNo.Disk) }
    ensures sink { Serves K.written K.faults out.old out.new (result ≡ ReportEnd.Unwritten) }
{
    let mut sums = Sums::of(journal.carry());
    for index in journal.base()..journal.used() {
        match list_record(out, line, journal, index, &mut sums) {
            Ok(()) => {}
            Err(how) => return how,
        }
    }
    match write_entry(out, line, &sums.total()) {
        Ok(()) => ReportEnd::Done,
        Err(Failed) => ReportEnd::Unwritten,
    }
}

/// Lists one record of a journal, and adds it to the sums.
fn list_record<K: Sink, D: Disk>(
    out: &mut K,
    line: &mut TextLine,
    journal: &mut Journal<D>,
    index: u32,
    sums: &mut Sums,
) -> Result<(), ReportEnd>
    requires from { journals.base_of journal.old ≤ index }
    requires within { index < journals.used_of journal.old }
    requires few { index < MOST_RECORDS }
    requires small { AreWithin index sums.old }
    ensures lists { ListsOne (journals.JournalReadsFrom journal.old) (journals.base_of journal.old) index
        (λ entry. sums.new ≡ with_record entry sums.old)
        (λ entries answer. Writes K.written K.puts out.old entries answer out.new) (out.new ≡ out.old) result }
    ensures small { AreWithin (index + 1) sums.new }

    // the journal stays as it is
    ensures told { (rest : List Record) → journals.JournalReadsFrom journal.old rest
        → journals.JournalReadsFrom journal.new rest }
    ensures place { journals.place_of journal.new ≡ journals.place_of journal.old }
    ensures reads { OnlyReads D.size D.honest D.seen D.may_leave D.moment D.left_since D.cuts
        (journals.disk_of journal.old) (journals.disk_of journal.new) }
    ensures disk_cause { Caused (D.faults (journals.disk_of journal.old)) (D.faults (journals.disk_of journal.new))
        (result ≡ Err (ReportEnd.Unread OpenNo.Disk)) }

    // the sink
    ensures sink { Serves K.written K.faults out.old out.new (result ≡ Err ReportEnd.Unwritten) }
{
    let entry = match journal.read_at(index) {
        Ok(entry) => entry,
        Err(ReadNo::Disk) => return Err(ReportEnd::Unread(OpenNo::Disk)),
        Err(ReadNo::BadRecord { index }) => {
            return Err(ReportEnd::Unread(OpenNo::BadRecord { index }));
        }
    };
    sums.add(&entry);
    match write_entry(out, line, &Entry::Listing { index, entry }) {
        Ok(()) => Ok(()),
        Err(Failed) => Err(ReportEnd::Unwritten),
    }
}
