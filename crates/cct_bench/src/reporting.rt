//! A report: the journal on a disk is listed, and the disk is only read.
ghost use Rattle.std.specs.Prelude.{◌≡◌, ◌⊎◌, ℕ, List, Result, Some};
ghost use Rattle.cct_edge.specs.Bytes.{Serves};
ghost use Rattle.cct_edge.specs.declared.fault.Failed.{Failed};
ghost use Rattle.cct_edge.specs.Faults.{Caused, Rose};
ghost use Rattle.cct_model.specs.lines.carry.Carry.{Carry};
ghost use Rattle.cct_model.specs.lines.record.Record.{Record};
ghost use Rattle.cct_disk.specs.Disk.{OnlyReads};
ghost use Rattle.cct_journal.specs.Image.{HasFrom};
ghost use Rattle.cct_text.specs.Writing.{Writes};
ghost use Rattle.cct_bench.specs.Report.{IsDecided, IsOfReport, Reported, image_known, line_behind};
ghost use Rattle.cct_bench.specs.Report.{records_known, reported_by};
ghost use Rattle.cct_bench.specs.Report.{size_known};
ghost use Rattle.cct_bench.specs.Run.{status_by};

use crate::ending::close;
use crate::outcome::Status;
use crate::play::JOURNAL_BYTES;
use cct_bench_report::{ReportEnd, list_journal};
use cct_disk::Disk;
use cct_edge::Sink;
use cct_journal::OpenNo;
use cct_model::Entry;
use cct_text::TextLine;

/// Lists the journal on a disk, which it gives back, and writes the last line where the status has
/// one.
// In a frame of its own it takes no room where a script is played.
#[inline(never)]
pub fn report<K: Sink, D: Disk>(out: &mut K, line: &mut TextLine, disk: D) -> (Status, D)
    // what was written, by what the image of the disk is, and by the records that it has
    ensures reported { (image : List ℕ) → D.seen disk ≡ Some image → Reported (image_known (D.size disk) (Rose (D.faults disk) (D.faults result.1)) image) result.0
        (λ lines answer. Writes K.written K.puts out.old lines answer out.new) }
    ensures every { (image : List ℕ) (base : ℕ) (carry : Carry) (rest : List Record) → D.seen disk ≡ Some image
        → HasFrom image base carry rest
        → Reported (records_known (D.size disk) (Rose (D.faults disk) (D.faults result.1)) base carry rest) result.0
        (λ lines answer. Writes K.written K.puts out.old lines answer out.new) }

    // what was written, whether or not the disk shows its bytes
    ensures lines { Reported (size_known (D.size disk) (Rose (D.faults disk) (D.faults result.1))) result.0
        (λ lines answer. Writes K.written K.puts out.old lines answer out.new) }

    // the statuses of other words
    ensures own { IsOfReport result.0 }

    // the disk and the sink
    ensures reads { OnlyReads D.size D.honest D.seen D.may_leave D.moment D.left_since D.cuts disk
        result.1 }
    ensures disk_cause { Caused (D.faults disk) (D.faults result.1) (result.0 ≡ Status.DiskFault) }
    ensures sink { Serves K.written K.faults out.old out.new (result.0 ≡ Status.WriteFault) }

    // With no fault the size and the image decide.
    ensures complete { (image : List ℕ) → D.seen disk ≡ Some image → (Rose (K.faults out.old) (K.faults out.new) → ⊥)
        → (Rose (D.faults disk) (D.faults result.1) → ⊥) → IsDecided (D.size disk) image result.0 }
{
    let len = disk.len();
    if len != JOURNAL_BYTES {
        let status = close(out, line, &Entry::DiskSize { len }, Status::DiskSize);
        return (status, disk);
    }
    let (how, disk) = list_journal(out, line, disk);
    (finish_report(how, out, line), disk)
}

/// Ends a report whose listing ended so: its last line is written where it has one.
fn finish_report<K: Sink>(how: ReportEnd, out: &mut K, line: &mut TextLine) -> Status
    ensures writes { (answer : Result (Unit {0}) Failed)
        × Writes K.written K.puts out.old (line_behind how) answer out.new
        × (result ≡ status_by answer (reported_by how)) }
    ensures cause { (result ≡ reported_by how) ⊎ ((result ≡ Status.WriteFault)
        × Rose (K.faults out.old) (K.faults out.new)) }
    ensures unwritten { result ≡ Status.WriteFault → (how ≡ ReportEnd.Unwritten)
        ⊎ Rose (K.faults out.old) (K.faults out.new) }
    ensures disk { result ≡ Status.DiskFault → how ≡ ReportEnd.Unread OpenNo.Disk }
    ensures own { IsOfReport result }
    ensures sink { Serves K.written K.faults out.old out.new ⊥ }
{
    match how {
        ReportEnd::Done => Status::Done,
        ReportEnd::Unwritten => Status::WriteFault,
        ReportEnd::Unread(OpenNo::Disk) => {
            close(out, line, &Entry::DiskFault, Status::DiskFault)
        }
        ReportEnd::Unread(OpenNo::Alien) => {
            close(out, line, &Entry::JournalAlien, Status::JournalLost)
        }
        ReportEnd::Unread(OpenNo::BadRecord { index }) => {
            close(out, line, &Entry::JournalBad { index }, Status::JournalLost)
        }
    }
}
