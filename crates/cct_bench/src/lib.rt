//! The bench: plays a script over the machine and writes the transcript, lists a journal or shows
//! its state, brings one of an earlier version forward, audits a capture, checks a script, or plays
//! a load and writes its sums.
#![tactic(auto)]

ghost use Rattle.std.specs.Prelude.{◌≡◌, ◌≢◌, ◌⊎◌, [], ◌∷◌, IfSome, List, None, Result, Some, true};
ghost use Rattle.std.specs.Prelude.{ℕ};
ghost use Rattle.cct_edge.specs.Bytes.{Serves};
ghost use Rattle.cct_edge.specs.declared.fault.Failed.{Failed};
ghost use Rattle.cct_edge.specs.Faults.{Rose};
ghost use Rattle.cct_model.specs.lines.carry.Carry.{Carry};
ghost use Rattle.cct_model.specs.lines.record.Record.{Record};
ghost use Rattle.cct_model.specs.Script.{script as script_in};
ghost use Rattle.cct_disk.specs.Disk.{OnlyReads};
ghost use Rattle.cct_journal.specs.Image.{HasFrom, IsBlank};
ghost use Rattle.cct_bench.specs.declared.play.TheConstants.{JOURNAL_BYTES};
ghost use Rattle.cct_bench.specs.Disks.{disks};
ghost use Rattle.cct_world.specs.Relying.{losses_in};
ghost use Rattle.cct_world.specs.Serving.{DiskServes};
ghost use Rattle.cct_bench.specs.SetupLines.{TookSetup};
ghost use Rattle.cct_script.specs.Source.{OfBytes};
ghost use Rattle.cct_text.specs.Writing.{Broke, Writes, Wrote};
ghost use Rattle.cct_gen.specs.Load.{load_steps};
ghost use Rattle.cct_audit.specs.Capture.{capture};
ghost use Rattle.cct_audit.specs.Writing.{BrokeLines, WritesLines, WroteLines};
ghost use Rattle.cct_bench.specs.Audit.{AuditRan};
ghost use Rattle.cct_bench.specs.Check.{CheckRan};
ghost use Rattle.cct_bench.specs.Load.{Loaded};
ghost use Rattle.cct_bench.specs.Report.{IsDecided, IsOrMemory, Reported, image_known};
ghost use Rattle.cct_bench.specs.Report.{records_known, size_known};
ghost use Rattle.cct_bench.specs.Run.{Ran, status_by, Completes};
ghost use Rattle.cct_bench.specs.State.{Stated, told_disk};
ghost use Rattle.cct_bench_state.specs.Known.{any_disk, of_image};
ghost use Rattle.cct_bench.specs.Upgrade.{MayGoForward, Upgraded, old_disk};
ghost use Rattle.cct_bench.specs.UpgradeScript.{upgrade_script};
ghost use Rattle.cct_bench.specs.CommandLine.{AreRefused, said_in};

use auditing::run_audit;
use cct_bench_load::Load;
use cct_disk::Disk;
use cct_edge::{Sink, Source};
use cct_model::Entry;
use cct_text::TextLine;
use ending::close;
use loading::run_load;
use play::Bench;
use proofreading::run_check;
use reporting::report;
use stating::run_state;
use std::alloc::Global;
use upgrading::run_upgrade;

mod auditing;
mod ending;
mod loading;
mod opening;
mod outcome;
mod play;
mod proofreading;
mod reporting;
mod stating;
mod steps;
mod upgrade_script;
mod upgrading;

pub use auditing::audit_capture;
pub use cct_bench_words::{Words, WordsNo, read_words};
pub use cct_monitor::{Family, Heard, Money, Monitor, Tally};
pub use outcome::Status;

/// Runs the program: by the words of the command line, without its name, plays a script and writes
/// the transcript (`docs/SCRIPT.md`, `docs/TRANSCRIPT.md`), lists the records of the journal and
/// their sums, says what it knows now, brings a journal of an earlier version forward for the
/// devices of a script, audits a capture (`docs/AUDIT.md`), shows each line of a script that is
/// refused, or plays a load and writes the sums over its transcript. The words are `run`, `report`,
/// `state`, `upgrade`, `audit`, `check`, or `load` with a seed and a number of rounds, 1 to 10,000;
/// any other list is refused.
///
/// The script is taken from its source a line at a time, and each step's entries are written before
/// the next line is read. All buffers are of fixed size, and are taken at once before the first
/// byte of the script; the machine is built after the line `begin`, before anything is written. A
/// report and a state only read the disk. A load builds its machine before anything is written, and
/// writes no entry of a step. Both take nothing of the script. An upgrade reads the script to its
/// end before it makes a call of the disk but for its length, and writes one line. An audit makes
/// no call of the disk.
pub fn bench<S: Source, K: Sink, D: Disk>(
    alloc: Global,
    words: &[String],
    script: &mut S,
    out: &mut K,
    disk: D,
) -> (Status, D)
    // With the word `run`: what was taken, played and written, of the bytes that the source shows,
    // or of some where it shows none; that over an honest wire the posts of each device are in
    // order and cover its coins, and each order of a hopper is paid at most once, where the disk
    // was trusted or no power cut is reported, and over any disk up to the first power cut; over
    // any disk, that after each power cut a host started again rightly, or why none did; and what
    // is left on the disk.
    ensures ran { said_in words.now ≡ Some Words.Run → OfBytes (S.left script.old) (λ bytes.
        Ran bytes result.0 (S.left script.new)
        (Wrote K.written K.puts out.old out.new) (Broke K.written K.puts out.old out.new)
        (disks D.size D.honest D.seen D.may_leave D.cuts D.cut_to disk result.1)
        (Rose (S.faults script.old) (S.faults script.new)) (Rose (D.faults disk) (D.faults result.1))) }

    // With the word `report`: what was written, by the image of the disk where that is reported, by
    // any carry and records that this has, and of any disk; that the disk was only read, and no
    // byte of the script was taken.
    ensures reported { said_in words.now ≡ Some Words.Report → (image : List ℕ) → D.seen disk ≡ Some image
        → Reported (image_known (D.size disk) (Rose (D.faults disk) (D.faults result.1)) image) result.0
        (λ lines answer. Writes K.written K.puts out.old lines answer out.new) }
    ensures report_every { said_in words.now ≡ Some Words.Report → (image : List ℕ) (base : ℕ) (carry : Carry)
        (rest : List Record) → D.seen disk ≡ Some image → HasFrom image base carry rest
        → Reported (records_known (D.size disk) (Rose (D.faults disk) (D.faults result.1)) base carry rest) result.0
        (λ lines answer. Writes K.written K.puts out.old lines answer out.new) }
    ensures report_lines { said_in words.now ≡ Some Words.Report → Reported (size_known (D.size disk) (Rose (D.faults disk) (D.faults result.1))) result.0
        (λ lines answer. Writes K.written K.puts out.old lines answer out.new) }
    ensures report_disk { said_in words.now ≡ Some Words.Report →
        OnlyReads D.size D.honest D.seen D.may_leave D.moment D.left_since D.cuts disk result.1 }
    ensures report_script { said_in words.now ≡ Some Words.Report → script.new ≡ script.old }

    // With the word `state`: what was taken of the script, and what was written, by the image of
    // the disk where that is reported, and of any disk; and that the disk was only read.
    ensures stated { said_in words.now ≡ Some Words.State → (image : List ℕ) → D.seen disk ≡ Some image
        → OfBytes (S.left script.old) (λ bytes.
        Stated (told_disk (D.size disk) (of_image image) (Rose (D.faults disk) (D.faults result.1)))
        (Rose (S.faults script.old) (S.faults script.new)) bytes result.0 (S.left script.new)
        (λ lines answer. WritesLines K.written K.puts out.old lines answer out.new)) }
    ensures state_lines { said_in words.now ≡ Some Words.State → OfBytes (S.left script.old) (λ bytes.
        Stated (told_disk (D.size disk) any_disk (Rose (D.faults disk) (D.faults result.1)))
        (Rose (S.faults script.old) (S.faults script.new)) bytes result.0 (S.left script.new)
        (λ lines answer. WritesLines K.written K.puts out.old lines answer out.new)) }
    ensures state_disk { said_in words.now ≡ Some Words.State →
        OnlyReads D.size D.honest D.seen D.may_leave D.moment D.left_since D.cuts disk result.1 }

    // With the word `upgrade`: what was taken of the script, the one line that was written and its
    // cause, and what a power cut may leave on the disk at each moment, and at the end where the
    // journal was brought forward.
    ensures upgraded { said_in words.now ≡ Some Words.Upgrade → OfBytes (S.left script.old) (λ bytes. Upgraded
        (old_disk D.size D.honest D.seen D.may_leave D.moment D.left_since D.cuts D.faults disk result.1)
        (Rose (S.faults script.old) (S.faults script.new)) bytes result.0 (S.left script.new)
        (λ lines answer. Writes K.written K.puts out.old lines answer out.new)) }

    // With the word `audit`: what was taken of the capture, what came of it, and what was written:
    // all that a monitor says of it, in its order, and a last line where it isn't done; that what
    // it says is true of any host's run with these taps, over an honest wire, sure wherever it can
    // be, and each span once. No call of the disk is made.
    ensures audited { said_in words.now ≡ Some Words.Audit → OfBytes (S.left script.old) (λ bytes.
        AuditRan bytes result.0 None (S.left script.new) (Rose (S.faults script.old) (S.faults script.new))
        (WroteLines K.written K.puts out.old out.new) (BrokeLines K.written K.puts out.old out.new)) }
    ensures audit_disk { said_in words.now ≡ Some Words.Audit → result.1 ≡ disk }

    // With the word `check`: what was taken of the script, and what was written: each line that is
    // refused, where those before it are left out. No call of the disk is made.
    ensures checked { said_in words.now ≡ Some Words.Check → OfBytes (S.left script.old) (λ bytes.
        CheckRan bytes result.0 (S.left script.new) (Rose (S.faults script.old) (S.faults script.new))
        (λ lines answer. Writes K.written K.puts out.old lines answer out.new)) }
    ensures check_disk { said_in words.now ≡ Some Words.Check → result.1 ≡ disk }

    // With the word `load`: what was played and written, the laws as with `run`, and what is left
    // on the disk; and no byte of the script was taken.
    ensures loaded { (seed rounds : ℕ) → said_in words.now ≡ Some (Words.Load seed rounds)
        → Loaded seed rounds result.0 (Wrote K.written K.puts out.old out.new) (Broke K.written K.puts out.old out.new)
        (disks D.size D.honest D.seen D.may_leave D.cuts D.cut_to disk result.1)
        (Rose (D.faults disk) (D.faults result.1)) }
    ensures load_script { (seed rounds : ℕ) → said_in words.now ≡ Some (Words.Load seed rounds)
        → script.new ≡ script.old }

    // Other words are refused by one put of a line, unless there is no memory to read them; no byte
    // of the script is taken, and no call of the disk is made.
    ensures words { AreRefused (said_in words.now) →
        ((answer : Result (Unit {0}) Failed) × Writes K.written K.puts out.old (Entry.Words ∷ []) answer out.new
        × (result.0 ≡ status_by answer Status.WordsRefused))
        ⊎ ((result.0 ≡ Status.OutOfMemory) × (out.new ≡ out.old)) }
    ensures words_script { AreRefused (said_in words.now) → script.new ≡ script.old }
    ensures words_disk { AreRefused (said_in words.now) → result.1 ≡ disk }

    // Each status has its cause.
    ensures read_cause { result.0 ≡ Status.ReadFault →
        Rose (S.faults script.old) (S.faults script.new) }
    ensures write_cause { result.0 ≡ Status.WriteFault →
        Rose (K.faults out.old) (K.faults out.new) }
    ensures disk_cause { result.0 ≡ Status.DiskFault → Rose (D.faults disk) (D.faults result.1) }
    ensures lost_cause { said_in words.now ≢ Some Words.Report → said_in words.now ≢ Some Words.State
        → said_in words.now ≢ Some Words.Upgrade → result.0 ≡ Status.JournalLost → Rose (D.cuts disk) (D.cuts result.1) }
    ensures upgrade_cause { result.0 ≡ Status.NotUpgraded → said_in words.now ≡ Some Words.Upgrade }
    ensures words_cause { result.0 ≡ Status.WordsRefused → AreRefused (said_in words.now) }
    ensures memory_cause { result.0 ≡ Status.OutOfMemory → out.new ≡ out.old }

    // Memory is wanted only before the first byte of the script is taken, or once its line `begin`
    // is held whole: from then on no byte was taken.
    ensures memory_place { result.0 ≡ Status.OutOfMemory →
        (script.new ≡ script.old) ⊎ TookSetup S.takes S.left script.old script.new }

    // Source, sink and disk show their bytes afterwards where they did before, and no count falls.
    ensures source_goes_on { Serves S.left S.faults script.old script.new ⊥ }
    ensures sink_goes_on { Serves K.written K.faults out.old out.new ⊥ }
    ensures disk_goes_on { DiskServes D.size D.honest D.seen D.cuts D.faults disk result.1 ⊥ ⊥ }

    // On a blank disk, which is honest or where no step is a power cut, and with no fault, the
    // script alone decides, but for want of memory.
    ensures complete { said_in words.now ≡ Some Words.Run → OfBytes (S.left script.old) (λ bytes.
        IfSome (D.seen disk) (λ image. D.size disk ≡ JOURNAL_BYTES → IsBlank image
        → (D.honest disk ≡ true) ⊎ (losses_in (script_in bytes).steps ≡ 0)
        → (Rose (S.faults script.old) (S.faults script.new) → ⊥) → (Rose (K.faults out.old) (K.faults out.new) → ⊥)
        → (Rose (D.faults disk) (D.faults result.1) → ⊥) → Completes (script_in bytes).refused result.0)) }

    // A report with no fault is decided by the size and the image of the disk, but for want of
    // memory.
    ensures report_complete { said_in words.now ≡ Some Words.Report → (image : List ℕ) → D.seen disk ≡ Some image
        → (Rose (K.faults out.old) (K.faults out.new) → ⊥) → (Rose (D.faults disk) (D.faults result.1) → ⊥)
        → IsDecided (D.size disk) image result.0 }

    // With no fault, and a script of which no line is refused, an upgrade brings forward what can
    // be, but for want of memory.
    ensures upgrade_complete { said_in words.now ≡ Some Words.Upgrade → OfBytes (S.left script.old) (λ bytes.
        (image : List ℕ) → D.seen disk ≡ Some image → D.size disk ≡ JOURNAL_BYTES
        → (upgrade_script bytes).refused ≡ None → MayGoForward (upgrade_script bytes).setup image
        → (Rose (S.faults script.old) (S.faults script.new) → ⊥) → (Rose (K.faults out.old) (K.faults out.new) → ⊥)
        → (Rose (D.faults disk) (D.faults result.1) → ⊥) → IsOrMemory Status.Done result.0) }

    // With no fault, and a capture of which no line is refused, an audit is done, but for want of
    // memory.
    ensures audit_complete { said_in words.now ≡ Some Words.Audit → OfBytes (S.left script.old) (λ bytes.
        (capture bytes).refused ≡ None → (Rose (S.faults script.old) (S.faults script.new) → ⊥)
        → (Rose (K.faults out.old) (K.faults out.new) → ⊥) → IsOrMemory Status.Done result.0) }

    // On a blank disk, which is honest or where no step is a power cut, and with no fault, a load
    // is done, but for want of memory.
    ensures load_complete { (seed rounds : ℕ) → said_in words.now ≡ Some (Words.Load seed rounds)
        → IfSome (D.seen disk) (λ image. D.size disk ≡ JOURNAL_BYTES → IsBlank image
        → (D.honest disk ≡ true) ⊎ (losses_in (load_steps seed rounds) ≡ 0)
        → (Rose (K.faults out.old) (K.faults out.new) → ⊥) → (Rose (D.faults disk) (D.faults result.1) → ⊥)
        → IsOrMemory Status.Done result.0) }
{
    match read_words(alloc, words) {
        Ok(Words::Run) => match Box::new(alloc, Bench::new()) {
            Ok(mut bench) => bench.run(alloc, script, out, disk),
            Err(_) => (Status::OutOfMemory, disk),
        },
        Ok(Words::Report) => report(out, &mut TextLine::new(), disk),
        Ok(Words::Upgrade) => run_upgrade(script, out, disk),
        Ok(Words::Audit) => (run_audit(script, out), disk),
        Ok(Words::Check) => (run_check(script, out), disk),
        Ok(Words::State) => run_state(script, out, disk),
        Ok(Words::Load { seed, rounds }) => run_load(alloc, Load { seed, rounds }, out, disk),
        Err(WordsNo::Refused) => (refuse_words(out), disk),
        Err(WordsNo::Memory) => (Status::OutOfMemory, disk),
    }
}

/// Says that the words are refused.
fn refuse_words<K: Sink>(out: &mut K) -> Status
    ensures told { (answer : Result (Unit {0}) Failed)
        × Writes K.written K.puts out.old (Entry.Words ∷ []) answer out.new
        × (result ≡ status_by answer Status.WordsRefused) }
    ensures cause { (result ≡ Status.WordsRefused) ⊎ ((result ≡ Status.WriteFault)
        × Rose (K.faults out.old) (K.faults out.new)) }
    ensures sink { Serves K.written K.faults out.old out.new ⊥ }
{
    close(
        out,
        &mut TextLine::new(),
        &Entry::Words,
        Status::WordsRefused,
    )
}
