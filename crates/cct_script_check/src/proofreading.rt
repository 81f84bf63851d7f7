//! A script is proofread, from its first line to its last.
ghost use Rattle.std.specs.Prelude.{◌≡◌, ◌≢◌, ◌∷◌, [], List, ℕ, IsErr, Option};
ghost use Rattle.cct_edge.specs.Bytes.{Serves};
ghost use Rattle.cct_script.specs.Source.{OfBytes};
ghost use Rattle.cct_text.specs.Writing.{Writes, Wrote};
ghost use Rattle.cct_model_lines.specs.Script.{at_end, no_devices};
ghost use Rattle.cct_model_lines.specs.terms.device.Setup.{Setup};
ghost use Rattle.cct_script.specs.Giving.{none_given, standing_of};
ghost use Rattle.cct_script_check.specs.Going.{Closes, Going, end_of};
ghost use Rattle.cct_script_check.specs.Parts.{is_refused, looked_lines, part_by};
ghost use Rattle.cct_script_check.specs.Proof.{Proofread};

use crate::reading::look_on;
use crate::taking::{Looked, Part};
use cct_edge::{Failed, Sink, Source};
use cct_model_lines::{Devices, Entry, LineKind, Setup, Step};
use cct_script::{Lines, ScriptStop, behind_end};
use cct_text::{TextLine, write_entry};

/// How the proofreading of a script came to its end.
#[derive(Clone, Copy, PartialEq, Eq)]
pub enum ProofEnd {
    /// No line of it is refused.
    Clean,
    /// Each line that is refused was reported.
    Told,
    /// Reading failed.
    Unread,
    /// Writing failed. What was written is a front of the refusals.
    Unwritten,
}

/// Reads a script to its end, and writes a line for each line of it that is refused, as a run
/// writes it. A refused line is left out, and the lines after it are read as if it weren't there;
/// only its number is counted. A line too long, the first one after `end` and the first one too
/// many are reported last: the script is read no further.
pub fn proofread<S: Source, K: Sink>(script: &mut S, out: &mut K, line: &mut TextLine) -> ProofEnd
    ensures told { OfBytes (S.left script.old) (λ bytes. Proofread bytes result (S.left script.new)
        (λ lines answer. Writes K.written K.puts out.old lines answer out.new)) }
    ensures source { Serves S.left S.faults script.old script.new (result ≡ ProofEnd.Unread) }
    ensures sink { Serves K.written K.faults out.old out.new (result ≡ ProofEnd.Unwritten) }
{
    let mut lines = Lines::new();
    let mut setup = Setup {
        devices: Devices::new(),
    };
    look_all(&mut lines, &mut setup, script, out, line)
}

/// Reads all lines of a script, and shows those that are refused.
fn look_all<S: Source, K: Sink>(
    lines: &mut Lines,
    setup: &mut Setup,
    script: &mut S,
    out: &mut K,
    line: &mut TextLine,
) -> ProofEnd
    requires lines { standing_of lines.old ≡ none_given }
    requires setup { setup.old ≡ no_devices }
    ensures told { OfBytes (S.left script.old) (λ bytes. Proofread bytes result (S.left script.new)
        (λ lines answer. Writes K.written K.puts out.old lines answer out.new)) }
    ensures source { Serves S.left S.faults script.old script.new (result ≡ ProofEnd.Unread) }
    ensures sink { Serves K.written K.faults out.old out.new (result ≡ ProofEnd.Unwritten) }
{
    let mut step = Step::End;
    let mut part = Part::Setup;
    let mut has_told = false;
    let mut number = 1;
    'looks: loop {
        let looked = match look_on(lines, part, setup, &mut step, number, script) {
            Ok(looked) => looked,
            Err(why) => return close(out, line, number, why),
        };
        match tell_looked(out, line, number, looked) {
            Ok(()) => {}
            Err(Failed) => return ProofEnd::Unwritten,
        }
        match part_by(part, looked) {
            Some(next) => part = next,
            None => return finish(lines, has_told, number + 1, script, out, line),
        }
        has_told = is_refused(looked) || has_told;
        number += 1;
    }
}

/// Which lines stand after a line that was looked at, or none at the script's end.
fn part_by(part: Part, looked: Looked) -> Option<Part>
    ensures { result ≡ part_by part looked }
{
    match looked {
        Looked::Goes(next) => Some(next),
        Looked::Ends => None,
        Looked::Refused(_) => Some(part),
    }
}

/// Whether a line that was looked at is refused.
fn is_refused(looked: Looked) -> bool
    ensures { result ≡ is_refused looked }
{
    matches!(looked, Looked::Refused(_))
}

/// Reports a line that was looked at, where it is refused.
#[tactic(auto, using(cct_text::proofs::Writing::wrote_none))]
fn tell_looked<K: Sink>(
    out: &mut K,
    line: &mut TextLine,
    number: u32,
    looked: Looked,
) -> Result<(), Failed>
    ensures told { Writes K.written K.puts out.old (looked_lines number looked) result out.new }
    ensures sink { Serves K.written K.faults out.old out.new (IsErr result) }
{
    match looked {
        Looked::Goes(_) => Ok(()),
        Looked::Ends => Ok(()),
        Looked::Refused(kind) => tell(out, line, number, kind),
    }
}

/// Ends the proofreading of a script after its line `end`, where the next line has this number.
fn finish<S: Source, K: Sink>(
    lines: &mut Lines,
    has_told: bool,
    number: u32,
    script: &mut S,
    out: &mut K,
    line: &mut TextLine,
) -> ProofEnd
    ensures told { (left0 : Option (List ℕ)) (setup : Setup) (before : K)
        → Going left0 (S.left script.old) (standing_of lines.old).held number (at_end setup) (end_of has_told)
        (Wrote K.written K.puts before out.old)
        → OfBytes left0 (λ bytes. Proofread bytes result (S.left script.new)
        (λ lines answer. Writes K.written K.puts before lines answer out.new)) }
    ensures source { Serves S.left S.faults script.old script.new (result ≡ ProofEnd.Unread) }
    ensures sink { Serves K.written K.faults out.old out.new (result ≡ ProofEnd.Unwritten) }
{
    match behind_end(lines.line(script)) {
        Ok(()) => end_of(has_told),
        Err(why) => close(out, line, number, why),
    }
}

/// How the proofreading of a script ends that is read to its end.
fn end_of(has_told: bool) -> ProofEnd
    ensures is { result ≡ end_of has_told }
    ensures read { result ≢ ProofEnd.Unread }
    ensures written { result ≢ ProofEnd.Unwritten }
{
    if has_told {
        ProofEnd::Told
    } else {
        ProofEnd::Clean
    }
}

/// Reports a line that is refused.
#[tactic(auto, using(cct_text::proofs::Writing::writes_one))]
fn tell<K: Sink>(
    out: &mut K,
    line: &mut TextLine,
    number: u32,
    kind: LineKind,
) -> Result<(), Failed>
    ensures told { Writes K.written K.puts out.old (Entry.Line number kind ∷ []) result out.new }
    ensures sink { Serves K.written K.faults out.old out.new (IsErr result) }
{
    write_entry(out, line, &Entry::Line { number, kind })
}

/// Ends the proofreading of a script that is read no further.
fn close<K: Sink>(out: &mut K, line: &mut TextLine, number: u32, why: ScriptStop) -> ProofEnd
    ensures closes { Closes why result number (λ lines answer. Writes K.written K.puts out.old lines answer out.new)
        (out.new ≡ out.old) }
    ensures unread { result ≡ ProofEnd.Unread → why ≡ ScriptStop.Unread }
    ensures sink { Serves K.written K.faults out.old out.new (result ≡ ProofEnd.Unwritten) }
{
    match why {
        ScriptStop::Unread => ProofEnd::Unread,
        ScriptStop::Refused(kind) => match tell(out, line, number, kind) {
            Ok(()) => ProofEnd::Told,
            Err(Failed) => ProofEnd::Unwritten,
        },
    }
}
