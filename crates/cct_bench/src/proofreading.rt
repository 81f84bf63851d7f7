//! A script is proofread, with the last line where reading it failed.
ghost use Rattle.std.specs.Prelude.{◌≡◌};
ghost use Rattle.cct_edge.specs.Bytes.{Serves};
ghost use Rattle.cct_edge.specs.Faults.{Rose};
ghost use Rattle.cct_script.specs.Source.{OfBytes};
ghost use Rattle.cct_text.specs.Writing.{Writes};
ghost use Rattle.cct_bench.specs.Check.{CheckRan, IsOfCheck};

use crate::ending::close;
use crate::outcome::Status;
use cct_edge::{Sink, Source};
use cct_model::Entry;
use cct_script_check::{ProofEnd, proofread};
use cct_text::TextLine;

/// Proofreads a script, and writes the last line where reading it failed.
// In a frame of its own it takes no room where a script is played.
#[inline(never)]
pub fn run_check<S: Source, K: Sink>(script: &mut S, out: &mut K) -> Status
    ensures checked { OfBytes (S.left script.old) (λ bytes. CheckRan bytes result (S.left script.new)
        (Rose (S.faults script.old) (S.faults script.new))
        (λ lines answer. Writes K.written K.puts out.old lines answer out.new)) }
    ensures own { IsOfCheck result }
    ensures source { Serves S.left S.faults script.old script.new (result ≡ Status.ReadFault) }
    ensures sink { Serves K.written K.faults out.old out.new (result ≡ Status.WriteFault) }
{
    let mut line = TextLine::new();
    match proofread(script, out, &mut line) {
        ProofEnd::Clean => Status::Done,
        ProofEnd::Told => Status::ScriptRefused,
        ProofEnd::Unread => close(out, &mut line, &Entry::ReadFault, Status::ReadFault),
        ProofEnd::Unwritten => Status::WriteFault,
    }
}
