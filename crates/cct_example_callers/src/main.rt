//! Callers, to be copied (`docs/CALLERS.md` shows them step by step). The program itself is one: a
//! machine whose setup is in the program, and whose steps come from standard input. The others are
//! tests: a coin acceptor, a hopper, a journal whose power is cut, a disk over a memory part, a
//! host over a serial line, and single messages.
#![tactic(auto)]

#[cfg(test)]
mod acceptor;
mod fixed;
#[cfg(test)]
mod hopper;
#[cfg(test)]
mod host;
#[cfg(test)]
mod journal;
#[cfg(test)]
mod messages;
#[cfg(test)]
mod part;
#[cfg(test)]
mod texts;

use cct_bench::{Status, bench};
use cct_disk::MemDisk;
use cct_edge::{StdSink, StdSource};
use fixed::AfterSetup;
use std::alloc::{AllocError, AllocGlobal};
use std::io;
use std::process::ExitCode;

/// How many bytes a disk has that a script is played over.
const DISK: u64 = 2_097_152;

fn main(rt: HostRuntime) -> ExitCode {
    let status = play(&rt).unwrap_or(Status::OutOfMemory);
    ExitCode::from(status.code())
}

/// Plays the steps on standard input over a blank disk, and then lists the records that stand
/// there.
fn play(rt: &HostRuntime) -> Result<Status, AllocError> {
    let alloc = rt.alloc();
    let run = vec![in alloc; String::from_str(alloc, "run")?]?;
    let report = vec![in alloc; String::from_str(alloc, "report")?]?;
    let blank = MemDisk::new(alloc, DISK, Vec::new(alloc))?;
    let mut script = AfterSetup::new(StdSource::new(rt.reader()));
    let mut out = StdSink::new(io::writer(rt));

    let (played, disk) = bench(alloc, run.as_slice(), &mut script, &mut out, blank);
    let (listed, _) = bench(alloc, report.as_slice(), &mut script, &mut out, disk);
    Ok(match played {
        Status::Done => listed,
        _ => played,
    })
}
