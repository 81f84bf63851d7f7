//! A script is played.

use cct_bench::{Status, bench};
use cct_disk::MemDisk;
use cct_edge_slices::{Given, Page};
use std::alloc::{AllocError, Global};

/// How many bytes a disk has that a journal is created on.
const DISK: u64 = 2_097_152;

/// Plays a script over a blank disk in memory, and writes its transcript at the front of `page`.
/// Answers the exit status that the program would have, and in `wrote` how many bytes were written.
#[unsafe(no_mangle)]
pub extern "C" fn cct_play(alloc: Global, script: &[u8], page: &mut [u8], wrote: &mut u64) -> u32 {
    let mut sink = Page::new(page);
    let status = match play(alloc, &mut Given::new(script), &mut sink) {
        Ok(status) => status,
        Err(_) => Status::OutOfMemory,
    };
    *wrote = sink.used() as u64;
    u32::from(status.code())
}

/// Plays a script over a blank disk.
fn play(alloc: Global, script: &mut Given<'_>, page: &mut Page<'_>) -> Result<Status, AllocError> {
    let mut words = Vec::new(alloc);
    words.push(String::from_str(alloc, "run")?)?;
    let disk = MemDisk::new(alloc, DISK, Vec::new(alloc))?;
    let (status, _) = bench(alloc, words.as_slice(), script, page, disk);
    Ok(status)
}
