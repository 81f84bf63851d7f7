//! A last line is explained.

use crate::written::Written;
use cct_advice::{KeptSource, advise};
use cct_edge::{Failed, Source};
use cct_edge_slices::{Given, Page};
use std::fmt::Write;

/// How many bytes of a text are taken in one call at most.
const CHUNK: usize = 4096;

/// Explains the last line of a transcript, or of an audit where `is_audit` isn't 0; `text` is the
/// script or capture, or its front to the end of a line that is refused. What `cct_main` would say
/// on standard error is written at the front of `page`, and in `wrote` how many bytes these are:
/// none where the line says all itself. Answers 0, or 4 where there is too little room.
#[unsafe(no_mangle)]
pub extern "C" fn cct_advise<'a>(
    is_audit: u32,
    text: &'a [u8],
    last: &'a [u8],
    page: &mut [u8],
    wrote: &mut u64,
) -> u32 {
    let mut source = match is_audit {
        0 => KeptSource::new(Given::new(text)),
        _ => KeptSource::of_capture(Given::new(text)),
    };
    take_all(&mut source);
    let mut out = Page::new(page);
    if let Some(advice) = advise(last, source.window(), "") {
        // A fault of the page is reported below.
        let _ = write!(Written(&mut out), "{advice}\n");
    }
    *wrote = out.used() as u64;
    if out.faults() == 0 { 0 } else { 4 }
}

/// Takes all bytes of a source.
fn take_all<S: Source>(source: &mut S) {
    let mut room = [0; CHUNK];
    for _ in 0..u64::MAX {
        match source.take(&mut room) {
            Ok(0) | Err(Failed) => break,
            Ok(_) => {}
        }
    }
}
