//! A log is made a capture.

use crate::written::Written;
use cct_edge_slices::{Given, Page};
use cct_model_lines::DEVICES;
use cct_show_captured::{WatchNo, Watches, add_watch};
use cct_show_forms::{Status, write_capture};
use std::fmt::Write;

/// The exit status of `cct_show` where its words are refused.
const WORDS_REFUSED: u8 = 2;

/// Makes a log a capture, and writes what `cct_show capture` with these words would at the front of
/// `page`, and what it would say on standard error at the front of `notes`. Lines that wait are in
/// `held`. Answers its exit status, or 4 where `page`, `notes` or `held` has too little room; and
/// in `wrote` and `noted` how many bytes were written.
#[unsafe(no_mangle)]
pub extern "C" fn cct_capture(
    log: &[u8],
    words: &[u8],
    page: &mut [u8],
    notes: &mut [u8],
    held: &mut [u8],
    wrote: &mut u64,
    noted: &mut u64,
) -> u32 {
    let mut out = Page::new(page);
    let mut said = Page::new(notes);
    let code = match watches_in(str::from_utf8(words).unwrap_or("")) {
        Ok(watches) => {
            let held = Page::new(held);
            write_capture(watches, held, &mut Given::new(log), &mut out, &mut said).code()
        }
        Err(why) => {
            // A fault of the page is reported below.
            let _ = write!(Written(&mut said), "{why}\n");
            WORDS_REFUSED
        }
    };
    let code = if said.faults() == 0 {
        code
    } else {
        Status::WriteFault.code()
    };
    *wrote = out.used() as u64;
    *noted = said.used() as u64;
    u32::from(code)
}

/// The devices that words name, three for each, with a space between two.
fn watches_in(words: &str) -> Result<Watches, WatchNo<'_>> {
    let mut words = words.split(' ');
    let mut watches = Watches::new();
    for _ in 0..=DEVICES {
        let Some(addr) = words.next() else {
            break;
        };
        let (Some(check), Some(kind)) = (words.next(), words.next()) else {
            return Err(WatchNo::Count);
        };
        add_watch(&mut watches, addr, check, kind)?;
    }
    Ok(watches)
}
