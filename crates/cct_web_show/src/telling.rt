//! Lines are reported in words.

use cct_edge_slices::{Given, Page};
use cct_show_forms::show_text;

/// Says what lines say, and writes what `cct_show text` would at the front of `page`. Answers its
/// exit status, and in `wrote` how many bytes were written.
#[unsafe(no_mangle)]
pub extern "C" fn cct_bench_words(lines: &[u8], page: &mut [u8], wrote: &mut u64) -> u32 {
    let mut out = Page::new(page);
    let status = show_text(&mut Given::new(lines), &mut out, &mut Page::new(&mut []));
    *wrote = out.used() as u64;
    u32::from(status.code())
}
