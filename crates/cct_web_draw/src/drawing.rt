//! Lines are drawn.

use cct_edge_slices::{Given, Page};
use cct_show_forms::{Part, show_page, show_picture};
use std::alloc::Global;

/// All lines.
const WHOLE: Part = Part {
    from: 1,
    to: u64::MAX,
};

/// Draws lines, and writes what `cct_show svg` would at the front of `page`. Answers its exit
/// status, and in `wrote` how many bytes were written.
#[unsafe(no_mangle)]
pub extern "C" fn cct_picture(
    alloc: Global,
    lines: &[u8],
    page: &mut [u8],
    wrote: &mut u64,
) -> u32 {
    let mut out = Page::new(page);
    let status = show_picture(alloc, WHOLE, &mut Given::new(lines), &mut out);
    *wrote = out.used() as u64;
    u32::from(status.code())
}

/// The same with what `cct_show html` would write.
#[unsafe(no_mangle)]
pub extern "C" fn cct_html(alloc: Global, lines: &[u8], page: &mut [u8], wrote: &mut u64) -> u32 {
    let mut out = Page::new(page);
    let status = show_page(alloc, &mut Given::new(lines), &mut out);
    *wrote = out.used() as u64;
    u32::from(status.code())
}
