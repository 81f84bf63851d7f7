//! The bars beside the taps of which a monitor says something.

use crate::element::{begin_path, push_numbered};
use crate::layout::{ROW_HEIGHT, row_top};
use crate::row::{Row, Scene};
use crate::shape::bar_class;
use crate::{Mark, Verdict};
use cct_edge::Sink;
use cct_show_pen::Pen;

/// From a lane to the bar beside it.
const BESIDE: u32 = 8;

/// What a monitor says of the device at an address, from one tap to another.
#[derive(Clone, Copy)]
struct Span {
    addr: u8,
    verdict: Verdict,
    first: u64,
    last: u64,
}

/// Draws beside the rows of a page what a monitor says of their taps: what it says is in any of all
/// rows.
pub(crate) fn draw_spans<K: Sink>(
    pen: &mut Pen<'_, K>,
    scene: &Scene<'_>,
    rows: &[Row],
    all: &[Row],
) {
    let Some(least) = rows.iter().filter_map(|row| row.place.tap).next() else {
        return;
    };
    let most = rows
        .iter()
        .filter_map(|row| row.place.tap)
        .last()
        .unwrap_or(least);
    for row in all {
        if let Some(span) = span_in(&row.mark)
            && span.first <= most
            && least <= span.last
        {
            draw_span(pen, scene, rows, &span);
        }
    }
}

/// The span that a mark shows, if it shows one.
fn span_in(mark: &Mark) -> Option<Span> {
    match mark {
        Mark::Told {
            addr,
            verdict,
            first,
            last,
            ..
        } => Some(Span {
            addr: *addr,
            verdict: *verdict,
            first: u64::from(*first),
            last: u64::from(*last),
        }),
        _ => None,
    }
}

/// Draws the bar of a span beside the rows of a page, if any of them is within it.
fn draw_span<K: Sink>(pen: &mut Pen<'_, K>, scene: &Scene<'_>, rows: &[Row], span: &Span) {
    let is_within = |row: &Row| match row.place.tap {
        Some(tap) => span.first <= tap && tap <= span.last,
        None => false,
    };
    let Some(first) = rows.iter().position(is_within) else {
        return;
    };
    let count = rows.iter().filter(|row| is_within(row)).count();
    let lane = scene.lanes.place(span.addr).saturating_add(BESIDE);
    let end = first.saturating_add(count).saturating_sub(1);
    begin_path(pen, bar_class(span.verdict), lane, row_top(first));
    push_numbered(
        pen,
        b"V",
        row_top(end).saturating_add(ROW_HEIGHT),
        b"\"/>\n",
    );
}
