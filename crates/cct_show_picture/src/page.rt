//! The frame of a picture, and its pages.

use crate::element::{begin_path, begin_text, end_text, push_numbered, push_pair};
use crate::layout::{
    HEAD_HEIGHT, HOST_LANE, LANE_TOP, Lanes, NAMES_EVERY, NAMES_TOP, ROW_HEIGHT, TITLE_START,
    rows_height,
};
use crate::look::LOOKS;
use crate::row::{Row, Scene, draw_row};
use crate::shape::Caption;
use crate::span::draw_spans;
use cct_edge::Sink;
use cct_show_pen::Pen;

/// What texts look like, and paths but for what their classes say.
const STYLE: &[u8] = b"\
text{font:10px monospace;fill:#000}\
path{fill:none;stroke:#000;stroke-width:1.3}\
.number,.host,.look,.note,.crashed{text-anchor:end}\
.number,.time{fill:#777}\
.time{font-size:9px}\
.look{fill:#c00;font-weight:bold}\
.note{fill:#666}\
.crashed{fill:#fff;font-weight:bold}\
.name{text-anchor:middle;font-size:12px;font-weight:bold}\
.title{font-size:12px}";

/// Which page of a picture, by its index and how many there are.
#[derive(Clone, Copy)]
pub(crate) struct PageNumber {
    pub(crate) index: u32,
    pub(crate) count: u32,
}

/// Begins a picture of this size, on white.
pub(crate) fn begin_picture<K: Sink>(pen: &mut Pen<'_, K>, width: u32, height: u32) {
    push_pair(
        pen,
        b"<svg xmlns=\"http://www.w3.org/2000/svg\" width=\"",
        width,
        b"\" height=\"",
        height,
        b"\"",
    );
    push_pair(pen, b" viewBox=\"0 0 ", width, b" ", height, b"\">\n");
    write_style(pen);
    pen.push(b"<rect width=\"100%\" height=\"100%\" fill=\"#fff\"/>\n");
    pen.flush();
}

/// Writes what everything looks like.
fn write_style<K: Sink>(pen: &mut Pen<'_, K>) {
    pen.push(b"<style>");
    pen.push(STYLE);
    for look in &LOOKS {
        pen.push(b"path.");
        pen.push(look.class);
        pen.push(b"{");
        pen.push(look.style);
        pen.push(b"}");
    }
    pen.push(b"</style>\n");
}

/// Draws a page: its title, its lanes, and its rows, of all rows of the picture.
pub(crate) fn draw_page<K: Sink>(
    pen: &mut Pen<'_, K>,
    scene: &Scene<'_>,
    page: PageNumber,
    rows: &[Row],
    all: &[Row],
) {
    let lanes = scene.lanes;
    begin_group(pen, page.index.saturating_mul(lanes.page_width()), 0);
    draw_title(pen, page, rows);
    draw_lanes(
        pen,
        lanes,
        HEAD_HEIGHT.saturating_add(rows_height(rows.len())),
    );
    draw_names(pen, lanes, NAMES_TOP);
    draw_spans(pen, scene, rows, all);
    pen.flush();
    draw_rows(pen, scene, rows);
    end_group(pen);
}

/// Begins a group of elements that has its own top left corner.
fn begin_group<K: Sink>(pen: &mut Pen<'_, K>, left: u32, top: u32) {
    push_pair(
        pen,
        b"<g transform=\"translate(",
        left,
        b" ",
        top,
        b")\">\n",
    );
}

/// Ends a group, and puts it.
fn end_group<K: Sink>(pen: &mut Pen<'_, K>) {
    pen.push(b"</g>\n");
    pen.flush();
}

/// Draws the title of a page.
fn draw_title<K: Sink>(pen: &mut Pen<'_, K>, page: PageNumber, rows: &[Row]) {
    begin_text(pen, Caption::Title, TITLE_START);
    let number = page.index.saturating_add(1);
    push_pair(pen, b"page ", number, b" of ", page.count, b"");
    write_lines(pen, rows);
    end_text(pen);
}

/// Writes which lines the rows of a page represent, if it has any.
fn write_lines<K: Sink>(pen: &mut Pen<'_, K>, rows: &[Row]) {
    if let [first, ..] = rows
        && let [.., last] = rows
    {
        push_pair(
            pen,
            b", lines ",
            first.place.line,
            b" to ",
            last.last,
            b", time downwards",
        );
    }
}

/// Draws all lanes down to an end.
fn draw_lanes<K: Sink>(pen: &mut Pen<'_, K>, lanes: &Lanes, end: u32) {
    draw_lane(pen, HOST_LANE, end);
    for addr in 1..256u16 {
        if lanes.has(addr as u8) {
            draw_lane(pen, lanes.place(addr as u8), end);
        }
    }
}

/// Draws a lane.
fn draw_lane<K: Sink>(pen: &mut Pen<'_, K>, lane: u32, end: u32) {
    begin_path(pen, b"lane", lane, LANE_TOP);
    push_numbered(pen, b"V", end, b"\"/>\n");
}

/// Draws the names of all lanes, below a top.
fn draw_names<K: Sink>(pen: &mut Pen<'_, K>, lanes: &Lanes, top: u32) {
    begin_group(pen, 0, top);
    begin_text(pen, Caption::Name, HOST_LANE);
    pen.push(b"host");
    end_text(pen);
    for addr in 1..256u16 {
        if lanes.has(addr as u8) {
            draw_name(pen, lanes, addr as u8);
        }
    }
    pen.push(b"</g>\n");
}

/// Draws the name of a device's lane.
fn draw_name<K: Sink>(pen: &mut Pen<'_, K>, lanes: &Lanes, addr: u8) {
    begin_text(pen, Caption::Name, lanes.place(addr));
    push_numbered(pen, lanes.kind(addr).name(), addr, b"");
    end_text(pen);
}

/// Draws the rows of a page, and the names of its lanes between them.
fn draw_rows<K: Sink>(pen: &mut Pen<'_, K>, scene: &Scene<'_>, rows: &[Row]) {
    let mut top = HEAD_HEIGHT;
    for (index, row) in rows.iter().enumerate() {
        if index > 0 && index % NAMES_EVERY == 0 {
            draw_names(pen, scene.lanes, top);
            top = top.saturating_add(ROW_HEIGHT);
        }
        begin_group(pen, 0, top);
        draw_row(pen, scene, row);
        end_group(pen);
        top = top.saturating_add(ROW_HEIGHT);
    }
}

/// Draws how many lines a picture leaves out.
pub(crate) fn draw_left_out<K: Sink>(pen: &mut Pen<'_, K>, left_out: u64) {
    begin_text(pen, Caption::LeftOut, TITLE_START);
    push_numbered(pen, b"", left_out, b" more lines are left out");
    end_text(pen);
}
