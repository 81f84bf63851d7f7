//! The elements of a picture.

use crate::layout::{HEARD_LINE, HOST_LANE, REQUEST_LINE, ROW_HEIGHT, ROW_MIDDLE};
use crate::shape::{Arrow, CROSS, Caption, Shape};
use cct_edge::Sink;
use cct_show_pen::Pen;
use itoa::Integer;

/// Draws a sign at a lane.
pub(crate) fn draw_shape<K: Sink>(pen: &mut Pen<'_, K>, shape: Shape, lane: u32) {
    begin_path(pen, shape.class(), lane, ROW_MIDDLE);
    pen.push(shape.path());
    pen.push(b"\"/>\n");
}

/// Draws a line from one lane to another.
pub(crate) fn draw_arrow<K: Sink>(pen: &mut Pen<'_, K>, arrow: Arrow, from: u32, to: u32) {
    begin_arrow(pen, arrow, from, to);
    pen.push(b"/>\n");
}

/// Draws a line on which stands, where a pointer rests on it, what bytes it was.
pub(crate) fn draw_bytes<K: Sink>(
    pen: &mut Pen<'_, K>,
    arrow: Arrow,
    from: u32,
    to: u32,
    bytes: &[u8],
) {
    begin_arrow(pen, arrow, from, to);
    end_bytes(pen, bytes);
}

/// Draws a cross where what the host sent got lost.
pub(crate) fn draw_cross<K: Sink>(pen: &mut Pen<'_, K>, place: u32) {
    begin_cross(pen, place, REQUEST_LINE);
    pen.push(b"/>\n");
}

/// Draws a cross at the host, where it heard these bytes in place of its echo.
pub(crate) fn draw_lost_echo<K: Sink>(pen: &mut Pen<'_, K>, bytes: &[u8]) {
    begin_cross(pen, HOST_LANE, HEARD_LINE);
    end_bytes(pen, bytes);
}

/// Begins the element of a cross.
fn begin_cross<K: Sink>(pen: &mut Pen<'_, K>, place: u32, height: u32) {
    begin_path(pen, b"bad", place, height);
    pen.push(CROSS);
    pen.push(b"\"");
}

/// Begins the element of a line.
fn begin_arrow<K: Sink>(pen: &mut Pen<'_, K>, arrow: Arrow, from: u32, to: u32) {
    begin_path(pen, arrow.class(), from, arrow.height());
    push_numbered(pen, b"H", to, arrow.head());
    pen.push(b"\"");
}

/// Begins the element of a path that has this class and begins at this place.
pub(crate) fn begin_path<K: Sink>(pen: &mut Pen<'_, K>, class: &[u8], left: u32, top: u32) {
    pen.push(b"<path class=\"");
    pen.push(class);
    push_pair(pen, b"\" d=\"M", left, b" ", top, b"");
}

/// Ends an element with the bytes that it represents.
fn end_bytes<K: Sink>(pen: &mut Pen<'_, K>, bytes: &[u8]) {
    match bytes.len() {
        0 => pen.push(b"><title>no byte"),
        1 => pen.push(b"><title>1 byte:"),
        count => push_numbered(pen, b"><title>", count, b" bytes:"),
    }
    pen.push_hex(b" ", bytes);
    pen.push(b"</title></path>\n");
}

/// Draws a bar in a lane, from the top of its row to its end.
pub(crate) fn draw_bar<K: Sink>(pen: &mut Pen<'_, K>, class: &[u8], lane: u32) {
    begin_path(pen, class, lane, 1);
    push_numbered(pen, b"V", ROW_HEIGHT, b"\"/>\n");
}

/// Begins a text at a lane.
pub(crate) fn begin_text<K: Sink>(pen: &mut Pen<'_, K>, caption: Caption, lane: u32) {
    pen.push(b"<text ");
    pen.push(caption.attributes());
    push_numbered(pen, b" x=\"", lane, b"\">");
}

/// Ends a text.
pub(crate) fn end_text<K: Sink>(pen: &mut Pen<'_, K>) {
    pen.push(b"</text>\n");
}

/// Ends a text of a row that represents so many lines.
pub(crate) fn end_times<K: Sink>(pen: &mut Pen<'_, K>, times: u64) {
    if times > 1 {
        push_numbered(pen, b", ", times, b" times");
    }
    end_text(pen);
}

/// Writes a number between two texts.
pub(crate) fn push_numbered<K: Sink, I: Integer>(
    pen: &mut Pen<'_, K>,
    before: &[u8],
    number: I,
    after: &[u8],
) {
    pen.push(before);
    pen.push_number(number);
    pen.push(after);
}

/// Writes two numbers, with a text before, between and after them.
pub(crate) fn push_pair<K: Sink, I: Integer>(
    pen: &mut Pen<'_, K>,
    before: &[u8],
    first: I,
    between: &[u8],
    second: I,
    after: &[u8],
) {
    push_numbered(pen, before, first, between);
    pen.push_number(second);
    pen.push(after);
}
