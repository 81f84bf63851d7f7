//! The rows of a picture: what is drawn for each mark.

use crate::element::{
    begin_text, draw_arrow, draw_bar, draw_bytes, draw_cross, draw_lost_echo, draw_shape, end_text,
    end_times,
};
use crate::layout::{BAR_START, HOST_LANE, LOST_GAP, Lanes, NUMBERS_END, TIMES_START};
use crate::record::write_record;
use crate::said::{KEPT, PUT, Said, said_of_host, write_crash};
use crate::shape::{Arrow, Caption, Shape, bar_class};
use crate::words::{verdict_name, write_fault, write_happening, write_heard};
use crate::worth::Worths;
use crate::{Ask, FaultAt, Happening, Heard, Label, Mark, Place, Reach, Reply, Verdict};
use cct_edge::Sink;
use cct_model_lines::Record;
use cct_show_pen::Pen;

/// A mark, by the place of its first line, its last line, and how many equal lines or exchanges it
/// represents.
#[derive(Drop)]
pub(crate) struct Row {
    pub(crate) mark: Mark,
    pub(crate) place: Place,
    pub(crate) last: u64,
    pub(crate) times: u64,
}

/// What all rows of a picture share: the lanes, what the places are worth, and whether the input is
/// a capture, so that rows are numbered by tap.
#[derive(Clone, Copy)]
pub(crate) struct Scene<'s> {
    pub(crate) lanes: &'s Lanes,
    pub(crate) worths: &'s Worths,
    pub(crate) has_taps: bool,
}

/// Draws a row, in its group.
pub(crate) fn draw_row<K: Sink>(pen: &mut Pen<'_, K>, scene: &Scene<'_>, row: &Row) {
    draw_number(pen, scene.has_taps, &row.place);
    if !row.place.time.as_slice().is_empty() {
        begin_text(pen, Caption::Time, TIMES_START);
        pen.push_label(&row.place.time);
        end_text(pen);
    }
    draw_mark(pen, scene, &row.mark, row.times);
}

/// Draws the number of a row: of its line, or in a capture of its tap, where it is one.
fn draw_number<K: Sink>(pen: &mut Pen<'_, K>, has_taps: bool, place: &Place) {
    let number = if has_taps {
        place.tap
    } else {
        Some(place.line)
    };
    if let Some(number) = number {
        begin_text(pen, Caption::Number, NUMBERS_END);
        pen.push_number(number);
        end_text(pen);
    }
}

/// Draws what a mark shows that represents so many lines.
fn draw_mark<K: Sink>(pen: &mut Pen<'_, K>, scene: &Scene<'_>, mark: &Mark, times: u64) {
    let lanes = scene.lanes;
    match mark {
        Mark::Exchange {
            addr,
            ask,
            reply,
            ..
        } => draw_exchange(pen, lanes.place(*addr), ask, reply, times),
        Mark::Happened { addr, what } => {
            draw_happening(pen, scene, *addr, *what, times);
        }
        Mark::Told {
            addr,
            verdict,
            words,
            ..
        } => draw_verdict(pen, lanes.place(*addr), *verdict, words, times),
        Mark::Fault { at, bytes } => draw_fault(pen, lanes.end(), *at, bytes, times),
        Mark::Crash { records } => draw_crash(pen, lanes.end(), *records, times),
        Mark::Put(record) => draw_record(pen, scene, Shape::Put, PUT, record, times),
        Mark::Kept(record) => draw_record(pen, scene, Shape::Kept, KEPT, record, times),
        _ => draw_of_host(pen, mark, times),
    }
}

/// Draws what a mark shows that is at the host alone.
fn draw_of_host<K: Sink>(pen: &mut Pen<'_, K>, mark: &Mark, times: u64) {
    let Some(said) = said_of_host(mark) else {
        return;
    };
    match said.shape {
        Some(shape) => draw_words(pen, shape, &said, times),
        None => draw_note(pen, said.words, times),
    }
}

/// Draws an exchange, or one half of it, with the lane of a device. How many lines it represents is
/// written at its first half.
fn draw_exchange<K: Sink>(
    pen: &mut Pen<'_, K>,
    lane: u32,
    ask: &Option<Ask>,
    reply: &Option<Reply>,
    times: u64,
) {
    let mut reply_times = times;
    if let Some(ask) = ask {
        draw_ask(pen, lane, ask, times);
        reply_times = 1;
    }
    if let Some(reply) = reply {
        draw_reply(pen, lane, reply, reply_times);
    }
}

/// Draws what the host sent: to the device's lane, or where it wasn't heard whole up to a cross
/// before it.
fn draw_ask<K: Sink>(pen: &mut Pen<'_, K>, lane: u32, ask: &Ask, times: u64) {
    let end = lane.saturating_sub(LOST_GAP);
    let bytes = ask.bytes.as_slice();
    match ask.reach {
        Reach::Device => draw_bytes(pen, Arrow::Request, HOST_LANE, lane, bytes),
        Reach::Lost => {
            draw_bytes(pen, Arrow::Lost, HOST_LANE, end, bytes);
            draw_cross(pen, end);
        }
    }
    begin_text(pen, Caption::Request, HOST_LANE);
    pen.push_label(&ask.words);
    end_times(pen, times);
}

/// Draws what the host heard: from the device's lane, but for a lost echo, which no device sent.
fn draw_reply<K: Sink>(pen: &mut Pen<'_, K>, lane: u32, reply: &Reply, times: u64) {
    let bytes = reply.bytes.as_slice();
    match arrow_of(reply.heard) {
        Some(arrow) => draw_bytes(pen, arrow, lane, HOST_LANE, bytes),
        None => draw_lost_echo(pen, bytes),
    }
    begin_text(pen, Caption::Heard, HOST_LANE);
    write_heard(pen, reply.heard, &reply.words);
    end_times(pen, times);
}

/// The line of what the host heard, if it comes from a device.
pub(crate) fn arrow_of(heard: Heard) -> Option<Arrow> {
    match heard {
        Heard::Answered => Some(Arrow::Answer),
        Heard::Nak | Heard::Busy => Some(Arrow::Refusal),
        Heard::Other => Some(Arrow::Other),
        Heard::Silence | Heard::NoReply => Some(Arrow::Silence),
        Heard::Damaged => Some(Arrow::Damage),
        Heard::DamagedEcho => None,
    }
}

/// Draws what happened in a device.
fn draw_happening<K: Sink>(
    pen: &mut Pen<'_, K>,
    scene: &Scene<'_>,
    addr: u8,
    what: Happening,
    times: u64,
) {
    let lane = scene.lanes.place(addr);
    draw_shape(pen, shape_of(what), lane);
    begin_text(pen, Caption::Device, lane);
    write_happening(pen, scene.worths, addr, what);
    end_times(pen, times);
}

/// Draws what a monitor says of a device, as a bar in its lane.
fn draw_verdict<K: Sink>(
    pen: &mut Pen<'_, K>,
    lane: u32,
    verdict: Verdict,
    words: &Label,
    times: u64,
) {
    draw_bar(pen, bar_class(verdict), lane);
    begin_text(pen, Caption::Device, lane);
    pen.push(verdict_name(verdict));
    pen.push_label(words);
    end_times(pen, times);
}

/// The sign of what happened in a device.
pub(crate) fn shape_of(what: Happening) -> Shape {
    match what {
        Happening::Accepted { .. } => Shape::Accepted,
        Happening::Held { .. } => Shape::Held,
        Happening::Inhibited { .. } => Shape::Inhibited,
        Happening::Alien => Shape::Alien,
        Happening::Fell => Shape::Fell,
        Happening::NoFall => Shape::NoFall,
        Happening::Jammed => Shape::Jammed,
        Happening::NoJam => Shape::NoJam,
        Happening::Reset => Shape::Reset,
        Happening::Stacked => Shape::Stacked,
        Happening::Returned => Shape::Returned,
        Happening::Stock { .. } => Shape::Counted,
    }
}

/// Draws a fault of the wire.
fn draw_fault<K: Sink>(pen: &mut Pen<'_, K>, end: u32, at: FaultAt, bytes: &Label, times: u64) {
    let arrow = match at {
        FaultAt::Nowhere => Arrow::Cleared,
        FaultAt::Devices | FaultAt::Host | FaultAt::Whole => Arrow::Fault,
    };
    draw_arrow(pen, arrow, HOST_LANE, end);
    begin_text(pen, Caption::Heard, HOST_LANE);
    write_fault(pen, at, bytes);
    end_times(pen, times);
}

/// Draws a sign at the host's lane, and words beside it.
fn draw_words<K: Sink>(pen: &mut Pen<'_, K>, shape: Shape, said: &Said<'_>, times: u64) {
    draw_shape(pen, shape, HOST_LANE);
    begin_text(pen, shape.caption(), HOST_LANE);
    pen.push(said.before);
    pen.push_label(said.words);
    end_times(pen, times);
}

/// Draws a sign at the host's lane, and a record beside it.
fn draw_record<K: Sink>(
    pen: &mut Pen<'_, K>,
    scene: &Scene<'_>,
    shape: Shape,
    before: &[u8],
    record: &Record,
    times: u64,
) {
    draw_shape(pen, shape, HOST_LANE);
    begin_text(pen, Caption::Host, HOST_LANE);
    pen.push(before);
    write_record(pen, scene.worths, record);
    end_times(pen, times);
}

/// Draws a power cut, through all lanes.
fn draw_crash<K: Sink>(pen: &mut Pen<'_, K>, end: u32, records: u32, times: u64) {
    draw_arrow(pen, Arrow::Crash, BAR_START, end);
    begin_text(pen, Caption::Crash, HOST_LANE);
    write_crash(pen, records);
    end_times(pen, times);
}

/// Draws a line that is none of the others.
fn draw_note<K: Sink>(pen: &mut Pen<'_, K>, words: &Label, times: u64) {
    begin_text(pen, Caption::Note, HOST_LANE);
    pen.push_label(words);
    end_times(pen, times);
}
