//! A picture in few bytes, to be folded into a page of HTML: its lines as SVG, and its words as a
//! text that lies over them.

use crate::element::{push_numbered, push_pair};
use crate::layout::{Lanes, NAMES_EVERY};
use crate::look::LOOKS;
use crate::row::{Row, arrow_of, shape_of};
use crate::said::{said_of_host, write_mark};
use crate::shape::{Arrow, CROSS, Shape, bar_class};
use crate::words::write_heard;
use crate::worth::Worths;
use crate::{Ask, FaultAt, Heard, Label, Mark, Picture, Reach, Reply};
use cct_edge::Sink;
use cct_show_pen::Pen;
use std::fmt::Write;

/// The height of a line of text. A row has one, or two where it has a time, or a request above what
/// was heard.
const LINE_HEIGHT: u32 = 14;

/// The lines of a request, of what was heard, and of a sign, below the top of a row.
const ASKED: u32 = 13;

const HEARD: u32 = 27;

const SIGNED: u32 = 12;

/// What a line with the style of exchanges has in place of it: nothing, since the picture has it.
const PLAIN: &[u8] = b"stroke:#047";

/// How wide a letter of the words is; those of some fonts are less wide.
const LETTER: usize = 6;

/// From a lane to the tab at which its name stands, and the host's words.
const NAME_GAP: u32 = 4;

/// From a lane to the end of the sign at it, and to where a lost request ends.
const SIGN: u32 = 5;

const LOST_GAP: u32 = 40;

/// From the last lane to the right end.
const END_GAP: u32 = 80;

/// How far apart the tabs are at which words and lanes stand: the host's at the first, and how many
/// later the first device's, and from one device to the next.
#[derive(Clone, Copy)]
struct Tabs {
    width: u32,
    first: u32,
    next: u32,
}

/// The tabs of a picture without times, and of one with a time below each number.
const TABS: Tabs = Tabs {
    width: 75,
    first: 5,
    next: 2,
};

const TIMED_TABS: Tabs = Tabs {
    width: 240,
    first: 2,
    next: 1,
};

/// Where the rows of a picture stand, from above; the names of the lanes stand between them every
/// now and then.
#[derive(Clone, Copy)]
struct Tops {
    next: u32,
    count: usize,
}

/// A line of a row: of what class it is, from where to where, at which height, and its head.
#[derive(Clone, Copy)]
struct Stroke {
    class: &'static [u8],
    from: u32,
    to: u32,
    line: u32,
    head: &'static [u8],
}

/// What all rows share.
#[derive(Clone, Copy)]
struct Sheet<'s> {
    lanes: &'s Lanes,
    worths: &'s Worths,
    tabs: Tabs,
    host: u32,
    has_taps: bool,
}

impl Picture {
    /// Whether a sketch shows anything: whether any row is of a device.
    pub fn has_sketch(&self) -> bool {
        self.rows.iter().any(is_of_device)
    }

    /// How wide a tab is in the text of a sketch, in pixels.
    pub fn tab_width(&self) -> u32 {
        self.tabs().width
    }

    /// The tabs of a sketch.
    fn tabs(&self) -> Tabs {
        if self.rows.iter().any(has_time) {
            TIMED_TABS
        } else {
            TABS
        }
    }

    /// Draws the picture in few bytes for a page of HTML, which has all words and bytes in rows of
    /// its own: arrows and signs of one look are one path, and its words one text. Lines that are
    /// only words are left out.
    pub fn sketch<K: Sink>(&self, pen: &mut Pen<'_, K>) {
        let tabs = self.tabs();
        let host = tabs.width.saturating_sub(NAME_GAP);
        let lanes = Lanes::at(
            self.devices,
            self.kinds,
            host.saturating_add(tabs.width.saturating_mul(tabs.first)),
            tabs.width.saturating_mul(tabs.next),
        );
        let sheet = Sheet {
            lanes: &lanes,
            worths: &self.worths,
            tabs,
            host,
            has_taps: self.has_taps,
        };
        let mut tops = Tops::new();
        for row in self.rows.iter().filter(|row| is_drawn(row)) {
            let _ = tops.take(row);
        }
        let end = tops.next;
        let width = lanes.end().saturating_add(END_GAP);
        push_pair(
            pen,
            b"<pre><svg width=",
            width,
            b" height=",
            end,
            b" fill=none stroke=#38c>",
        );
        draw_lanes(pen, &sheet, end);
        for (index, look) in LOOKS.iter().enumerate() {
            if is_first(index, look.style) {
                draw_style(pen, &sheet, look.style, &self.rows);
            }
        }
        pen.push(b"</svg>");
        write_names(pen, &sheet);
        write_rows(pen, &sheet, &self.rows);
        pen.push(b"</pre>");
    }
}

/// Whether a row is in the lane of a device, or is an exchange with all.
fn is_of_device(row: &Row) -> bool {
    matches!(
        row.mark,
        Mark::Exchange { .. } | Mark::Happened { .. } | Mark::Told { .. }
    )
}

/// Whether a row is drawn: not a command, a good end or a line without a mark of its own, which are
/// only words at the host.
fn is_drawn(row: &Row) -> bool {
    match &row.mark {
        Mark::Note(_) | Mark::Taken(_) | Mark::Refused(_) => false,
        Mark::Ended(_) | Mark::Began(_) | Mark::Waits(_) => false,
        _ => true,
    }
}

/// Whether a time is in a row.
fn has_time(row: &Row) -> bool {
    is_drawn(row) && !row.place.time.as_slice().is_empty()
}

/// Whether a row has a second line, for what was heard or for its time.
fn has_second(row: &Row) -> bool {
    matches!(row.mark, Mark::Exchange { .. }) || has_time(row)
}

impl Tops {
    /// Below the names of the lanes.
    fn new() -> Tops {
        Tops {
            next: 2 * LINE_HEIGHT,
            count: 0,
        }
    }

    /// Whether the names of the lanes stand above the next row.
    fn has_names(&self) -> bool {
        self.count > 0 && self.count % NAMES_EVERY == 0
    }

    /// The top of the next row.
    fn take(&mut self, row: &Row) -> u32 {
        let names = if self.has_names() { 2 * LINE_HEIGHT } else { 0 };
        let height = if has_second(row) {
            2 * LINE_HEIGHT
        } else {
            LINE_HEIGHT
        };
        let top = self.next.saturating_add(names);
        self.next = top.saturating_add(height);
        self.count = self.count.saturating_add(1);
        top
    }
}

/// Draws the lanes between their names and an end: one downwards, and the next one upwards.
fn draw_lanes<K: Sink>(pen: &mut Pen<'_, K>, sheet: &Sheet<'_>, end: u32) {
    let host = sheet.host;
    push_pair(pen, b"<path stroke=#999 d=\"M", host, b" 14V", end, b"");
    let mut last = host;
    let mut is_at_end = true;
    for addr in 1..=u8::MAX {
        if sheet.lanes.has(addr) {
            let place = sheet.lanes.place(addr);
            let to = if is_at_end { LINE_HEIGHT } else { end };
            push_pair(pen, b"m", place.saturating_sub(last), b" 0V", to, b"");
            last = place;
            is_at_end = !is_at_end;
        }
    }
    pen.push(b"\"/>");
}

/// Writes the names of the lanes, each at its tab.
fn write_names<K: Sink>(pen: &mut Pen<'_, K>, sheet: &Sheet<'_>) {
    pen.push(b"\thost");
    let mut tabs = sheet.tabs.first;
    for addr in 1..=u8::MAX {
        if sheet.lanes.has(addr) {
            for _ in 0..tabs {
                pen.push(b"\t");
            }
            let name = name_of_lane(sheet, addr);
            pen.push_label(&name);
            tabs = sheet.tabs.after(&name);
        }
    }
    pen.push(b"\n\n");
}

/// The name of the lane of a device.
fn name_of_lane(sheet: &Sheet<'_>, addr: u8) -> Label {
    let mut name = Label::new(sheet.lanes.kind(addr).name());
    // A label takes any text.
    let _ = write!(name, "{addr}");
    name
}

impl Tabs {
    /// How many tabs stand after the name of a lane, up to the next one: one less where the name
    /// passes a tab.
    fn after(self, name: &Label) -> u32 {
        let width = name.as_slice().len().saturating_mul(LETTER);
        if self.next > 1 && width >= self.width as usize {
            self.next - 1
        } else {
            self.next
        }
    }
}

/// Whether a style is that of the look with this index, and of none before it.
fn is_first(index: usize, style: &[u8]) -> bool {
    for (place, look) in LOOKS.iter().enumerate() {
        if look.style == style {
            return place == index;
        }
    }
    false
}

/// Whether a class has this style.
fn is_of_style(class: &[u8], style: &[u8]) -> bool {
    LOOKS
        .iter()
        .any(|look| look.class == class && look.style == style)
}

/// Draws all lines of one style as one path.
fn draw_style<K: Sink>(pen: &mut Pen<'_, K>, sheet: &Sheet<'_>, style: &[u8], rows: &[Row]) {
    let mut is_there = false;
    let mut tops = Tops::new();
    for row in rows.iter().filter(|row| is_drawn(row)) {
        let top = tops.take(row);
        let mut is_asked = false;
        for stroke in strokes_of(sheet, &row.mark).iter().flatten() {
            if is_of_style(stroke.class, style) {
                if !is_there {
                    begin_style(pen, style);
                }
                is_there = true;
                if is_asked {
                    pen.push(FROM_REQUEST);
                } else {
                    push_place(pen, stroke, top);
                }
                push_stroke(pen, stroke);
                is_asked = stroke.head == REQUEST_HEAD;
            }
        }
    }
    if is_there {
        pen.push(b"\"/>");
    }
}

/// Begins the path of a style, which is there in attributes.
fn begin_style<K: Sink>(pen: &mut Pen<'_, K>, style: &[u8]) {
    pen.push(b"<path ");
    if style != PLAIN {
        for byte in style {
            match *byte {
                b':' => pen.push(b"="),
                b' ' => pen.push(b","),
                b';' => pen.push(b" "),
                plain => pen.push(&[plain]),
            }
        }
        pen.push(b" ");
    }
    pen.push(b"d=\"");
}

/// Writes where a line begins, in a row with this top.
fn push_place<K: Sink>(pen: &mut Pen<'_, K>, stroke: &Stroke, top: u32) {
    let height = top.saturating_add(stroke.line);
    push_pair(pen, b"M", stroke.from, b" ", height, b"");
}

/// Writes a line from where it begins.
fn push_stroke<K: Sink>(pen: &mut Pen<'_, K>, stroke: &Stroke) {
    if stroke.to != stroke.from {
        push_numbered(pen, b"H", stroke.to, b"");
    }
    pen.push(stroke.head);
}

/// The lines of a mark.
fn strokes_of(sheet: &Sheet<'_>, mark: &Mark) -> [Option<Stroke>; 3] {
    match mark {
        Mark::Exchange {
            addr,
            ask,
            reply,
            ..
        } => exchange_strokes(sheet, sheet.lanes.place(*addr), ask, reply),
        Mark::Happened { addr, what } => {
            let class = shape_of(*what).class();
            [Some(sign(class, sheet.lanes.place(*addr))), None, None]
        }
        Mark::Told { addr, verdict, .. } => {
            let class = bar_class(*verdict);
            [Some(bar(class, sheet.lanes.place(*addr))), None, None]
        }
        Mark::Fault {
            at: FaultAt::Nowhere,
            ..
        } => [Some(across(sheet, Arrow::Cleared)), None, None],
        Mark::Fault { .. } => [Some(across(sheet, Arrow::Fault)), None, None],
        Mark::Crash { .. } => [Some(across(sheet, Arrow::Damage)), None, None],
        _ => [host_stroke(sheet, mark), None, None],
    }
}

/// The sign at the lane of the host, of what somebody is to look at: other words stand there alone.
fn host_stroke(sheet: &Sheet<'_>, mark: &Mark) -> Option<Stroke> {
    match said_of_host(mark)?.shape? {
        Shape::Alarm => Some(sign(Shape::Alarm.class(), sheet.host)),
        _ => None,
    }
}

/// The lines of an exchange, with the lane of a device.
fn exchange_strokes(
    sheet: &Sheet<'_>,
    lane: u32,
    ask: &Option<Ask>,
    reply: &Option<Reply>,
) -> [Option<Stroke>; 3] {
    let end = lane.saturating_sub(LOST_GAP);
    let asked = ask.as_ref().map(|ask| ask.reach);
    [
        match asked {
            Some(Reach::Device) => Some(arrow(Arrow::Request, sheet.host, lane)),
            Some(Reach::Lost) => Some(arrow(Arrow::Lost, sheet.host, end)),
            None => None,
        },
        match asked {
            Some(Reach::Lost) => Some(cross(end, ASKED)),
            _ => None,
        },
        match reply {
            Some(reply) => reply_stroke(sheet, lane, reply.heard),
            None => None,
        },
    ]
}

/// The line of what was heard from the lane of a device: none where nothing was.
fn reply_stroke(sheet: &Sheet<'_>, lane: u32, heard: Heard) -> Option<Stroke> {
    match arrow_of(heard) {
        Some(Arrow::Silence) => None,
        Some(kind) => Some(arrow(kind, lane, sheet.host)),
        None => Some(cross(sheet.host, HEARD)),
    }
}

/// A line from one place to another.
fn arrow(arrow: Arrow, from: u32, to: u32) -> Stroke {
    Stroke {
        class: arrow.class(),
        from,
        to,
        line: match arrow {
            Arrow::Request | Arrow::Lost => ASKED,
            _ => HEARD,
        },
        head: head_of(arrow),
    }
}

/// The head of a request, and from its end to where what was heard begins.
const REQUEST_HEAD: &[u8] = b"l-7 4";

const FROM_REQUEST: &[u8] = b"m7 10";

/// The head of an arrow, a stroke below it.
fn head_of(arrow: Arrow) -> &'static [u8] {
    match arrow {
        Arrow::Request => REQUEST_HEAD,
        _ if arrow.head().is_empty() => b"",
        _ => b"l7 4",
    }
}

/// A cross at a place.
fn cross(place: u32, line: u32) -> Stroke {
    Stroke {
        class: Shape::Jammed.class(),
        from: place,
        to: place,
        line,
        head: CROSS,
    }
}

/// A line through all lanes.
fn across(sheet: &Sheet<'_>, arrow: Arrow) -> Stroke {
    Stroke {
        class: arrow.class(),
        from: 0,
        to: sheet.lanes.end(),
        line: ASKED,
        head: b"",
    }
}

/// A sign at a lane.
fn sign(class: &'static [u8], lane: u32) -> Stroke {
    Stroke {
        class,
        from: lane.saturating_sub(SIGN),
        to: lane.saturating_add(SIGN),
        line: SIGNED,
        head: SQUARE,
    }
}

/// A bar at a lane: a wide line.
fn bar(class: &'static [u8], lane: u32) -> Stroke {
    Stroke {
        head: b"",
        ..sign(class, lane)
    }
}

/// The other three sides of a sign, from its right end on.
const SQUARE: &[u8] = b"v-9h-10z";

/// Writes the words of all rows, and between them the names of the lanes.
fn write_rows<K: Sink>(pen: &mut Pen<'_, K>, sheet: &Sheet<'_>, rows: &[Row]) {
    let mut named = [false; 256];
    let mut tops = Tops::new();
    for row in rows.iter().filter(|row| is_drawn(row)) {
        if tops.has_names() {
            write_names(pen, sheet);
        }
        let _ = tops.take(row);
        write_number(pen, sheet, row);
        match &row.mark {
            Mark::Exchange { ask: Some(ask), .. } => write_ask(pen, &mut named, ask),
            Mark::Exchange { .. } => {}
            Mark::Fault { at, bytes } => write_fault(pen, *at, bytes),
            mark => write_mark(pen, sheet.worths, mark),
        }
        if row.times > 1 {
            push_numbered(pen, b", ", row.times, b" times");
        }
        pen.push(b"\n");
        if has_second(row) {
            write_second(pen, row);
        }
    }
}

/// The words of a fault of the wire in the line of a transcript, up to its bytes.
fn fault_words(at: FaultAt) -> &'static [u8] {
    match at {
        FaultAt::Nowhere => b"fault clear",
        FaultAt::Devices => b"fault devices ",
        FaultAt::Host => b"fault host ",
        FaultAt::Whole => b"fault whole ",
    }
}

/// Writes a fault of the wire, as the line of a transcript does.
fn write_fault<K: Sink>(pen: &mut Pen<'_, K>, at: FaultAt, bytes: &Label) {
    pen.push(fault_words(at));
    match at {
        FaultAt::Nowhere => {}
        FaultAt::Devices | FaultAt::Host | FaultAt::Whole => pen.push_label(bytes),
    }
}

/// Writes the second line of a row: its time, and what was heard.
fn write_second<K: Sink>(pen: &mut Pen<'_, K>, row: &Row) {
    pen.push_label(&row.place.time);
    if let Mark::Exchange {
        reply: Some(reply),
        ..
    } = &row.mark
    {
        write_reply(pen, reply.heard, &reply.words);
    }
    pen.push(b"\n");
}

/// Writes the number of a row.
fn write_number<K: Sink>(pen: &mut Pen<'_, K>, sheet: &Sheet<'_>, row: &Row) {
    let number = if sheet.has_taps {
        row.place.tap
    } else {
        Some(row.place.line)
    };
    if let Some(number) = number {
        pen.push_number(number);
    }
    pen.push(b"\t");
}

/// Writes a request. The name of its header is there the first time, and then its number alone.
fn write_ask<K: Sink>(pen: &mut Pen<'_, K>, named: &mut [bool; 256], ask: &Ask) {
    let words = ask.words.as_slice();
    let place = match (ask.bytes.as_slice(), words.first()) {
        ([_, _, _, header, ..], Some(b'0'..=b'9')) => usize::from(*header),
        _ => 0,
    };
    if place == 0 || !named[place] {
        named[place] = true;
        pen.push_text(words);
        return;
    }
    pen.push_text(words.split(|byte| *byte == b' ').next().unwrap_or(words));
    if let Some(colon) = words.iter().position(|byte| *byte == b':')
        && let Some(values) = words.get(colon..)
    {
        pen.push_text(values);
    }
}

/// Writes what was heard; of a wanted reply only what it says.
fn write_reply<K: Sink>(pen: &mut Pen<'_, K>, heard: Heard, words: &Label) {
    match heard {
        Heard::Answered if words.as_slice().is_empty() => {}
        Heard::Answered => {
            pen.push(b"\t");
            pen.push_label(words);
        }
        _ => {
            pen.push(b"\t");
            write_heard(pen, heard, words);
        }
    }
}
