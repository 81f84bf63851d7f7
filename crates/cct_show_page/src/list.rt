//! A list of rows, which numbers them.

use crate::classes::Classes;
use crate::needs::Needs;
use crate::row::{Row, Tone};
use cct_edge::Sink;
use cct_show_pen::Pen;

/// The most rows of a list, after which the next one begins: browsers number long ones slowly.
const MOST_ROWS: u32 = 200;

/// A list while its rows are written. A row has its number by itself where it is the next one.
#[derive(Clone, Copy)]
pub(crate) struct List {
    is_begun: bool,
    rows: u32,
    next: u64,
}

impl List {
    /// A list that isn't begun yet.
    pub(crate) fn new() -> List {
        List {
            is_begun: false,
            rows: 0,
            next: 1,
        }
    }

    /// Begins the row at a place, with its number, where it has one; it begins the list, where it
    /// is the first row.
    pub(crate) fn begin_row<K: Sink>(
        &mut self,
        pen: &mut Pen<'_, K>,
        needs: &Needs,
        number: Option<u64>,
        place: usize,
        row: &Row,
    ) {
        if self.rows >= MOST_ROWS {
            self.end(pen);
        }
        if !self.is_begun {
            self.begin(pen, number);
        }
        self.rows = self.rows.saturating_add(1);
        pen.push(b"<li");
        if let Some(number) = number
            && number != self.next
        {
            pen.push(b" value=");
            pen.push_number(number);
            self.next = number;
        }
        self.next = self.next.saturating_add(1);
        if row.tone == Tone::Red {
            pen.push(b" id=");
            pen.push_number(place);
        }
        push_classes(pen, needs, row, number.is_none());
        pen.push(b">");
    }

    /// Begins the list with this number.
    fn begin<K: Sink>(&mut self, pen: &mut Pen<'_, K>, number: Option<u64>) {
        self.is_begun = true;
        self.next = number.unwrap_or(1);
        pen.push(b"<ol");
        if self.next != 1 {
            pen.push(b" start=");
            pen.push_number(self.next);
        }
        pen.push(b">");
    }

    /// Ends the list, if it is begun.
    pub(crate) fn end<K: Sink>(&mut self, pen: &mut Pen<'_, K>) {
        if self.is_begun {
            pen.push(b"</ol>");
        }
        *self = List::new();
    }
}

/// Writes the classes of a row: its devices, where they can be chosen and it isn't in a fold, and
/// what it is. One that is red has its id.
fn push_classes<K: Sink>(pen: &mut Pen<'_, K>, needs: &Needs, row: &Row, is_unnumbered: bool) {
    let is_odd = needs.odd && row.tone == Tone::Odd;
    let is_record = needs.records && row.is_record;
    let has_devices = needs.choose_devices && row.job.is_none();
    let devices = if has_devices { device_count(row) } else { 0 };
    let tones = usize::from(is_odd) + usize::from(is_record) + usize::from(is_unnumbered);
    let mut classes = Classes::new(devices.saturating_add(tones));
    if has_devices {
        push_devices(pen, &mut classes, row);
    }
    classes.push_tone(pen, is_odd, b"o");
    classes.push_tone(pen, is_record, b"w");
    classes.push_tone(pen, is_unnumbered, b"n");
    classes.finish(pen);
}

/// Writes the classes of the devices of a row.
fn push_devices<K: Sink>(pen: &mut Pen<'_, K>, classes: &mut Classes, row: &Row) {
    if let Some(addr) = own_device(row) {
        classes.push_device(pen, addr);
    }
    for poll in &row.polls {
        if row.addr != Some(poll.addr) {
            classes.push_device(pen, poll.addr);
        }
    }
}

/// How many classes for devices a row has.
fn device_count(row: &Row) -> usize {
    let others = row.polls.iter().filter(|poll| row.addr != Some(poll.addr));
    others
        .count()
        .saturating_add(usize::from(own_device(row).is_some()))
}

/// The device that a row is about, but not all.
fn own_device(row: &Row) -> Option<u8> {
    match row.addr {
        Some(0) | None => None,
        Some(addr) => Some(addr),
    }
}
