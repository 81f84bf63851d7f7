//! What is written of a mark.

use crate::element::push_numbered;
use crate::record::write_record;
use crate::shape::Shape;
use crate::words::{verdict_name, write_fault, write_happening};
use crate::worth::Worths;
use crate::{Label, Mark};
use cct_edge::Sink;
use cct_show_pen::Pen;

/// What is before a record.
pub(crate) const PUT: &[u8] = b"put: ";

/// What is before a record that was kept.
pub(crate) const KEPT: &[u8] = b"kept: ";

/// What is beside the lane of the host: its sign, where it has one, and its words.
#[derive(Clone, Copy)]
pub(crate) struct Said<'m> {
    pub(crate) shape: Option<Shape>,
    pub(crate) before: &'static [u8],
    pub(crate) words: &'m Label,
}

/// What a mark says that is at the host alone, and has a text for its words.
pub(crate) fn said_of_host(mark: &Mark) -> Option<Said<'_>> {
    let (shape, before, words): (Option<Shape>, &'static [u8], &Label) = match mark {
        Mark::Taken(words) => (Some(Shape::Taken), b"taken: ", words),
        Mark::Refused(words) => (Some(Shape::Refused), b"refused: ", words),
        Mark::Ended(words) => (Some(Shape::Ended), b"ended: ", words),
        Mark::Alarm(words) => (Some(Shape::Alarm), b"ended, to be looked at: ", words),
        Mark::Forged(words) => (Some(Shape::Alarm), b"to be looked at: ", words),
        Mark::Began(words) => (Some(Shape::Taken), b"", words),
        Mark::Waits(words) => (Some(Shape::Waits), b"", words),
        Mark::Note(words) => (None, b"", words),
        _ => return None,
    };
    Some(Said {
        shape,
        before,
        words,
    })
}

/// Writes all words of a mark that is no exchange.
pub(crate) fn write_mark<K: Sink>(pen: &mut Pen<'_, K>, worths: &Worths, mark: &Mark) {
    match mark {
        Mark::Happened { addr, what } => write_happening(pen, worths, *addr, *what),
        Mark::Told { verdict, words, .. } => {
            pen.push(verdict_name(*verdict));
            pen.push_label(words);
        }
        Mark::Fault { at, bytes } => write_fault(pen, *at, bytes),
        Mark::Crash { records } => write_crash(pen, *records),
        Mark::Put(record) => {
            pen.push(PUT);
            write_record(pen, worths, record);
        }
        Mark::Kept(record) => {
            pen.push(KEPT);
            write_record(pen, worths, record);
        }
        _ => {
            if let Some(said) = said_of_host(mark) {
                pen.push(said.before);
                pen.push_label(said.words);
            }
        }
    }
}

/// Writes that the host lost its power.
pub(crate) fn write_crash<K: Sink>(pen: &mut Pen<'_, K>, records: u32) {
    push_numbered(
        pen,
        b"power cut; the host starts again over ",
        records,
        b" records",
    );
}
