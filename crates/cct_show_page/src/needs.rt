//! What of a page wants rules and choices of its own.

use crate::Page;
use crate::device::Device;
use crate::form::PageForm;
use crate::row::{Body, Row, Tone};
use crate::sums::is_red;
use cct_show_picture::Picture;

/// A page of so many rows is seen whole, and has no choices.
const FEW_ROWS: usize = 20;

/// A page with more rows draws only those that are in sight.
const MANY_ROWS: usize = 1000;

/// Numbers of rows from here on want more room.
const WIDE_NUMBER: u64 = 10_000;

/// A word of more bytes is wider than a phone.
const LONG_WORD: usize = 40;

/// What a page has, so that it needs rules and choices for it.
#[derive(Clone, Copy)]
pub(crate) struct Needs {
    /// Whether it has no rules but those without which its rows can't be read.
    pub(crate) plain: bool,
    /// Of the picture, where there is one.
    pub(crate) tab_width: Option<u32>,
    pub(crate) folds: bool,
    pub(crate) red: bool,
    pub(crate) odd: bool,
    pub(crate) records: bool,
    pub(crate) many_rows: bool,
    pub(crate) wide_numbers: bool,
    pub(crate) long_words: bool,
    /// Rows that have no number, since only some lines have one.
    pub(crate) unnumbered: bool,
    pub(crate) choose_devices: bool,
    pub(crate) choose_red: bool,
    pub(crate) choose_records: bool,
    pub(crate) choose_bytes: bool,
}

impl Needs {
    /// What the rows of a page, and a picture of them, need in a form.
    pub(crate) fn of(page: &Page, form: PageForm, picture: &Picture) -> Needs {
        let rows = page.rows.as_slice();
        let plain = form == PageForm::Plain;
        let has_choices = rows.len() > FEW_ROWS && !plain;
        let has_red = rows.iter().any(|row| is_red(page, row));
        let has_bad = page.jobs.iter().any(|job| !job.is_well());
        let records = !plain && rows.iter().any(|row| row.is_record);
        Needs {
            plain,
            tab_width: if form == PageForm::Full && picture.has_sketch() {
                Some(picture.tab_width())
            } else {
                None
            },
            folds: !page.jobs.is_empty(),
            red: !plain && (has_red || has_bad),
            odd: !plain && rows.iter().any(|row| row.tone == Tone::Odd),
            records,
            many_rows: rows.len() > MANY_ROWS,
            wide_numbers: page.lines >= WIDE_NUMBER,
            long_words: rows.iter().any(has_long_word),
            unnumbered: page.has_taps && rows.iter().any(|row| row.place.tap.is_none()),
            choose_devices: has_choices && page.devices.count() > 1,
            choose_red: has_choices && has_red,
            choose_records: has_choices && records,
            choose_bytes: has_choices && rows.iter().any(has_bytes),
        }
    }

    /// Whether there are rows to choose.
    pub(crate) fn has_choice(&self) -> bool {
        self.choose_devices || self.has_kind_choice()
    }

    /// Whether there are kinds of rows to choose.
    pub(crate) fn has_kind_choice(&self) -> bool {
        self.choose_red || self.choose_records
    }

    /// Whether a device has a row in the table: it has a sum, or can be chosen there.
    pub(crate) fn has_device(&self, device: &Device) -> bool {
        device.has_sum() || self.choose_devices && device.is_busy()
    }
}

/// Whether a row shows the bytes of an exchange.
fn has_bytes(row: &Row) -> bool {
    match row.body {
        Body::Talk(_) => true,
        Body::Line { .. } | Body::Job(_) => false,
    }
}

/// Whether a row has a word that is wider than a phone.
fn has_long_word(row: &Row) -> bool {
    match &row.body {
        Body::Talk(talk) => {
            let most = LONG_WORD / 2;
            talk.sent.len() > most || talk.heard.len() > most
        }
        Body::Line { line, .. } => line
            .split(|byte| *byte == b' ')
            .any(|word| word.len() > LONG_WORD),
        Body::Job(_) => false,
    }
}
