//! The form `html`: a page for a browser.

use crate::lines::{LineSink, read_lines};
use crate::measure::Measure;
use crate::picture::{Marks, Part};
use crate::status::{Status, Stop};
use crate::text::Text;
use cct_edge::{Sink, Source};
use cct_show_page::{Page, PageForm, write_lines};
use std::alloc::Global;

/// The most rows of the picture that is folded into a page: two pages of it.
const PICTURE_ROWS: usize = 400;

/// How many times as long as `text` a page may be.
const MOST_TIMES: u64 = 2;

/// Lines that are shown as `text`, to learn how long that is, and become the rows of a page.
#[derive(Drop)]
struct Both<'b, 'k> {
    text: Text<'k, Measure>,
    marks: &'b mut Marks,
}

/// Writes a page of all lines of a source, after the last one: in the fullest form that is at most
/// twice as long as `text`.
pub fn show_page<S: Source, K: Sink>(alloc: Global, source: &mut S, out: &mut K) -> Status {
    let mut marks = Marks::new(alloc, Part::WHOLE, PICTURE_ROWS, Some(Page::new(alloc)));
    let mut shown = Measure::new();
    let read = read_both(source, &mut shown, &mut marks);
    let status = Status::of(match read {
        Ok(()) => write_marks(&marks, &shown, out),
        Err(stop) => Err(stop),
    });
    status.or_empty(marks.count)
}

/// Reads all lines.
fn read_both<S: Source>(
    source: &mut S,
    shown: &mut Measure,
    marks: &mut Marks,
) -> Result<(), Stop> {
    let mut both = Both {
        text: Text::new(shown),
        marks,
    };
    read_lines(source, &mut both)?;
    both.text.finish()?;
    both.marks.finish()
}

/// Writes the page of marks, of which `text` shows this. Where it is longer in each form, the text
/// itself is the page, if it is short.
fn write_marks<K: Sink>(marks: &Marks, shown: &Measure, out: &mut K) -> Result<(), Stop> {
    let Some(page) = &marks.page else {
        return Ok(());
    };
    let most = shown.length().saturating_mul(MOST_TIMES);
    match (form_within(marks, page, most)?, shown.all()) {
        (Some(form), _) => page.write(form, &marks.picture, marks.is_full, out)?,
        (None, Some(text)) => write_lines(text, out)?,
        (None, None) => page.write(PageForm::Plain, &marks.picture, marks.is_full, out)?,
    }
    Ok(())
}

/// The fullest form in which a page has at most so many bytes, if there is one.
fn form_within(marks: &Marks, page: &Page, most: u64) -> Result<Option<PageForm>, Stop> {
    for form in &PageForm::ALL {
        let mut measure = Measure::new();
        page.write(*form, &marks.picture, marks.is_full, &mut measure)?;
        if measure.length() <= most {
            return Ok(Some(*form));
        }
    }
    Ok(None)
}

impl LineSink for Both<'_, '_> {
    fn line(&mut self, line: &[u8]) -> Result<(), Stop> {
        self.text.line(line)?;
        self.marks.line(line)
    }

    fn part(&mut self, bytes: &[u8]) -> Result<(), Stop> {
        self.text.part(bytes)?;
        self.marks.part(bytes)
    }

    fn end(&mut self) -> Result<(), Stop> {
        self.text.end()?;
        self.marks.end()
    }
}
