//! A page as a document: its head, what is on top, and its rows. End tags and quotes that HTML lets
//! out are left out.

use crate::Page;
use crate::form::PageForm;
use crate::needs::Needs;
use crate::rows::write_rows;
use crate::style::write_style;
use crate::sums::{write_red, write_sums};
use cct_edge::{Failed, Sink};
use cct_show_pen::Pen;
use cct_show_picture::Picture;

/// What is before a text that is a page by itself: the least that HTML wants. A byte order mark
/// gives the encoding.
const LEAST_HEAD: &[u8] = b"\xef\xbb\xbf<!DOCTYPE html><title>.</title><pre>";

/// Writes lines as they are as a page.
pub fn write_lines<K: Sink>(lines: &[u8], out: &mut K) -> Result<(), Failed> {
    let mut pen = Pen::new(out);
    pen.push(LEAST_HEAD);
    for byte in lines {
        match *byte {
            b'\n' | b'\t' | b'>' => pen.push(&[*byte]),
            _ => pen.push_text(&[*byte]),
        }
    }
    pen.push(b"</pre>");
    pen.finish()
}

/// Writes a page in a form; the full one has a picture of all of its lines, or of the first ones,
/// folded into it.
pub(crate) fn write_page<K: Sink>(
    page: &Page,
    form: PageForm,
    picture: &Picture,
    is_part: bool,
    out: &mut K,
) -> Result<(), Failed> {
    let mut pen = Pen::new(out);
    let needs = Needs::of(page, form, picture);
    write_head(&mut pen, page, &needs);
    write_sums(&mut pen, page, &needs);
    write_red(&mut pen, page);
    if needs.tab_width.is_some() {
        write_picture(&mut pen, picture, is_part);
    }
    write_choices(&mut pen, &needs);
    if needs.has_choice() {
        pen.push(b"<main>");
    }
    write_rows(&mut pen, page, &needs);
    if needs.has_choice() {
        pen.push(b"</main>");
    }
    pen.push(b"\n");
    pen.finish()
}

/// Writes the head, and the title.
fn write_head<K: Sink>(pen: &mut Pen<'_, K>, page: &Page, needs: &Needs) {
    pen.push(b"<!DOCTYPE html>");
    if !needs.plain {
        pen.push(b"<html lang=en><meta name=viewport content=\"width=device-width\">");
    }
    pen.push(b"<meta charset=utf-8><title>ccTalk, ");
    pen.push_number(page.lines);
    pen.push(b" lines</title><style>");
    write_style(pen, page, needs);
    pen.push(b"</style>");
    if page.left_out > 0 {
        pen.push(b"<p>");
        pen.push_number(page.left_out);
        pen.push(b" more rows are left out");
    }
}

/// Writes a picture, folded.
fn write_picture<K: Sink>(pen: &mut Pen<'_, K>, picture: &Picture, is_part: bool) {
    pen.push(b"<details><summary>Picture");
    if is_part {
        pen.push(b" of the first lines; cct_show svg FROM TO draws others");
    }
    pen.push(b"</summary>");
    picture.sketch(pen);
    pen.push(b"</details>");
}

/// Writes which rows a reader may choose, beside those of a device, and whether the bytes stand
/// there.
fn write_choices<K: Sink>(pen: &mut Pen<'_, K>, needs: &Needs) {
    if needs.choose_red {
        pen.push(b"<label><input type=checkbox id=errors>errors</label> ");
    }
    if needs.choose_records {
        pen.push(b"<label><input type=checkbox id=records>records</label> ");
    }
    if needs.choose_bytes {
        pen.push(b"<label><input type=checkbox id=bytes checked>bytes</label> ");
    }
}
