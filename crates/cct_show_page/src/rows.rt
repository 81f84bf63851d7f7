//! The rows of a page, and the folds of its jobs.

use crate::Page;
use crate::classes::Classes;
use crate::job::{Ending, Job};
use crate::list::List;
use crate::needs::Needs;
use crate::row::{Body, Poll, Row, Talk};
use crate::words::without_check;
use cct_edge::Sink;
use cct_show_pen::{Label, Pen};
use cct_show_picture::Place;
use cct_show_words::{alarm_of, name_of};

/// Writes all rows, in lists; those of a job stand in the fold of its command.
pub(crate) fn write_rows<K: Sink>(pen: &mut Pen<'_, K>, page: &Page, needs: &Needs) {
    let mut list = List::new();
    for (place, row) in page.rows.iter().enumerate() {
        match row.body {
            Body::Job(index) => {
                list.end(pen);
                write_fold(pen, page, needs, place, index);
            }
            Body::Talk(_) | Body::Line { .. } if row.job.is_none() => {
                list.begin_row(pen, needs, number_of(page, &row.place), place, row);
                write_row(pen, row);
            }
            Body::Talk(_) | Body::Line { .. } => {}
        }
    }
    list.end(pen);
}

/// Writes the fold of a job, whose command has the row at a place; it is open where it didn't end
/// well.
fn write_fold<K: Sink>(
    pen: &mut Pen<'_, K>,
    page: &Page,
    needs: &Needs,
    place: usize,
    index: usize,
) {
    let Some(job) = page.jobs.get(index) else {
        return;
    };
    let is_well = job.is_well();
    pen.push(b"<details");
    if !job.has_end() {
        push_count(pen, b" id=", place as u64, b"");
    }
    let is_red = !needs.plain && (job.reds > 0 || !is_well);
    let has_device = needs.choose_devices && job.addr != 0;
    let mut classes = Classes::new(usize::from(has_device) + usize::from(is_red));
    if has_device {
        classes.push_device(pen, job.addr);
    }
    classes.push_tone(pen, is_red, b"x");
    classes.finish(pen);
    match is_well {
        true => pen.push(b"><summary>"),
        false => pen.push(b" open><summary>"),
    }
    if let Some(number) = number_of(page, &job.place) {
        push_count(pen, b"", number, b". ");
    }
    push_time(pen, &job.place.time, &Label::empty());
    write_summary(pen, job);
    pen.push(b"</summary>");
    write_job_rows(pen, page, needs, job, index);
    pen.push(b"</details>");
}

/// Writes the rows of a job.
fn write_job_rows<K: Sink>(
    pen: &mut Pen<'_, K>,
    page: &Page,
    needs: &Needs,
    job: &Job,
    index: usize,
) {
    let mut list = List::new();
    for (place, row) in page.rows.iter().enumerate().skip(job.first) {
        if place > job.last {
            break;
        }
        if row.job == Some(index) {
            list.begin_row(pen, needs, number_of(page, &row.place), place, row);
            write_row(pen, row);
        }
    }
    list.end(pen);
}

/// Writes what became of a job.
fn write_summary<K: Sink>(pen: &mut Pen<'_, K>, job: &Job) {
    pen.push_text(&job.command);
    pen.push(b": ");
    pen.push_label(&job.became());
    write_coins(pen, job);
    if let Ending::Told { end, .. } = job.ending
        && let Some(alarm) = alarm_of(end)
    {
        pen.push(b"; ");
        pen.push_text(alarm.as_bytes());
    }
    if job.reds > 0 {
        push_count(pen, b"; to be looked at: ", job.reds, b"");
    }
    if job.times > 1 {
        push_count(pen, b", ", job.times, b" times, up to line ");
        pen.push_number(job.until);
    }
}

/// Writes how many coins a job posted and lost, and how many fell.
fn write_coins<K: Sink>(pen: &mut Pen<'_, K>, job: &Job) {
    if job.posted > 0 {
        push_count(pen, b", ", job.posted, b" in");
    }
    if job.lost > 0 {
        push_count(pen, b", ", job.lost, b" lost");
    }
    if let Some((paid, unpaid)) = job.closed {
        push_count(pen, b", ", u64::from(paid), b" fell");
        if unpaid > 0 {
            push_count(pen, b", ", u64::from(unpaid), b" did not");
        }
    }
}

/// Writes what is in a row, after its number.
fn write_row<K: Sink>(pen: &mut Pen<'_, K>, row: &Row) {
    let until = if row.poll_count() > 1 {
        row.until
    } else {
        Label::empty()
    };
    push_time(pen, &row.place.time, &until);
    match &row.body {
        Body::Talk(_) if row.poll_count() > 1 => write_run(pen, row),
        Body::Talk(talk) => write_talk(pen, talk),
        Body::Line { line, told } => write_line(pen, line, told),
        Body::Job(_) => {}
    }
    pen.push(b"\n");
}

/// The number of a row: of its line, or in a capture of its tap, where it is one.
fn number_of(page: &Page, place: &Place) -> Option<u64> {
    if page.has_taps {
        place.tap
    } else {
        Some(place.line)
    }
}

/// Writes the time of a row, where it has one, and until when it goes on.
fn push_time<K: Sink>(pen: &mut Pen<'_, K>, time: &Label, until: &Label) {
    if time.as_slice().is_empty() {
        return;
    }
    pen.push(b"<b>");
    pen.push_label(time);
    if !until.as_slice().is_empty() {
        pen.push(b" to ");
        pen.push_label(until);
    }
    pen.push(b"</b> ");
}

/// Writes which polls a row represents.
fn write_run<K: Sink>(pen: &mut Pen<'_, K>, row: &Row) {
    push_count(pen, b"", row.poll_count(), b" polls, up to ");
    push_count(pen, b"", row.last, b", each answered as before: ");
    let mut before: &[u8] = b"";
    for poll in &row.polls {
        pen.push(before);
        write_poll(pen, poll, row.only_addr().is_none());
        before = b", ";
    }
}

/// Writes a poll, how often it is asked, and where there are several devices which one.
fn write_poll<K: Sink>(pen: &mut Pen<'_, K>, poll: &Poll, has_addr: bool) {
    pen.push_number(poll.times);
    pen.push(b" of ");
    pen.push(name_of(poll.header).unwrap_or("header").as_bytes());
    push_count(pen, b" (", u64::from(poll.header), b")");
    if has_addr {
        push_count(pen, b" to ", u64::from(poll.addr), b"");
    }
}

/// Writes what was sent and heard, and the bytes.
fn write_talk<K: Sink>(pen: &mut Pen<'_, K>, talk: &Talk) {
    if !talk.asked.is_empty() {
        pen.push_text(without_check(&talk.asked));
        pen.push(b"\n");
    }
    pen.push_text(without_check(&talk.answer));
    pen.push(b"\n<i>");
    pen.push_hex(b"", &talk.sent);
    if !talk.heard.is_empty() {
        pen.push(b" / ");
        pen.push_hex(b"", &talk.heard);
    }
    pen.push(b"</i>");
}

/// Writes a line, and below it what it means.
fn write_line<K: Sink>(pen: &mut Pen<'_, K>, line: &[u8], told: &[u8]) {
    pen.push_text(line);
    for sentence in told.split(|byte| *byte == b'\n') {
        if !sentence.is_empty() {
            pen.push(b"\n");
            pen.push_text(sentence.strip_prefix(b"    ").unwrap_or(sentence));
        }
    }
}

/// Writes a number between two texts.
fn push_count<K: Sink>(pen: &mut Pen<'_, K>, before: &[u8], number: u64, after: &[u8]) {
    pen.push(before);
    pen.push_number(number);
    pen.push(after);
}
