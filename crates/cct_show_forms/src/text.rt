//! The form `text`: each line as it is, and below it what it says.

use crate::lines::{LineSink, read_lines};
use crate::log::{Half, Log, MOST_SAID};
use crate::notes::Notes;
use crate::put_buffer::PutBuffer;
use crate::status::{Status, Stop};
use crate::words::Words;
use cct_edge::{Sink, Source};
use cct_show_captured::{Note, Unread, is_other_line};
use cct_show_columns::Rows;
use cct_show_log::LogLine;
use cct_show_log_line::{Time, after_time};
use cct_show_words::Exchange;
use std::fmt::Write;

/// Lines with what they say, on their way to a sink.
#[derive(Drop)]
pub(crate) struct Text<'k, K> {
    out: PutBuffer<'k, K>,
    log: Log,
    rows: Rows,
    /// The lines so far, and those that weren't understood.
    lines: Unread,
    /// Whether there are lines of a transcript, so that others need not be those of a log.
    is_transcript: bool,
}

/// Shows all lines of a source, each with what it says by one put. Of a log it notes which lines
/// weren't understood.
pub fn show_text<S: Source, K: Sink, N: Sink>(
    source: &mut S,
    out: &mut K,
    notes: &mut N,
) -> Status {
    let mut text = Text::new(out);
    let shown = text.show(source);
    if text.is_transcript || shown.is_err() || text.lines.line == 0 {
        return Status::of(shown).or_empty(text.lines.line);
    }
    // Nothing more can be done where a note can't be written.
    if text.lines.read == 0 {
        let _ = text.lines.tell_zeros(&mut Notes::new(notes));
        return Status::Done;
    }
    let _ = text.lines.tell(&mut Notes::new(notes));
    if text.lines.is_much() {
        Status::NotUnderstood
    } else {
        Status::Done
    }
}

impl<'k, K: Sink> Text<'k, K> {
    /// No line yet.
    pub(crate) fn new(out: &'k mut K) -> Text<'k, K> {
        Text {
            out: PutBuffer::new(out),
            log: Log::new(),
            rows: Rows::new(),
            lines: Unread::new(),
            is_transcript: false,
        }
    }

    /// Shows all lines, and what stays without an end.
    fn show<S: Source>(&mut self, source: &mut S) -> Result<(), Stop> {
        read_lines(source, self)?;
        self.finish()
    }

    /// After the last line shows what stays without an end.
    pub(crate) fn finish(&mut self) -> Result<(), Stop> {
        self.log.end();
        self.tell_said()?;
        self.out.write_out()?;
        Ok(())
    }

    /// Says what a line of a bus log says, and its time.
    fn tell_logged(&mut self, logged: &LogLine<'_>) -> Result<(), Stop> {
        if let Some(time) = &logged.time {
            self.tell_time(time)?;
        }
        self.tell_said()
    }

    /// Says what the last line says.
    fn tell_said(&mut self) -> Result<(), Stop> {
        for _ in 0..MOST_SAID {
            if !self.log.next() {
                break;
            }
            if let Some(note) = self.log.note {
                write!(self.out, "    {note}\n")?;
            }
            match self.log.note {
                None | Some(Note::Late) => self.tell_exchange()?,
                Some(_) => {}
            }
        }
        Ok(())
    }

    /// Says what the last line shows of an exchange.
    fn tell_exchange(&mut self) -> Result<(), Stop> {
        if let Some(tap) = self.log.tap {
            write!(self.out, "    tap {tap}\n")?;
        }
        if self.log.tells_no_reply {
            self.out.add(b"    no reply came to the request before\n")?;
        }
        if self.log.tells_no_echo {
            self.out
                .add(b"    the replies of this log stand without their echo\n")?;
        }
        let exchange = Exchange::new(self.log.sent.as_slice(), self.log.heard.as_slice());
        let asked = exchange.asked;
        let answer = exchange.answer;
        match self.log.half {
            Half::Both => write!(self.out, "{exchange}")?,
            Half::Sent => write!(self.out, "    {asked}\n")?,
            Half::Echoed => write!(self.out, "    {asked}\n    the echo\n")?,
            Half::Echo => self.out.add(b"    the echo\n")?,
            Half::Heard => write!(self.out, "    {answer}\n")?,
        }
        Ok(())
    }

    /// Says how long after the line before a line with a time is, where that has one too.
    fn tell_time(&mut self, time: &Time<'_>) -> Result<(), Stop> {
        if let Some(micros) = self.log.since(time) {
            let seconds = micros / 1_000_000;
            let millis = micros / 1000 % 1000;
            write!(
                self.out,
                "    {seconds}.{millis:03} s after the line before\n"
            )?;
        }
        Ok(())
    }
}

impl<K: Sink> LineSink for Text<'_, K> {
    fn line(&mut self, line: &[u8]) -> Result<(), Stop> {
        self.lines.next_line();
        self.out.add(line)?;
        self.out.add(b"\n")?;
        let line = line.strip_suffix(b"\r").unwrap_or(line);
        let (time, rest) = after_time(line);
        let row = self.rows.read(str::from_utf8(rest).unwrap_or(""));
        if let Some(words) = Words::of(&row, rest) {
            if let Some(time) = &time {
                self.tell_time(time)?;
            }
            self.is_transcript |= !is_other_line(rest);
            write!(self.out, "{words}")?;
        } else if let Some(logged) = self.log.read(line) {
            if logged.has_bytes {
                self.lines.take();
            }
            self.tell_logged(&logged)?;
        } else {
            self.lines.pass_over(rest);
        }
        self.out.write_out()?;
        Ok(())
    }

    fn part(&mut self, bytes: &[u8]) -> Result<(), Stop> {
        self.out.add(bytes)?;
        self.out.write_out()?;
        Ok(())
    }

    fn end(&mut self) -> Result<(), Stop> {
        self.lines.next_line();
        self.part(b"\n")
    }
}
