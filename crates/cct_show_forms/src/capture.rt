//! The form `capture`: the exchanges of a log or a transcript, as an audit takes them.

use crate::echoes::Echoes;
use crate::lines::{LineSink, read_lines};
use crate::log::{MOST_SAID, copy};
use crate::notes::Notes;
use crate::status::{Status, Stop};
use crate::stream::{Stream, is_stream};
use crate::taps::{Held, Taps};
use cct_edge::{Sink, Source};
use cct_model_lines::{Entry, HOST, MOST_HEARD, MOST_LINE, MOST_SENT};
use cct_show_captured::{Doubts, Guessed, Tally, Unread, Watches};
use cct_show_log::{LogReader, Said};
use cct_show_log_line::{Guess, LogBytes};
use cct_show_words::read_line;
use std::fmt::{self, Write};

/// The bytes of the line of an exchange that aren't digits: its word, and two spaces.
const AROUND: usize = 5;

/// What becomes of bytes that are no message.
const LEFT_OUT: &str = "left out";

const AS_HEARD: &str = "kept as heard";

/// An exchange, to which more lines of the log may add what was heard.
#[derive(Drop)]
struct Exchange {
    /// The number of the line in which it begins.
    line: u64,
    sent: LogBytes,
    heard: LogBytes,
    /// Whether more was heard than is kept.
    is_overfull: bool,
}

/// Why an exchange has no line in a capture.
#[derive(Clone, Copy)]
enum LeftOut {
    /// Nothing was sent in it.
    NothingSent,
    /// More was sent than a message has bytes.
    LongSent,
    /// More was heard than an echo and a reply have bytes.
    LongHeard,
    /// Its line would have so many bytes.
    LongLine(usize),
}

/// A capture on its way to a sink.
#[derive(Drop)]
struct Capture<'k, 'n, K, H, N> {
    notes: Notes<'n, N>,
    out: Taps<'k, K, H>,
    log: LogReader,
    /// The bytes of a line that is longer than a message, its echo and its reply.
    stream: Stream,
    /// The lines so far, and those that weren't understood.
    lines: Unread,
    /// How many exchanges there were, before the last one.
    exchanges: u64,
    last: Option<Exchange>,
    echoes: Echoes,
    tally: Tally,
    doubts: Doubts,
}

/// Writes the capture of all exchanges of a source, with these devices to be watched; `held`, in
/// which nothing is held, is for lines that wait. It notes which exchanges and how many other lines
/// are left out.
pub fn write_capture<S: Source, K: Sink, H: Held, N: Sink>(
    watches: Watches,
    held: H,
    source: &mut S,
    out: &mut K,
    notes: &mut N,
) -> Status {
    let mut capture = Capture {
        notes: Notes::new(notes),
        out: Taps::new(watches, held, out),
        log: LogReader::new(),
        stream: Stream::new(),
        lines: Unread::new(),
        exchanges: 0,
        last: None,
        echoes: Echoes::new(),
        tally: Tally::new(),
        doubts: Doubts::new(),
    };
    match capture.write(source) {
        Ok(()) if capture.lines.is_much() || capture.doubts.is_much() => Status::NotUnderstood,
        written => Status::of(written).or_empty(capture.lines.line),
    }
}

impl<K: Sink, H: Held, N: Sink> Capture<'_, '_, K, H, N> {
    /// Writes the whole capture; where reading fails, what was read before.
    fn write<S: Source>(&mut self, source: &mut S) -> Result<(), Stop> {
        match self.read(source) {
            Err(Stop::Read) => {
                self.out.begin()?;
                return Err(Stop::Read);
            }
            read => read?,
        }
        self.out.begin()?;
        self.out.end()?;
        self.tell_end();
        Ok(())
    }

    /// Takes all lines of a log, and what stays without an end.
    fn read<S: Source>(&mut self, source: &mut S) -> Result<(), Stop> {
        read_lines(source, self)?;
        self.log.end();
        self.take_said()?;
        self.close()
    }

    /// Says which lines weren't understood, which taps may be wrong, which acceptors are watched as
    /// `quiet`, and how many taps there are.
    fn tell_end(&mut self) {
        // Nothing more can be done where a note can't be written, here and below.
        let _ = self.lines.tell(&mut self.notes);
        let _ = self.doubts.tell(&mut self.notes);
        for watch in self.out.watches() {
            if let Some(quiet) = watch.quiet() {
                let _ = write!(self.notes, "cct_show: {quiet}\n");
            }
        }
        let tally = &self.tally;
        let _ = write!(self.notes, "cct_show: {tally}\n");
    }

    /// Takes all that the last line of a log says.
    fn take_said(&mut self) -> Result<(), Stop> {
        for _ in 0..MOST_SAID {
            let Some(said) = self.log.next_said() else {
                break;
            };
            self.logged(&said)?;
        }
        Ok(())
    }

    /// Takes the bytes of a long line so far.
    fn take_stream(&mut self) -> Result<(), Stop> {
        self.log.read_bytes(self.stream.take());
        self.take_said()
    }

    /// Takes a thing that a line of a log says.
    fn logged(&mut self, said: &Said) -> Result<(), Stop> {
        match said {
            Said::Exchange { sent, heard } => {
                self.open(sent.as_slice())?;
                self.hear(heard.as_slice());
            }
            Said::Tap { sent, heard } => self.whole(sent.as_slice(), heard.as_slice())?,
            Said::Sent(bytes) => self.open(bytes.as_slice())?,
            Said::Heard(bytes) => self.hear(bytes.as_slice()),
            Said::Late(bytes) => {
                self.hear(bytes.as_slice());
                self.tell_bytes(bytes.len(), AS_HEARD);
            }
            Said::Either(bytes) => self.either(bytes.as_slice())?,
            Said::Part { .. } => {}
            Said::Stray(count) => self.leave_out(*count),
            Said::Cut(count) => {
                // What is heard next is no reply to what was sent before.
                self.close()?;
                self.leave_out(*count);
            }
            Said::Guessed(guess) => self.tell_guess(*guess),
        }
        Ok(())
    }

    /// Takes an exchange that one line has whole, with its echo.
    fn whole(&mut self, sent: &[u8], heard: &[u8]) -> Result<(), Stop> {
        self.echoes = Echoes::expected();
        self.open(sent)?;
        self.hear(heard);
        self.close()
    }

    /// Begins an exchange.
    fn open(&mut self, sent: &[u8]) -> Result<(), Stop> {
        self.close()?;
        let mut exchange = Exchange {
            line: self.lines.line,
            sent: LogBytes::new(),
            heard: LogBytes::new(),
            is_overfull: false,
        };
        copy(&mut exchange.sent, sent);
        self.last = Some(exchange);
        Ok(())
    }

    /// Adds bytes that were heard. Where nothing was sent before, they are of an exchange without
    /// that.
    fn hear(&mut self, bytes: &[u8]) {
        let line = self.lines.line;
        let exchange = self.last.get_or_insert(Exchange {
            line,
            sent: LogBytes::new(),
            heard: LogBytes::new(),
            is_overfull: false,
        });
        if exchange.heard.try_extend_from_slice(bytes).is_err() {
            exchange.is_overfull = true;
        }
    }

    /// Takes bytes of which the log doesn't say which way they went. A message for the host was
    /// heard, and so was an echo.
    fn either(&mut self, bytes: &[u8]) -> Result<(), Stop> {
        match bytes {
            [HOST, ..] => self.hear(bytes),
            _ if self.is_echo(bytes) => self.hear(bytes),
            _ => self.open(bytes)?,
        }
        Ok(())
    }

    /// Whether bytes are the echo of what was sent right before, and echoes there may be.
    fn is_echo(&self, bytes: &[u8]) -> bool {
        match &self.last {
            Some(last) => {
                !self.echoes.are_none() && last.heard.is_empty() && last.sent.as_slice() == bytes
            }
            None => false,
        }
    }

    /// Ends the last exchange, and writes its line.
    fn close(&mut self) -> Result<(), Stop> {
        let Some(exchange) = self.last.take() else {
            return Ok(());
        };
        self.exchanges = self.exchanges.saturating_add(1);
        let sent = exchange.sent.as_slice();
        let heard = exchange.heard.as_slice();
        self.echoes.learn(sent, heard);
        let has_echo = heard.starts_with(sent) || !self.echoes.are_missing();
        match left_out(&exchange, has_echo) {
            Some(why) => {
                self.doubts
                    .leave_out(sent.len().saturating_add(heard.len()));
                self.tell_left_out(exchange.line, why);
                Ok(())
            }
            None => self.write_tap(&exchange, has_echo),
        }
    }

    /// Writes the line of an exchange; where the log has no echo, what was sent is before what was
    /// heard.
    fn write_tap(&mut self, exchange: &Exchange, has_echo: bool) -> Result<(), Stop> {
        let sent = exchange.sent.as_slice();
        let heard = exchange.heard.as_slice();
        let echo = if has_echo { b"".as_slice() } else { sent };
        self.tally.count(exchange.line, sent);
        self.doubts.exchange(exchange.line, sent, heard);
        self.out.tap(sent, echo, heard)
    }

    /// Says that the last exchange has no line.
    fn tell_left_out(&mut self, line: u64, why: LeftOut) {
        let number = self.exchanges;
        let _ = write!(
            self.notes,
            "cct_show: exchange {number}, from line {line}, is left out: {why}\n"
        );
    }

    /// Says that bytes up to the last line are in no exchange.
    fn leave_out(&mut self, count: usize) {
        self.doubts.leave_out(count);
        self.tell_bytes(count, LEFT_OUT);
    }

    /// Says what becomes of bytes up to the last line that are no message.
    fn tell_bytes(&mut self, count: usize, outcome: &str) {
        let line = self.lines.line;
        let bytes = if count == 1 { "byte" } else { "bytes" };
        let _ = write!(
            self.notes,
            "cct_show: {count} {bytes} up to line {line}, of no whole message: {outcome}\n"
        );
    }

    /// Says what was taken for granted to read the last line.
    fn tell_guess(&mut self, guess: Guess) {
        let line = self.lines.line;
        let guess = Guessed(guess);
        let _ = write!(self.notes, "cct_show: line {line}: {guess}\n");
    }
}

impl<K: Sink, H: Held, N: Sink> LineSink for Capture<'_, '_, K, H, N> {
    fn line(&mut self, line: &[u8]) -> Result<(), Stop> {
        if is_stream(line) {
            self.part(line)?;
            return self.end();
        }
        self.lines.next_line();
        let line = line.strip_suffix(b"\r").unwrap_or(line);
        match read_line(line) {
            Some(Entry::Wire { sent, heard, .. }) => {
                self.lines.take();
                return self.whole(sent.as_slice(), heard.as_slice());
            }
            Some(_) => {
                self.lines.take();
                return Ok(());
            }
            None => {}
        }
        match self.log.read(line) {
            None => self.lines.pass_over(line),
            Some(logged) => {
                if logged.has_bytes {
                    self.lines.take();
                }
                if let Some(time) = &logged.time {
                    self.doubts.time(self.lines.line, time.micros);
                }
            }
        }
        self.take_said()
    }

    fn part(&mut self, bytes: &[u8]) -> Result<(), Stop> {
        for byte in bytes {
            self.stream.add(*byte);
            if self.stream.is_full() {
                self.take_stream()?;
            }
        }
        Ok(())
    }

    fn end(&mut self) -> Result<(), Stop> {
        self.lines.next_line();
        self.take_stream()?;
        if self.stream.end() {
            self.lines.take();
        } else {
            self.lines
                .pass_over(b"a line that is longer than any of a log");
        }
        Ok(())
    }
}

/// Why an exchange has no line in a capture, if it has none.
fn left_out(exchange: &Exchange, has_echo: bool) -> Option<LeftOut> {
    let sent = exchange.sent.as_slice().len();
    let echo = if has_echo { 0 } else { sent };
    let heard = echo.saturating_add(exchange.heard.as_slice().len());
    let digits = sent.saturating_add(heard).saturating_mul(2);
    let line = digits.saturating_add(AROUND);
    if sent == 0 {
        return Some(LeftOut::NothingSent);
    }
    if sent > MOST_SENT {
        return Some(LeftOut::LongSent);
    }
    if heard > MOST_HEARD || exchange.is_overfull {
        return Some(LeftOut::LongHeard);
    }
    if line > MOST_LINE {
        return Some(LeftOut::LongLine(line));
    }
    None
}

impl fmt::Display for LeftOut {
    fn fmt<W: fmt::Write>(&self, f: &mut fmt::Formatter<W>) -> fmt::Result {
        match *self {
            LeftOut::NothingSent => f.write_str("nothing was sent in it"),
            LeftOut::LongSent => write!(f, "more than {MOST_SENT} bytes were sent"),
            LeftOut::LongHeard => write!(f, "more than {MOST_HEARD} bytes were heard"),
            LeftOut::LongLine(count) => {
                write!(
                    f,
                    "its line would have {count} bytes, and may have {MOST_LINE}"
                )
            }
        }
    }
}
