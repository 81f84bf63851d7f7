//! The exchanges of a bus log, from line to line.

use crate::echoes::Echoes;
use cct_model_lines::HOST;
use cct_show_captured::{Note, note_of};
use cct_show_log::{LogLine, LogReader, Said};
use cct_show_log_line::{LogBytes, Time};

/// More things than the lines of a log that are held can say.
pub(crate) const MOST_SAID: usize = 2000;

/// How much of an exchange a line shows.
#[derive(Clone, Copy, PartialEq, Eq)]
pub(crate) enum Half {
    Both,
    Sent,
    /// What was sent, and its echo alone.
    Echoed,
    /// The echo of what was sent, alone.
    Echo,
    /// What was heard after the echo.
    Heard,
}

/// What a log said last.
#[derive(Drop)]
pub(crate) struct Log {
    /// What was sent last, and what was heard after it, its echo first.
    pub(crate) sent: LogBytes,
    pub(crate) heard: LogBytes,
    pub(crate) half: Half,
    /// Whether the last request has no reply so far.
    is_waiting: bool,
    /// Whether the last thing said is a request, and the one before it had no reply.
    pub(crate) tells_no_reply: bool,
    /// Whether the last line is the first one that says that the log has no echo, and whether one
    /// did.
    pub(crate) tells_no_echo: bool,
    has_told_no_echo: bool,
    /// The number of the last line among the taps of a capture, from 1, where it is one.
    pub(crate) tap: Option<u64>,
    taps: u64,
    /// What the last thing said is apart from an exchange, if it is anything else.
    pub(crate) note: Option<Note>,
    echoes: Echoes,
    micros: Option<u64>,
    reader: LogReader,
}

impl Log {
    /// A log without a line.
    pub(crate) fn new() -> Log {
        Log {
            reader: LogReader::new(),
            note: None,
            sent: LogBytes::new(),
            heard: LogBytes::new(),
            half: Half::Both,
            is_waiting: false,
            tells_no_reply: false,
            tells_no_echo: false,
            has_told_no_echo: false,
            tap: None,
            taps: 0,
            echoes: Echoes::new(),
            micros: None,
        }
    }

    /// Reads the next line, if it is one of a log; [`next`](Log::next) then takes what it says. A
    /// log is text, so a line with a zero byte is none.
    pub(crate) fn read<'l>(&mut self, line: &'l [u8]) -> Option<LogLine<'l>> {
        if line.contains(&0) {
            return None;
        }
        self.reader.read(line)
    }

    /// The log is over: [`next`](Log::next) then takes what has no end.
    pub(crate) fn end(&mut self) {
        self.reader.end();
    }

    /// Takes the next thing that the last line says, and says whether there was one.
    pub(crate) fn next(&mut self) -> bool {
        match self.reader.next_said() {
            Some(said) => {
                self.take(&said);
                true
            }
            None => false,
        }
    }

    /// Takes a thing that a line says.
    fn take(&mut self, said: &Said) {
        self.tells_no_echo = false;
        self.tells_no_reply = false;
        self.tap = None;
        self.note = note_of(said);
        match said {
            Said::Exchange { sent, heard } => self.exchange(sent.as_slice(), heard.as_slice()),
            Said::Tap { sent, heard } => self.tap(sent.as_slice(), heard.as_slice()),
            Said::Sent(bytes) => self.sent(bytes.as_slice()),
            Said::Heard(bytes) | Said::Late(bytes) => self.heard(bytes.as_slice()),
            Said::Either(bytes) => self.either(bytes.as_slice()),
            Said::Part { .. } | Said::Stray(_) | Said::Cut(_) | Said::Guessed(_) => {}
        }
    }

    /// The time from the line before to this one, in millionths of a second, where both have one
    /// and it isn't negative.
    pub(crate) fn since(&mut self, time: &Time<'_>) -> Option<u64> {
        let before = self.micros;
        self.micros = Some(time.micros);
        time.micros.checked_sub(before?)
    }

    /// An exchange of a capture, which has the echo.
    fn tap(&mut self, sent: &[u8], heard: &[u8]) {
        self.echoes = Echoes::expected();
        self.taps = self.taps.saturating_add(1);
        self.tap = Some(self.taps);
        self.exchange(sent, heard);
        self.half = Half::Both;
        self.is_waiting = false;
        self.tells_no_reply = false;
    }

    /// An exchange of one line. Where that has the echo alone, a reply may come in a later one, but
    /// where it says that nothing was heard.
    fn exchange(&mut self, sent: &[u8], heard: &[u8]) {
        self.ask(sent);
        self.hear(heard);
        self.is_waiting = !heard.is_empty() && self.is_echo_alone();
        self.half = if self.is_waiting {
            Half::Echoed
        } else {
            Half::Both
        };
    }

    /// A message that the host sent.
    fn sent(&mut self, bytes: &[u8]) {
        self.ask(bytes);
        self.half = Half::Sent;
    }

    /// Keeps a request as the last one.
    fn ask(&mut self, bytes: &[u8]) {
        copy(&mut self.sent, bytes);
        self.heard.clear();
        self.tells_no_reply = self.is_waiting;
        self.is_waiting = true;
    }

    /// Bytes that the host heard: the echo alone, or what follows it.
    fn heard(&mut self, bytes: &[u8]) {
        if self.is_echo(bytes) {
            copy(&mut self.heard, bytes);
            self.echoes.hear();
            self.half = Half::Echo;
            return;
        }
        match self.half {
            Half::Echo | Half::Echoed => self.hear_after_echo(bytes),
            Half::Heard if self.echoes.are_known() => self.hear_after_echo(bytes),
            _ => self.hear(bytes),
        }
        self.is_waiting = self.is_waiting && self.is_echo_alone();
        self.half = if self.is_waiting {
            Half::Echo
        } else {
            Half::Heard
        };
    }

    /// Bytes that the host sent or heard. A message for the host was heard, and so was an echo.
    fn either(&mut self, bytes: &[u8]) {
        match bytes {
            [HOST, ..] => self.heard(bytes),
            _ if self.is_echo(bytes) => self.heard(bytes),
            _ => self.sent(bytes),
        }
    }

    /// Whether nothing was heard so far but the echo of what was sent.
    fn is_echo_alone(&self) -> bool {
        self.heard.as_slice() == self.sent.as_slice()
    }

    /// Whether bytes are the echo of what was sent right before, and echoes there may be.
    fn is_echo(&self, bytes: &[u8]) -> bool {
        self.half == Half::Sent && !self.echoes.are_none() && self.sent.as_slice() == bytes
    }

    /// Keeps what was heard after what was sent, with its echo first. A log may have no echoes: that
    /// is reported once, by the reply that shows it.
    fn hear(&mut self, bytes: &[u8]) {
        self.echoes.learn(self.sent.as_slice(), bytes);
        self.tells_no_echo = self.echoes.are_none() && !self.has_told_no_echo;
        self.has_told_no_echo |= self.tells_no_echo;
        if self.echoes.are_missing() && !bytes.starts_with(self.sent.as_slice()) {
            self.hear_after_echo(bytes);
        } else {
            copy(&mut self.heard, bytes);
        }
    }

    /// Keeps what was heard after the echo, with that before it.
    fn hear_after_echo(&mut self, bytes: &[u8]) {
        copy(&mut self.heard, self.sent.as_slice());
        // What finds no room is longer than an echo and a reply.
        let _ = self.heard.try_extend_from_slice(bytes);
    }
}

/// Puts bytes in place of what is held. There is room: both are bytes of a log.
pub(crate) fn copy(held: &mut LogBytes, bytes: &[u8]) {
    held.clear();
    let _ = held.try_extend_from_slice(bytes);
}
