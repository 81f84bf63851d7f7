//! A bus log, line by line.

use crate::joined::{Joined, Said};
use cct_show_log_line::{Habit, Has, LogBytes, Time, read_has};

/// The bytes that some editors write before a text in UTF-8.
const ORDER_MARK: &[u8] = b"\xef\xbb\xbf";

/// What a line of a log is, apart from what it says.
#[derive(Clone, Copy)]
pub struct LogLine<'l> {
    /// The time that is before the bytes.
    pub time: Option<Time<'l>>,
    /// Whether there are bytes; else it says something of those in the lines below, or nothing.
    pub has_bytes: bool,
}

/// Reads a bus log, line by line.
#[derive(Drop)]
pub struct LogReader {
    habit: Habit,
    joined: Joined,
}

impl LogReader {
    /// A log without a line.
    pub fn new() -> LogReader {
        LogReader {
            habit: Habit::new(),
            joined: Joined::new(),
        }
    }

    /// Reads the next line, without its line feed; [`next_said`](LogReader::next_said) then says
    /// what it says, piece by piece. `None` for a line that isn't understood, which says nothing.
    pub fn read<'l>(&mut self, line: &'l [u8]) -> Option<LogLine<'l>> {
        let line = line.strip_prefix(ORDER_MARK).unwrap_or(line);
        self.habit.is_open = self.joined.is_open();
        let Some((has, time)) = read_has(line, &mut self.habit) else {
            self.habit.way = None;
            return None;
        };
        let has_bytes = match &has {
            Has::Heading(way) => {
                self.habit.way = *way;
                false
            }
            _ => true,
        };
        self.joined.take(has, self.habit.is_anew);
        Some(LogLine { time, has_bytes })
    }

    /// Takes bytes of a line by themselves, of which nothing says which way they went;
    /// [`next_said`](LogReader::next_said) then says what they say, piece by piece.
    pub fn read_bytes(&mut self, bytes: LogBytes) {
        self.joined.take(Has::Bytes { way: None, bytes }, false);
    }

    /// The log is over: [`next_said`](LogReader::next_said) then says what stayed without an end.
    pub fn end(&mut self) {
        self.joined.end();
    }

    /// The next thing that the last line says, until there is none.
    pub fn next_said(&mut self) -> Option<Said> {
        if let Some(guess) = self.habit.guess.take() {
            return Some(Said::Guessed(guess));
        }
        self.joined.next()
    }
}
