//! What is said of the lines of a log.

use cct_show_log::Said;
use cct_show_log_line::Guess;
use std::fmt;

/// What is said of a line that isn't of an exchange.
#[derive(Clone, Copy)]
pub enum Note {
    /// It ends within a message, of which so many bytes are there.
    Part { count: usize, len: Option<usize> },
    /// So many bytes up to it are no part of a message.
    Stray(usize),
    /// So many bytes before it began a message that the host may have sent, and no line ended.
    Cut(usize),
    /// What was taken for granted to read it.
    Guessed(Guess),
    /// What was heard in lines before, and no line ended, is shown now.
    Late,
}

/// What is said that isn't of an exchange alone.
pub fn note_of(said: &Said) -> Option<Note> {
    match said {
        Said::Part { count, len } => Some(Note::Part {
            count: *count,
            len: *len,
        }),
        Said::Stray(count) => Some(Note::Stray(*count)),
        Said::Cut(count) => Some(Note::Cut(*count)),
        Said::Guessed(guess) => Some(Note::Guessed(*guess)),
        Said::Late(_) => Some(Note::Late),
        _ => None,
    }
}

impl fmt::Display for Note {
    fn fmt<W: fmt::Write>(&self, f: &mut fmt::Formatter<W>) -> fmt::Result {
        match *self {
            Note::Part {
                count,
                len: Some(len),
            } if count < len => write!(f, "{count} of the {len} bytes of a message"),
            Note::Part { count, .. } => write!(f, "{count} bytes of no message so far"),
            Note::Stray(1) | Note::Cut(1) => f.write_str(
                "1 byte up to here is no part of a message",
            ),
            Note::Stray(count) | Note::Cut(count) => {
                write!(f, "{count} bytes up to here are no part of a message")
            }
            Note::Guessed(guess) => {
                let guess = Guessed(guess);
                write!(f, "{guess}")
            }
            Note::Late => f.write_str("heard in lines before, without its end:"),
        }
    }
}

/// What was taken for granted, as people read it.
#[derive(Clone, Copy)]
pub struct Guessed(pub Guess);

impl fmt::Display for Guessed {
    fn fmt<W: fmt::Write>(&self, f: &mut fmt::Formatter<W>) -> fmt::Result {
        f.write_str(match self.0 {
            Guess::Decimal =>
                "its numbers are read as decimal ones, since so the checksum is right",
            Guess::ShortHex => {
                "its numbers are read as hexadecimal ones of one digit or two, since so the checksum is right"
            }
            Guess::Count => {
                "its first number is read as that of the bytes, since so the checksum is right"
            }
            Guess::Fields => {
                "numbers beside the bytes are read as none of them, since so the checksum is right"
            }
            Guess::Characters => {
                "the characters of its text are read as bytes of their numbers, since so the checksum is right"
            }
            Guess::Ways => {
                "a message for the host is logged as sent; from here on the messages show which way they went"
            }
        })
    }
}
