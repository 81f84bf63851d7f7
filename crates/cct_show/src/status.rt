//! What standard error says of the end.

use cct_show_forms::Status;

/// What is said where words are refused, and by the word `--help`.
pub(crate) const USAGE: &str = "\
usage: cct_show FORM < LINES (docs/SHOW.md), where FORM is
text                     each line, and below it what it says
csv, json                a row for each line
svg, svg FROM TO         a picture of all lines, or of those from one number to another
html                     a page for a browser
capture A CHECK KIND ..  the capture of a log, for an audit of these devices: A 2 to 255, CHECK simple or crc,
                         KIND acceptor, hopper or bills";

/// The exit status where the words of the command line name no form.
pub(crate) const WORDS_REFUSED: u8 = 2;

/// What is written to standard error after a form.
pub(crate) fn message_of(status: Status) -> Option<&'static str> {
    match status {
        Status::Done => None,
        Status::Empty => Some("cct_show: standard input had no line; write cct_show FORM < FILE"),
        Status::NoRows => {
            Some(
                "cct_show: no line is one of a transcript, a setup or a capture; of a bus log make a capture first: cct_show capture A CHECK KIND .. < LOG (docs/SHOW.md, \"A capture\")",
            )
        }
        Status::ReadFault => Some("cct_show: reading failed"),
        Status::WriteFault => Some("cct_show: writing failed"),
        Status::NotUnderstood => {
            Some(
                "cct_show: a tenth of the lines, or more, wasn't understood (docs/SHOW.md, \"Bus logs\")",
            )
        }
        Status::OutOfMemory => Some("cct_show: there was no memory"),
    }
}
