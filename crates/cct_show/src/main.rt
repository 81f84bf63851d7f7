//! The program: shows a transcript, or the lines of a bus logger, to people (`docs/SHOW.md`). The
//! word of the command line names the form.
#![tactic(auto)]

mod refused;
mod status;

use crate::refused::Refused;
use crate::status::{USAGE, WORDS_REFUSED, message_of};
use cct_edge::{StdSink, StdSource};
use cct_show_captured::{Watches, watches_in};
use cct_show_forms::{
    Part, RowForm, Status, show_page, show_picture, show_rows, show_text, write_capture,
};
use std::io::ErrorKind;
use std::process::ExitCode;
use std::rt::Env;
use std::{env, io};

/// In which form the lines are shown.
#[derive(Drop)]
enum Form {
    /// `text`: each line, and below it what it says.
    Text,
    /// `csv` or `json`: each line as a row of named columns.
    Rows(RowForm),
    /// `svg`, or `svg FROM TO`: a sequence picture of all lines, or of those from one number to
    /// another.
    Picture(Part),
    /// `html`: a page for a browser.
    Page,
    /// `--help`: which words there are.
    Help,
    /// `capture A CHECK KIND ..`: all exchanges, as an audit of these devices takes them.
    Capture(Watches),
}

fn main(rt: HostRuntime) -> ExitCode {
    let status = match words_of(&rt) {
        Ok(words) => match form_wanted(words.as_slice()) {
            Some(form) => show(form, &rt),
            None => {
                let why = Refused(words.as_slice());
                let _ = rt.eprintln(why);
                let _ = rt.eprintln(USAGE);
                return ExitCode::from(WORDS_REFUSED);
            }
        },
        Err(_) => Status::OutOfMemory,
    };
    if let Some(message) = message_of(status) {
        let _ = rt.eprintln(message);
    }
    ExitCode::from(status.code())
}

/// The words of the command line, without the program's name; none where one isn't UTF-8.
fn words_of(rt: &(impl Env + AllocGlobal)) -> io::Result<Vec<String>> {
    match env::args(rt) {
        Ok(words) => Ok(words.skip(1).collect(rt.alloc())?),
        Err(error) if error.kind() == ErrorKind::InvalidData => Ok(Vec::new(rt.alloc())),
        Err(error) => Err(error),
    }
}

/// Shows what is on standard input in a form.
fn show(form: Form, rt: &HostRuntime) -> Status {
    let errors = rt.stderr();
    let mut source = StdSource::new(rt.reader());
    let mut out = StdSink::new(io::writer(rt));
    let mut notes = StdSink::new(io::writer(&errors));
    match form {
        Form::Help => match rt.println(USAGE) {
            Ok(()) => Status::Done,
            Err(_) => Status::WriteFault,
        },
        Form::Text => show_text(&mut source, &mut out, &mut notes),
        Form::Rows(form) => show_rows(form, &mut source, &mut out),
        Form::Page => show_page(rt.alloc(), &mut source, &mut out),
        Form::Picture(part) => show_picture(rt.alloc(), part, &mut source, &mut out),
        Form::Capture(watches) => {
            let held = Vec::new(rt.alloc());
            write_capture(watches, held, &mut source, &mut out, &mut notes)
        }
    }
}

/// The form that the words of the command line name.
fn form_wanted(words: &[String]) -> Option<Form> {
    match words {
        [form] => whole_form(form.as_str()),
        [form, devices @ ..] if form.as_str() == "capture" => {
            watches_in(devices).ok().map(Form::Capture)
        }
        [form, from, to] => part_form(form.as_str(), from.as_str(), to.as_str()),
        _ => None,
    }
}

/// The form of all lines that a word names.
fn whole_form(word: &str) -> Option<Form> {
    match word {
        "text" => Some(Form::Text),
        "csv" => Some(Form::Rows(RowForm::Csv)),
        "json" => Some(Form::Rows(RowForm::Json)),
        "html" => Some(Form::Page),
        "--help" | "-h" | "help" => Some(Form::Help),
        "svg" => Some(Form::Picture(Part {
            from: 1,
            to: u64::MAX,
        })),
        _ => None,
    }
}

/// The form of a part that three words name: the first line, counted from 1, and the last one,
/// which isn't before it.
fn part_form(word: &str, from: &str, to: &str) -> Option<Form> {
    let from = from.parse::<u64>().ok()?;
    let to = to.parse::<u64>().ok()?;
    match word {
        "svg" if 1 <= from && from <= to => Some(Form::Picture(Part { from, to })),
        _ => None,
    }
}
