//! The program: does what the words of the command line say, with the script or the capture on
//! standard input where they want one, writes to standard output, and ends with the status as exit
//! status. What a last line means, or what is wrong with a refused line, it says on standard error
//! (`cct_advice`).
#![tactic(auto)]

mod call;
mod heard;

use call::Call;
use cct_advice::{
    AdvisedSink, Help, KeptSink, KeptSource, MEMORY, SharedSource, UNCHECKED, UNTOLD, UNWRITTEN,
    Window, advise, words_of,
};
use cct_advice_near::near_word;
use cct_bench::{Status, audit_capture, bench};
use cct_disk::{FileDisk, InUse};
use cct_edge::{Failed, Sink, StdSink, StdSource};
use cct_model_lines::Entry;
use cct_text::put_entry;
use heard::tell_heard;
use std::cell::RefCell;
use std::fs::Files;
use std::io::ErrorKind;
use std::process::ExitCode;
use std::{fs, io};

/// The words that name a command.
const WORDS: &[&str] = &[
    "run", "check", "report", "state", "upgrade", "audit", "load",
];

/// The forms of `cct_show`, and what a capture takes.
const SHOWN: &[&str] = &["text", "csv", "json", "svg", "html", "capture"];

/// The commands that read a script or a capture.
const READERS: &[&str] = &["run", "check", "audit"];

/// How the program ended.
#[derive(Clone, Copy)]
enum End {
    /// As the call of the bench ended, or as such a call would.
    Of(Status),
    /// 11: another process uses the journal: `inuse journal`. It was left alone.
    InUse,
}

impl End {
    /// The exit status.
    fn code(self) -> u8 {
        match self {
            End::Of(status) => status.code(),
            End::InUse => 11,
        }
    }
}

fn main(rt: HostRuntime) -> ExitCode {
    let end = match words_of(&rt) {
        Ok(words) => answer(&rt, &Call::of(rt.alloc(), words.as_slice())),
        Err(_) => {
            let _ = rt.eprintln(MEMORY);
            End::Of(Status::OutOfMemory)
        }
    };
    ExitCode::from(end.code())
}

/// Does what a call wants.
fn answer(rt: &HostRuntime, call: &Call<'_>) -> End {
    if let Some(help) = call.help() {
        End::Of(write_help(rt, help))
    } else if call.wants_journal() && is_missing(rt, call.journal()) {
        End::Of(tell_missing(rt, call.journal()))
    } else if call.is_check() {
        End::Of(check(rt, call))
    } else if call.is_audit() {
        End::Of(audit(rt))
    } else {
        play(rt, call)
    }
}

/// Does what a call wants that reads a script or a journal, and writes on standard error what there
/// is to say of the end.
fn play(rt: &HostRuntime, call: &Call<'_>) -> End {
    let mut script = KeptSource::new(StdSource::new(rt.reader()));
    let mut out = KeptSink::new(StdSink::new(io::writer(rt)));
    let is_new = call.is_run() && is_missing(rt, call.journal());
    let end = match open(rt, call) {
        Ok(disk) => {
            let (status, disk) = bench(rt.alloc(), call.words, &mut script, &mut out, disk);
            if is_new && status == Status::ScriptRefused && !out.tells_record() {
                // It has no record, and would be in the way of the next run.
                let _ = fs::remove_file(rt, call.journal());
            }
            drop(disk);
            End::Of(status)
        }
        Err(InUse) => tell_in_use(&mut out),
    };
    let _ = match end {
        End::Of(Status::Done) => Ok(()),
        End::Of(Status::OutOfMemory) => rt.eprintln(MEMORY),
        End::Of(Status::WriteFault) => rt.eprintln(UNWRITTEN),
        _ => match advise(out.last(), script.window(), call.journal()) {
            Some(advice) => rt.eprintln(advice),
            None => Ok(()),
        },
    };
    if let End::Of(Status::WordsRefused) = end {
        tell_meant(rt, call);
    }
    end
}

/// Says what was meant, where the first word is nearly one that there is, or one of `cct_show`,
/// or where a file is named that standard input is to give.
fn tell_meant(rt: &impl Eprint, call: &Call<'_>) {
    let Some(word) = call.words.first() else {
        return;
    };
    let word = word.as_str();
    if SHOWN.contains(&word) {
        let _ = eprintln!(rt; "{word} is a form of cct_show (docs/SHOW.md)");
    } else if let Some(meant) = near_word(word.as_bytes(), WORDS)
        && word != meant
    {
        let _ = eprintln!(rt; "did you mean {meant}?");
    } else if let [_, file] = call.words
        && READERS.contains(&word)
    {
        let file = file.as_str();
        let _ = eprintln!(rt; "{word} reads standard input: cct_main {word} < {file}");
    }
}

/// Audits the capture, and says on standard error how many of its exchanges were for each watched
/// device.
// In a frame of its own it takes no room where a script is played.
#[inline(never)]
fn audit(rt: &HostRuntime) -> Status {
    let mut script = KeptSource::of_capture(StdSource::new(rt.reader()));
    let mut out = KeptSink::new(StdSink::new(io::writer(rt)));
    let (status, monitor) = audit_capture(&mut script, &mut out);
    match status {
        Status::Done => tell_heard(rt, &monitor),
        Status::WriteFault => {
            let _ = rt.eprintln(UNTOLD);
        }
        _ => {
            if let Some(advice) = advise(out.last(), script.window(), "") {
                let _ = rt.eprintln(advice);
            }
        }
    }
    status
}

/// Reports each line of the script that is refused, and says on standard error what is wrong with
/// it.
// In a frame of its own it takes no room where a script is played.
#[inline(never)]
fn check(rt: &HostRuntime, call: &Call<'_>) -> Status {
    let window = RefCell::new(Window::of_script());
    let mut script = SharedSource::new(StdSource::new(rt.reader()), &window);
    let mut out = AdvisedSink::new(StdSink::new(io::writer(rt)), &window, rt);
    let disk = FileDisk::open_file(rt, call.journal());
    let (status, _) = bench(rt.alloc(), call.words, &mut script, &mut out, disk);
    let _ = match status {
        Status::OutOfMemory => rt.eprintln(MEMORY),
        Status::WriteFault => rt.eprintln(UNCHECKED),
        _ => Ok(()),
    };
    status
}

/// The disk over the journal's file. It is locked where something may be written into it.
fn open(rt: &HostRuntime, call: &Call<'_>) -> Result<FileDisk<HostRuntime>, InUse> {
    if call.locks() {
        FileDisk::open_locked(rt, call.journal())
    } else {
        Ok(FileDisk::open_file(rt, call.journal()))
    }
}

/// Says that another process uses the journal.
fn tell_in_use<K: Sink>(out: &mut K) -> End {
    match out.put(b"inuse journal\n") {
        Ok(()) => End::InUse,
        Err(Failed) => End::Of(Status::WriteFault),
    }
}

/// Whether there is no such file, nor a link of its name.
fn is_missing(rt: &impl Files, journal: &str) -> bool {
    match fs::symlink_metadata(rt, journal) {
        Ok(_) => false,
        Err(error) => error.kind() == ErrorKind::NotFound,
    }
}

/// A report or an upgrade where there is no file: it says what one of a blank file does. None is
/// made, and no script is read.
fn tell_missing(rt: &HostRuntime, journal: &str) -> Status {
    let mut out = StdSink::new(io::writer(rt));
    match put_entry(&mut out, &Entry::JournalAlien) {
        Ok(()) => {
            let _ = eprintln!(rt;
                "there is no {journal}, and none was made (docs/OPERATING.md, \"A journal that isn't right\")"
            );
            Status::JournalLost
        }
        Err(Failed) => {
            let _ = rt.eprintln(UNWRITTEN);
            Status::WriteFault
        }
    }
}

/// Writes the help that was asked for.
fn write_help(rt: &impl Print, help: Help) -> Status {
    match rt.println(help) {
        Ok(()) => Status::Done,
        Err(_) => Status::WriteFault,
    }
}
