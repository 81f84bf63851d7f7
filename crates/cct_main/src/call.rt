//! What a call of the program wants.

use cct_advice::Help;
use cct_bench_words::{Words, read_words};
use std::alloc::Global;

/// The file of the journal, in the current folder, where the words name no other one.
const JOURNAL: &str = "cctalk.jnl";

/// The name of no file: a disk of it has no file, and none is made.
const NO_FILE: &str = "";

/// A call: its words without the option that names a file, what these want, or none where they are
/// refused or couldn't be read, and the file of its journal.
#[derive(Drop)]
pub(crate) struct Call<'w> {
    pub(crate) words: &'w [String],
    wants: Option<Words>,
    file: &'w str,
}

impl<'w> Call<'w> {
    /// The call that the words of the command line make.
    pub(crate) fn of(alloc: Global, words: &'w [String]) -> Call<'w> {
        let (words, file) = match words {
            [word, option, file] if names_file(word, option) => (&words[..1], file.as_str()),
            _ => (words, JOURNAL),
        };
        Call {
            words,
            wants: read_words(alloc, words).ok(),
            file,
        }
    }

    /// The file of the journal, or the name of none where nothing is done with one: in an audit or
    /// a check, or where the words are refused.
    pub(crate) fn journal(&self) -> &'w str {
        match self.wants {
            Some(Words::Audit | Words::Check) | None => NO_FILE,
            _ => self.file,
        }
    }

    /// What it asks to be reported, if it asks for help.
    pub(crate) fn help(&self) -> Option<Help> {
        match self.words {
            [word] if is_help(word) => Some(Help::Usage),
            [word, text] if is_help(word) => Help::named(text.as_str()),
            _ => None,
        }
    }

    /// Whether it is an audit, which reads a capture.
    pub(crate) fn is_audit(&self) -> bool {
        self.wants == Some(Words::Audit)
    }

    /// Whether it is a check, which reads a script and plays nothing.
    pub(crate) fn is_check(&self) -> bool {
        self.wants == Some(Words::Check)
    }

    /// Whether it is a run, which may make its journal.
    pub(crate) fn is_run(&self) -> bool {
        self.wants == Some(Words::Run)
    }

    /// Whether it wants a journal that is there: none is made for it.
    pub(crate) fn wants_journal(&self) -> bool {
        matches!(
            self.wants,
            Some(Words::Report | Words::State | Words::Upgrade)
        )
    }

    /// Whether it may write into the journal, so that no other process may use it meanwhile. A
    /// report and a state only read.
    pub(crate) fn locks(&self) -> bool {
        matches!(
            self.wants,
            Some(Words::Run | Words::Load { .. } | Words::Upgrade)
        )
    }
}

/// Whether a word asks for help.
fn is_help(word: &String) -> bool {
    word.as_str() == "--help"
}

/// Whether these are the first two words of a report or a state of a journal in another file.
fn names_file(word: &String, option: &String) -> bool {
    matches!(word.as_str(), "report" | "state") && option.as_str() == "--journal"
}
