//! What the words of the command line want.
ghost use Rattle.std.specs.Prelude.{◌≡◌, ◌≢◌, IfOk, Some, None, Err, map, string_bytes};
ghost use Rattle.std.specs.List.{list_any};
ghost use Rattle.clap.specs.Words.{kind_of};
ghost use Rattle.cct_bench_words.specs.Grammar.{words_said};
ghost use Rattle.cct_bench_words.specs.Said.{is_dashed};

use crate::command::words_command;
use crate::said::said_under;
use clap::Error;
use clap::error::ErrorKind;
use std::alloc::Global;
use thiserror::Error;

/// What the program is to do.
#[derive(Clone, Copy, PartialEq, Eq)]
pub enum Words {
    /// Play the script on standard input.
    Run,
    /// List the records of the journal.
    Report,
    /// Bring a journal of an earlier version forward, for the devices of the script on standard
    /// input.
    Upgrade,
    /// Audit the capture on standard input: say which coins were surely accepted, and how many
    /// fell.
    Audit,
    /// Read the script on standard input to its end, and report each line of it that is refused.
    Check,
    /// Report what the journal knows now, and its money by the setup on standard input, where one
    /// is given.
    State,
    /// Play a load that a number makes, of so many rounds: 1 to 10,000.
    Load { seed: u64, rounds: u32 },
}

/// Why words aren't read.
#[derive(Clone, Copy, Debug, Drop, Error, PartialEq, Eq)]
pub enum WordsNo {
    /// They aren't in the grammar.
    #[error("the words aren't those of a command")]
    Refused,
    /// There was no memory to read them.
    #[error("there was no memory")]
    Memory,
}

/// Reads the words of the command line, without the program's name: `run`, `report`, `upgrade`,
/// `audit`, `check`, `state`, or `load SEED N`, with SEED a number below 2^64 and N one from 1 to
/// 10,000, both in decimal, without sign and without leading zeros.
///
/// # Errors
///
/// `Refused` for any other list, and so for each in which a word begins with `-`; `Memory` where
/// there is no memory to read them, whatever they are.
pub fn read_words(alloc: Global, words: &[String]) -> Result<Words, WordsNo>
    ensures said { IfOk result (λ said. words_said (map string_bytes words.now) ≡ Some said) }
    // Only words of which the grammar says nothing, such as any list with a word that begins with a
    // hyphen. If there is no memory, that may be answered whatever the words are.
    ensures refused { result ≡ Err WordsNo.Refused → words_said (map string_bytes words.now)
        ≡ None }
{
    if have_dash(words) {
        return Err(WordsNo::Refused);
    }
    let Ok(command) = words_command(alloc) else {
        return Err(WordsNo::Memory);
    };
    match command.try_get_matches_from(words) {
        Ok(matches) => said_under(&matches).ok_or(WordsNo::Refused),
        Err(error) => Err(refused_by(&error)),
    }
}

/// Whether one of the words begins with a hyphen.
fn have_dash(words: &[String]) -> bool
    ensures { result ≡ list_any (λ word. is_dashed (string_bytes word)) words.now }
{
    words.iter().any(|word| is_dashed(word.as_bytes()))
}

/// Whether a word begins with a hyphen.
fn is_dashed(word: &[u8]) -> bool
    ensures { result ≡ is_dashed word.now }
{
    matches!(word, [b'-', ..])
}

/// Why words aren't read, by what the parser says.
fn refused_by(error: &Error) -> WordsNo
    ensures { result ≡ WordsNo.Refused → kind_of error.now ≢ ErrorKind.OutOfMemory }
{
    match error.kind() {
        ErrorKind::OutOfMemory => WordsNo::Memory,
        _ => WordsNo::Refused,
    }
}
