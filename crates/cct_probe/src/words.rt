//! What the words of the command line ask for.

use clap::{Arg, ArgAction, ArgMatches, Command, Error, value_parser};
use std::alloc::{AllocError, Global};

/// What `--echo` may be.
static ECHOES: [&str; 2] = ["yes", "no"];

/// What the program does, in one sentence.
const ABOUT: &str =
    "Try whether the devices on a serial line keep what is relied on (docs/PROBE.md)";

/// What `--version` says: the version of the program, and that of the lines that it writes
/// (`docs/PROBE.md`).
const VERSION: &str = "1.0.0 protocol 1";

/// What is said below the list of the words.
const MORE: &str = "\
Standard output: the lines of docs/PROBE.md. A line do asks a person, who answers by a line done or skip on standard input.
Exit status 0: no premise is broken; 1: a line of the setup is refused; 2: wrong words; 3: the setup or the port can't be opened
or read; 4: writing failed; 8: no memory; 11: the port is in use; 12: the port is no terminal, or isn't set up;
14: no device answered; 15: a premise is broken; 16: the port failed";

/// What the program is to try.
#[derive(Clone, Copy)]
pub(crate) struct Words<'w> {
    pub(crate) setup: &'w str,
    /// The terminal of the line.
    pub(crate) port: &'w str,
    /// How many coins may be ordered.
    pub(crate) coins: u16,
    /// Whether a person is there.
    pub(crate) hands: bool,
    /// Whether that person has time.
    pub(crate) long: bool,
    /// Whether the line gives back what is sent.
    pub(crate) echoes: bool,
    /// How many silent reads are the longest time in which a device answers.
    pub(crate) longest: u16,
    /// Whether the lines `wire` are left out.
    pub(crate) is_quiet: bool,
}

/// Reads the words of the command line, without the program's name. The parser's error says why
/// there are none, or has the help or the version that was asked for.
pub(crate) fn read_words<'w>(
    alloc: Global,
    words: &'w [String],
) -> Result<Option<Words<'w>>, Error> {
    let matches = words_command(alloc)?.try_get_matches_from(words)?;
    Ok(words_in(&matches))
}

/// The command.
fn words_command<'w>(alloc: Global) -> Result<Command<'w>, AllocError> {
    Command::new(alloc, "cct_probe")
        .version(VERSION)
        .no_binary_name(true)
        .about(ABOUT)
        .after_help(MORE)
        .arg(place_word(
            alloc,
            "SETUP",
            "File with lines acceptor, hopper, bills, value, texts (docs/SCRIPT.md), up to a line begin or to its end",
        ))?
        .arg(place_word(
            alloc,
            "PORT",
            "Terminal of the line: stty -F PORT 9600 cs8 -parenb -cstopb raw -echo clocal -crtscts -hupcl min 0 time 1",
        ))?
        .arg(coins_word(alloc))?
        .arg(flag_word(alloc, "hands", "Do the trials that need a person"))?
        .arg(flag_word(
            alloc,
            "long",
            "Do the trials too in which 256 coins are put in",
        ))?
        .arg(echo_word(alloc))?
        .arg(answer_word(alloc))?
        .arg(flag_word(
            alloc,
            "quiet",
            "Leave out the lines wire, but for those below broken",
        ))
}

/// A word that has to be there.
fn place_word<'w>(alloc: Global, name: &'w str, help: &'w str) -> Arg<'w> {
    Arg::new(alloc, name)
        .required(true)
        .action(ArgAction::Set)
        .help(help)
}

/// `--coins N`
fn coins_word<'w>(alloc: Global) -> Arg<'w> {
    Arg::new(alloc, "coins")
        .long("coins")
        .value_name("N")
        .value_parser(value_parser!(u16).range(0..=1000))
        .default_value("0")
        .help(
            "The most coins that are ordered of all hoppers together, 0 to 1000: 10 for each do for all trials",
        )
}

/// `--echo yes|no`
fn echo_word<'w>(alloc: Global) -> Arg<'w> {
    Arg::new(alloc, "echo")
        .long("echo")
        .value_name("WHETHER")
        .value_parser(ECHOES.as_slice())
        .default_value("yes")
        .help("Whether the line gives back what is sent")
}

/// `--answer READS`
fn answer_word<'w>(alloc: Global) -> Arg<'w> {
    Arg::new(alloc, "answer")
        .long("answer")
        .value_name("READS")
        .value_parser(value_parser!(u16).range(1..=1000))
        .default_value("12")
        .help("The longest time in which any device answers, in silent reads: 1 to 1000")
}

/// A word that is there or isn't.
fn flag_word<'w>(alloc: Global, name: &'w str, help: &'w str) -> Arg<'w> {
    Arg::new(alloc, name)
        .long(name)
        .action(ArgAction::SetTrue)
        .help(help)
}

/// What the words say, if each is there.
fn words_in<'w>(found: &ArgMatches<'w>) -> Option<Words<'w>> {
    Some(Words {
        setup: found.get_str("SETUP")?,
        port: found.get_str("PORT")?,
        coins: found.get_one::<u16>("coins")?,
        hands: found.get_flag("hands"),
        long: found.get_flag("long"),
        echoes: found.get_str("echo")? == "yes",
        longest: found.get_one::<u16>("answer")?,
        is_quiet: found.get_flag("quiet"),
    })
}
