//! What the words of the command line ask for.

use clap::{Arg, ArgAction, ArgMatches, Command, Error, value_parser};
use std::alloc::{AllocError, Global};

/// What `--echo` may be.
static ECHOES: [&str; 3] = ["yes", "no", "find"];

/// What the program does, in one sentence.
const ABOUT: &str = "The host of the coin machine on a serial line (docs/LIVE.md)";

/// What `--version` says: the version of the program, and that of the lines that it reads and
/// writes (`docs/LIVE.md`).
const VERSION: &str = "1.0.0 protocol 1";

/// What is said below the list of the words.
const MORE: &str = "\
A file that is named setup or adopt is given as ./setup or ./adopt.
Standard input: the commands of a script, next A, do A, poll, status, state, balance,
stock A COUNT, change FIRST AMOUNT, serve, order ID, end.
Standard output: the lines of docs/LIVE.md and docs/TRANSCRIPT.md.
Exit status 0: at end; 1: a line of the setup is refused; 2: wrong words; 3: a file or the port can't be opened or read;
4: writing failed; 5, 7, 9: the journal (docs/OPERATING.md); 8: no memory; 11: the journal or the port is in use;
12: the port is no terminal, or isn't set up; 13: the journal was made for another setup; 14: setup heard nothing";

/// What is said of the form that drafts a setup.
const DRAFT: &str = "Write a setup of the devices that answer on a line to standard output";

/// What is said of the form that takes a new setup over.
const ADOPT: &str =
    "Take a changed setup over for the journal, on purpose; the balance is told before and after";

/// What the program is to do.
#[derive(Clone, Copy)]
pub(crate) enum Words<'w> {
    /// To be the host of the machine that a setup file describes, over a journal.
    Host(HostWords<'w>),
    /// To write a setup of what is on a line.
    Draft { line: LineWords<'w> },
    /// To take a setup over for a journal.
    Adopt { setup: &'w str, journal: &'w str },
}

/// What a host is over, and how it goes on.
#[derive(Clone, Copy)]
pub(crate) struct HostWords<'w> {
    pub(crate) setup: &'w str,
    pub(crate) journal: &'w str,
    pub(crate) line: LineWords<'w>,
    /// Whether the lines `wire` are left out.
    pub(crate) is_quiet: bool,
    /// Whether coins aren't asked for what they are.
    pub(crate) trusts_coins: bool,
    /// Whether the acceptors that run are stopped at the end.
    pub(crate) stops: bool,
}

/// The line, and how it is used.
#[derive(Clone, Copy)]
pub(crate) struct LineWords<'w> {
    /// The terminal of the line.
    pub(crate) port: &'w str,
    pub(crate) echo: Echo,
    /// How many silent reads are the longest time in which a device answers.
    pub(crate) longest: u16,
    /// How many silent reads come before a send after a whole reply.
    pub(crate) gap: u16,
}

/// Whether the line gives back what is sent.
#[derive(Clone, Copy, PartialEq, Eq)]
pub(crate) enum Echo {
    /// It does.
    Yes,
    /// It doesn't.
    No,
    /// That is to be found out.
    Find,
}

/// Reads the words of the command line, without the program's name: `SETUP PORT [options]`,
/// `setup PORT [options]` or `adopt SETUP [options]`. The parser's error says why there are none,
/// or has the help or the version that was asked for.
pub(crate) fn read_words<'w>(
    alloc: Global,
    words: &'w [String],
) -> Result<Option<Words<'w>>, Error> {
    let matches = words_command(alloc)?.try_get_matches_from(words)?;
    Ok(match matches.subcommand() {
        Some(("adopt", found)) => adopt_words(found),
        Some((_, found)) => draft_words(found),
        None => host_words(&matches),
    })
}

/// The command: a setup file and a port, or a subcommand.
fn words_command<'w>(alloc: Global) -> Result<Command<'w>, AllocError> {
    let host = host_command(alloc)?;
    let draft = Command::new(alloc, "setup")
        .about(DRAFT)
        .arg(port_word(alloc))?;
    let adopt = Command::new(alloc, "adopt")
        .about(ADOPT)
        .arg(setup_word(alloc))?
        .arg(journal_word(alloc))?;
    host.subcommand(with_line(alloc, draft)?)?.subcommand(adopt)
}

/// The command of a host, without the subcommands.
fn host_command<'w>(alloc: Global) -> Result<Command<'w>, AllocError> {
    let host = Command::new(alloc, "cct_live")
        .version(VERSION)
        .no_binary_name(true)
        .about(ABOUT)
        .after_help(MORE)
        .args_conflicts_with_subcommands(true)
        .subcommand_negates_reqs(true)
        .disable_help_subcommand(true)
        .arg(setup_word(alloc))?
        .arg(port_word(alloc))?
        .arg(journal_word(alloc))?;
    with_line(alloc, host)?
        .arg(flag_word(alloc, "quiet", "Leave out the lines wire"))?
        .arg(flag_word(
            alloc,
            "trust-setup",
            "Don't ask the acceptors which coins they know",
        ))?
        .arg(flag_word(
            alloc,
            "stop-at-end",
            "Stop each acceptor that runs at end, and at the end of the input",
        ))
}

/// The command with the options of a line.
fn with_line<'w>(alloc: Global, command: Command<'w>) -> Result<Command<'w>, AllocError> {
    command
        .arg(echo_word(alloc))?
        .arg(answer_word(alloc))?
        .arg(gap_word(alloc))
}

/// `SETUP`
fn setup_word<'w>(alloc: Global) -> Arg<'w> {
    Arg::new(alloc, "SETUP")
        .required(true)
        .action(ArgAction::Set)
        .help(
            "File with lines acceptor, hopper, bills, value, texts (docs/SCRIPT.md), up to a line begin or to its end",
        )
}

/// `PORT`
fn port_word<'w>(alloc: Global) -> Arg<'w> {
    Arg::new(alloc, "PORT")
        .required(true)
        .action(ArgAction::Set)
        .help(
            "Terminal of the line: stty -F PORT 9600 cs8 -parenb -cstopb raw -echo clocal -crtscts -hupcl min 0 time 1",
        )
}

/// `--journal FILE`
fn journal_word<'w>(alloc: Global) -> Arg<'w> {
    Arg::new(alloc, "journal")
        .long("journal")
        .value_name("FILE")
        .default_value("cctalk.jnl")
        .help(
            "The journal: it is gone on with, or made where it is missing or blank; FILE.setup has its setup",
        )
}

/// `--echo yes|no|find`
fn echo_word<'w>(alloc: Global) -> Arg<'w> {
    Arg::new(alloc, "echo")
        .long("echo")
        .value_name("WHETHER")
        .value_parser(ECHOES.as_slice())
        .default_value("yes")
        .help("Whether the line gives back what is sent; find polls all devices to see it")
}

/// `--answer READS`
fn answer_word<'w>(alloc: Global) -> Arg<'w> {
    Arg::new(alloc, "answer")
        .long("answer")
        .value_name("READS")
        .value_parser(value_parser!(u16).range(1..=1000))
        .default_value("12")
        .help("The longest time in which any device answers, in silent reads: 1 to 1000")
}

/// `--gap READS`
fn gap_word<'w>(alloc: Global) -> Arg<'w> {
    Arg::new(alloc, "gap")
        .long("gap")
        .value_name("READS")
        .value_parser(value_parser!(u16).range(0..=1000))
        .default_value("0")
        .help(
            "Silent reads before a message, after a whole reply: 0 to 1000; 1 where devices send a reply twice",
        )
}

/// A word that is there or isn't.
fn flag_word<'w>(alloc: Global, name: &'w str, help: &'w str) -> Arg<'w> {
    Arg::new(alloc, name)
        .long(name)
        .action(ArgAction::SetTrue)
        .help(help)
}

/// What the words of the first form say, if each is there.
fn host_words<'w>(found: &ArgMatches<'w>) -> Option<Words<'w>> {
    Some(Words::Host(HostWords {
        setup: found.get_str("SETUP")?,
        journal: found.get_str("journal")?,
        line: line_words(found)?,
        is_quiet: found.get_flag("quiet"),
        trusts_coins: found.get_flag("trust-setup"),
        stops: found.get_flag("stop-at-end"),
    }))
}

/// What the words after `setup` say, if each is there.
fn draft_words<'w>(found: &ArgMatches<'w>) -> Option<Words<'w>> {
    Some(Words::Draft {
        line: line_words(found)?,
    })
}

/// What the words after `adopt` say, if each is there.
fn adopt_words<'w>(found: &ArgMatches<'w>) -> Option<Words<'w>> {
    Some(Words::Adopt {
        setup: found.get_str("SETUP")?,
        journal: found.get_str("journal")?,
    })
}

/// What the words say of the line, if each is there.
fn line_words<'w>(found: &ArgMatches<'w>) -> Option<LineWords<'w>> {
    Some(LineWords {
        port: found.get_str("PORT")?,
        echo: echo_told(found.get_str("echo")?)?,
        longest: found.get_one::<u16>("answer")?,
        gap: found.get_one::<u16>("gap")?,
    })
}

/// What a word after `--echo` says.
fn echo_told(word: &str) -> Option<Echo> {
    match word {
        "yes" => Some(Echo::Yes),
        "no" => Some(Echo::No),
        "find" => Some(Echo::Find),
        _ => None,
    }
}
