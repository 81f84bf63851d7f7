//! The command that the words are parsed by.
ghost use Rattle.std.specs.Prelude.{◌≡◌, IfOk, false};
ghost use Rattle.clap.specs.Words.{app_of, rule_of};
ghost use Rattle.clap.specs.declared.builder.command.Command.TheViews.{out-Command};
ghost use Rattle.cct_bench_words.specs.Command.{bare_app, load_app, one_word, words_app};

use clap::{Arg, ArgAction, Command};
use std::alloc::{AllocError, Global};

/// The command: seven subcommands, of which one has two words after it.
pub(crate) fn words_command<'w>(alloc: Global) -> Result<Command<'w>, AllocError>
    ensures { IfOk result (λ command. app_of command ≡ words_app) }
{
    bare_command(alloc)
        .subcommand(Command::new(alloc, "run"))?
        .subcommand(Command::new(alloc, "report"))?
        .subcommand(Command::new(alloc, "upgrade"))?
        .subcommand(Command::new(alloc, "audit"))?
        .subcommand(Command::new(alloc, "check"))?
        .subcommand(Command::new(alloc, "state"))?
        .subcommand(load_command(alloc)?)
}

/// The command without its subcommands.
fn bare_command<'w>(alloc: Global) -> Command<'w>
    ensures { app_of result ≡ bare_app }
{
    Command::new(alloc, "cct_main")
        .no_binary_name(true)
        .subcommand_required(true)
        .disable_help_flag(true)
        .disable_help_subcommand(true)
}

/// The subcommand `load`.
fn load_command<'w>(alloc: Global) -> Result<Command<'w>, AllocError>
    ensures app { IfOk result (λ command. app_of command ≡ load_app) }
    ensures local { IfOk result (λ command. (out-Command command).has_globals ≡ false) }
{
    Command::new(alloc, "load")
        .arg(word_named(alloc, "seed"))?
        .arg(word_named(alloc, "rounds"))
}

/// An argument that takes one word, and is required.
fn word_named<'w>(alloc: Global, id: &'w str) -> Arg<'w>
    ensures rule { rule_of result ≡ one_word id.now }
    ensures local { result.global ≡ false }
{
    Arg::new(alloc, id).required(true).action(ArgAction::Set)
}
