//! What the matches of a parse say.
ghost use Rattle.std.specs.Prelude.{◌≡◌, ◌∷◌, []};
ghost use Rattle.clap.specs.Words.{found_of, rows_of, subcommand_rows_of};
ghost use Rattle.cct_bench_words.specs.Grammar.{load_words};
ghost use Rattle.cct_bench_words.specs.Said.{load_in, said_by, said_under};

use crate::words::Words;
use cct_script::ranged;
use clap::ArgMatches;

/// How many rounds a load has at most.
const MOST_ROUNDS: u64 = 10_000;

/// What the matches say, by the subcommand that was met.
pub(crate) fn said_under(matches: &ArgMatches<'_>) -> Option<Words>
    ensures { result ≡ said_under (subcommand_rows_of matches.now) }
{
    let (name, found) = matches.subcommand()?;
    said_by(name, found)
}

/// What a subcommand with its matches says.
fn said_by(name: &str, found: &ArgMatches<'_>) -> Option<Words>
    ensures { result ≡ said_by name.now (rows_of (found_of found.now)) }
{
    match name {
        "run" => Some(Words::Run),
        "report" => Some(Words::Report),
        "upgrade" => Some(Words::Upgrade),
        "audit" => Some(Words::Audit),
        "check" => Some(Words::Check),
        "state" => Some(Words::State),
        "load" => load_in(found),
        _ => None,
    }
}

/// The load that the matches of `load` say.
#[tactic(auto, using(crate::proofs::Reading::load_reads))]
fn load_in(found: &ArgMatches<'_>) -> Option<Words>
    ensures { result ≡ load_in (rows_of (found_of found.now)) }
{
    match (found.get_str("seed"), found.get_str("rounds")) {
        (Some(seed), Some(rounds)) => load_of(seed, rounds),
        _ => None,
    }
}

/// The load that two words say, where both are numbers in their ranges.
#[tactic(auto, unfolding(crate::specs::Grammar::load_words))]
fn load_of(seed: &str, rounds: &str) -> Option<Words>
    ensures { result ≡ load_words (seed.now ∷ rounds.now ∷ []) }
{
    let seed = ranged(0, u64::MAX, seed.as_bytes())?;
    let rounds = ranged(1, MOST_ROUNDS, rounds.as_bytes())?;
    Some(Words::Load {
        seed,
        rounds: rounds as u32,
    })
}
