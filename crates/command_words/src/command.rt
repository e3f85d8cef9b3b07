//! The command of `clap`: one flag, two options, and the help flag that `clap` adds.
ghost use Rattle.std.specs.Prelude.{◌≡◌, IfOk, map};
ghost use Rattle.clap.specs.Words.{FailsBy, app_of, found_of, rows_of, rule_of};
ghost use Rattle.command_words.specs.Words.{command, rows, faults, HasReadableValues, sort_rule, max_triples_rule, max_bytes_rule};

use clap::{Arg, ArgAction, ArgMatches, Command, Error};
use std::alloc::{AllocError, Global};
use std::convert::AsStr;

const ABOUT: &str =
    "Keeps a graph of RDF triples: reads a script from standard input and writes its answers to standard output.";

const EXAMPLE: &str = "Try: printf 'INSERT\\n<x:a> <x:knows> <x:b> .\\nGO\\nDUMP\\n' | tentris";

// `--sort`
fn sort_flag<'a>(alloc: Global) -> Arg<'a>
    ensures { rule_of result ≡ sort_rule }
{
    Arg::new(alloc, "sort")
        .long("sort")
        .action(ArgAction::SetTrue)
        .help("Sort the rows of each answer")
        .value_parser(clap::value_parser!(bool))
}

// `--max-triples N`
fn triples_option<'a>(alloc: Global) -> Arg<'a>
    ensures { rule_of result ≡ max_triples_rule }
{
    Arg::new(alloc, "max-triples")
        .long("max-triples")
        .value_name("N")
        .help("The most triples of the graph, 10000000 by itself")
        .value_parser(clap::value_parser!(u64).range(1..=500_000_000))
}

// `--max-bytes N`
fn bytes_option<'a>(alloc: Global) -> Arg<'a>
    ensures { rule_of result ≡ max_bytes_rule }
{
    Arg::new(alloc, "max-bytes")
        .long("max-bytes")
        .value_name("N")
        .help("The most bytes of the script and of each file, 1099511627776 by itself")
        .value_parser(clap::value_parser!(u64).range(1..=1_099_511_627_776))
}

// The command, of which `command` in `specs/Words.antt` says all that a parse reads.
fn script_command<'a>(alloc: Global) -> Result<Command<'a>, AllocError>
    ensures { IfOk result (λ c. app_of c ≡ command) }
{
    Command::new(alloc, "tentris")
        .no_binary_name(true)
        .about(ABOUT)
        .after_help(EXAMPLE)
        .arg(sort_flag(alloc))?
        .arg(triples_option(alloc))?
        .arg(bytes_option(alloc))
}

/// What clap makes of the words.
pub(crate) fn parsed<'a, S: AsStr>(alloc: Global, words: &'a [S]) -> Result<ArgMatches<'a>, Error>
    ensures matches { IfOk result (λ m. rows_of (found_of m) ≡ rows (map S.text words.now)) }
    ensures values { IfOk result HasReadableValues }
    ensures kinds { FailsBy (faults (map S.text words.now)) result }
{
    let command = script_command(alloc)?;
    command.try_get_matches_from(words)
}
