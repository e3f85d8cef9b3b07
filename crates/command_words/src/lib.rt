//! The words of the command line: what they set, whether they ask for help, and which are refused. The command is one
//! of `clap`, and `specs/Words.antt` says what it reads.
#![tactic(auto)]

mod command;

ghost use Rattle.std.specs.Prelude.{IfOk, map};
ghost use Rattle.clap.specs.Words.{kind_of};
ghost use Rattle.command_words.specs.Answers.{IsAnswer, IsRefusalOf, IsWithinLimits, answer_to};
ghost use Rattle.command_words.specs.Laws.{FaultsAreOfOneKind, AcceptsWithoutFault, HelpsWhereAsked, RefusesAnotherFault, HasAnswers};

use crate::command::parsed;
use clap::Error;
use clap::error::ErrorKind;
use std::alloc::Global;
use std::convert::AsStr;

/// How many triples the graph may hold, where the words say nothing.
const TRIPLES: u64 = 10_000_000;

/// How many bytes the script and each file may have, where the words say nothing.
const BYTES: u64 = 1_099_511_627_776;

/// What the words ask for.
#[derive(Clone, Copy, Debug, PartialEq, Eq)]
pub struct Settings {
    pub sort: bool,
    pub max_triples: u64,
    pub max_bytes: u64,
}

/// Why the words give no settings.
#[derive(Debug, Drop)]
pub enum Refused {
    /// They ask for help, which is this text.
    Help(String),
    /// They are not the words of a run.
    Bad,
    /// Memory ran out.
    Memory,
}

// The answer for an error of clap.
fn refusal(alloc: Global, error: Error) -> Refused
    ensures { IsRefusalOf (kind_of error) result }
{
    match error.kind() {
        ErrorKind::OutOfMemory => Refused::Memory,
        ErrorKind::DisplayHelp => match error.to_string(alloc) {
            Ok(text) => Refused::Help(text),
            Err(_) => Refused::Memory,
        },
        _ => Refused::Bad,
    }
}

/// What the words behind the program's name say.
pub fn read_words<S: AsStr>(alloc: Global, words: &[S]) -> Result<Settings, Refused>
    ensures answer { IsAnswer (answer_to (map S.text words.now)) result }
    ensures limits { IfOk result IsWithinLimits }
{
    match parsed(alloc, words) {
        Ok(matches) => Ok(Settings {
            sort: matches.get_flag("sort"),
            max_triples: matches.get_one::<u64>("max-triples").unwrap_or(TRIPLES),
            max_bytes: matches.get_one::<u64>("max-bytes").unwrap_or(BYTES),
        }),
        Err(error) => Err(refusal(alloc, error)),
    }
}

/// No words have two kinds of fault.
pub fn faults_are_of_one_kind()
    ensures { FaultsAreOfOneKind }
{}

/// The answer is the settings exactly where clap has no fault, help exactly where that is the kind,
/// and a refusal exactly where it is another kind.
pub fn answers_are_exact()
    ensures accepted { AcceptsWithoutFault }
    ensures help { HelpsWhereAsked }
    ensures refused { RefusesAnotherFault }
{}

/// The answer to some words, as one would expect it.
pub fn answers_by_example()
    ensures { HasAnswers }
{}
