//! `tentris`: reads a script from standard input and writes its answers to standard output.
#![tactic(auto)]

ghost use Rattle.std.specs.Prelude.{◌≡◌, Ok, Err, IfErr, IfOk, drop, map, option_map};
ghost use Rattle.std.specs.String.{string_bytes};
ghost use Rattle.std.specs.Vec.Iter.{into_iter_items};
ghost use Rattle.command_words.specs.Answers.{answer_to};
ghost use Rattle.tentris_core.specs.Called.{IsByWords};
ghost use Rattle.tentris_cli.specs.Complaints.{line_of};
ghost use Rattle.tentris_cli.specs.Words.{status_of};

mod disk;
mod standard;
#[cfg(test)]
mod tests;

use disk::Disk;
use graph_store::{NoWatch, Store};
use standard::Counted;
use std::alloc::{AllocError, Global};
use std::env::Args;
use std::process::ExitCode;
use std::random::RandomSource;
use std::{env, io};
use tentris_core::{Status, run};
use trie_depth::SplitMix;

// The command line as the system tells it. Words that are not UTF-8 are bad words.
fn command_line(told: io::Result<Args>) -> Result<Args, Status>
    ensures ok { IfOk told (λ args. result ≡ Ok args) }
    ensures err { IfErr told (λ error. result ≡ Err (status_of error)) }
{
    match told {
        Ok(args) => Ok(args),
        Err(error) => match error.kind() {
            io::ErrorKind::InvalidData => Err(Status::BadWords),
            _ => Err(Status::Memory),
        },
    }
}

// The words behind the program's name.
fn behind_name(alloc: Global, args: Args) -> Result<Vec<String>, AllocError>
    ensures { IfOk result (λ words. words.items ≡ drop 1 (into_iter_items args)) }
{
    let mut args = args;
    args.next();
    let mut words = Vec::new(alloc);
    while let Some(word) = args.next() {
        words.push(word)?;
    }
    Ok(words)
}

// The words lent.
fn lent<'a>(alloc: Global, words: &'a [String]) -> Result<Vec<&'a str>, AllocError>
    ensures { IfOk result (λ lent. map (λ word. word.now) lent.items ≡ map string_bytes words.now) }
{
    let mut lent = Vec::new(alloc);
    for word in words {
        lent.push(word.as_str())?;
    }
    Ok(lent)
}

// A number that nobody can know beforehand, or 0 where the system has none.
fn seed(rt: &HostRuntime) -> u64 {
    let mut bytes = [0; 8];
    match rt.fill_bytes(&mut bytes) {
        Ok(()) => u64::from_le_bytes(bytes),
        Err(_) => 0,
    }
}

// Carries out the script on standard input over an empty graph.
fn carry_out(rt: &HostRuntime, words: &[String]) -> Status
    ensures words { IsByWords (answer_to (map string_bytes words.now)) result }
{
    let Ok(words) = lent(rt.alloc(), words) else {
        return Status::Memory;
    };
    let mut store = Store::<SplitMix>::seeded(rt.alloc(), seed(rt));
    let mut files = Disk::new(rt);
    let mut source = Counted::new(rt.stdin());
    let mut sink = Counted::new(rt.stdout());
    let status = run(
        rt.alloc(),
        &words,
        &mut store,
        &mut files,
        &mut source,
        &mut sink,
        &mut NoWatch,
    );
    store.close();
    status
}

// Carries out the script on standard input, where the command line could be read.
fn start(rt: &HostRuntime, line: Result<Args, Status>) -> Status
    ensures unread { IfErr line (λ status. result ≡ status) }
    ensures words { IfOk line (λ args. IsByWords (answer_to (map string_bytes (drop 1 (into_iter_items args)))) result) }
{
    let args = match line {
        Ok(args) => args,
        Err(status) => return status,
    };
    match behind_name(rt.alloc(), args) {
        Ok(words) => carry_out(rt, &words),
        Err(_) => Status::Memory,
    }
}

// The line on standard error for a status, if it has one.
fn complaint(status: Status) -> Option<&'static str>
    ensures { option_map (λ line. line.now) result ≡ line_of status }
{
    match status {
        Status::Done | Status::SomeRefused => None,
        Status::BadWords => Some("tentris: bad words"),
        Status::ReadFault => Some("tentris: read fault"),
        Status::WriteFault => Some("tentris: write fault"),
        Status::Memory => Some("tentris: no memory"),
        Status::TooLong => Some("tentris: script too long"),
    }
}

fn main(rt: HostRuntime) -> ExitCode {
    let status = start(&rt, command_line(env::args(&rt)));
    if let Some(line) = complaint(status) {
        let _ = eprintln!(rt; "{line}");
    }
    ExitCode::from(status.code())
}
