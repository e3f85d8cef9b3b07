//! A run over a script: the top call.
//!
//! The script is read line by line; each command is carried out whole, or refused, and its answer passed on whole
//! before the next line is read.
ghost use Rattle.std.specs.Prelude.{◌≡◌, ◌≤◌, ◌<◌, [], length, IfOk, IfSome, ◌≢◌, map};
ghost use Rattle.tn_io.specs.Causes.{Rose};
ghost use Rattle.tn_io.specs.CutterState.{line_told};
ghost use Rattle.tn_io.specs.FileFaults.{FaultCounts};
ghost use Rattle.rdf_model.specs.Dumps.{dump_lines};
ghost use Rattle.line_batch.specs.Batches.{lent_line};
ghost use Rattle.line_batch.specs.Sound.{IsBetweenCommands};
ghost use Rattle.command_words.specs.Answers.{answer_to, IsWithinLimits};
ghost use Rattle.tentris_core.specs.Places.{IsAt, IsReadyAt, HasBeen};
ghost use Rattle.tentris_core.specs.Carrying.{around};
ghost use Rattle.graph_store.specs.StoreState.{StoreState, IsSettled, graph};
ghost use Rattle.graph_store.specs.Stands.{Stands};
ghost use Rattle.tentris_core.specs.Traffic.{traffic};
ghost use Rattle.tentris_core.specs.Runs.{Ends};
ghost use Rattle.tentris_core.specs.Called.{EndsScript, EndsCall, IsByWords, WritesHelp};
ghost use Rattle.tentris_core.specs.Endings.{Finishes, EndsInBlock, IsShownLast};
ghost use Rattle.script_read.specs.ScriptState.{at_start};

use crate::block::{Progress, take_line};
use crate::outcome::{Outcome, pass_on};
use crate::tools::Tools;
use answer_text::Refusal;
use command_words::{Refused, Settings, read_words};
use file_read::FileReader;
use graph_store::{Store, Watch};
use line_batch::{Answer, Counts};
use rdf_term::Scratch;
use script_read::{Script, ScriptFault};
use std::alloc::Global;
use std::marker::Brand;
use std::sync::ledger::{Blank, Ledger};
use tn_io::{Cut, Files, Out, Sink, Source, write_all};
use trie_depth::{Memory, Mix, Steps};

/// How a run ended.
#[derive(Clone, Copy, Debug, PartialEq, Eq)]
pub enum Status {
    /// The script was read to its end, and no command was refused.
    Done,
    /// The script was read to its end, and at least one command was refused.
    SomeRefused,
    /// The words after the program's name aren't understood.
    BadWords,
    /// A read of the script failed.
    ReadFault,
    /// A write of an answer failed.
    WriteFault,
    /// Memory ran out before the script was read.
    Memory,
    /// The script has more bytes than it may have.
    TooLong,
}

impl Status {
    ghost use Rattle.tentris_core.specs.Codes.{code_of};

    /// The exit status of the program.
    pub fn code(self) -> u8
        ensures { result ≡ code_of self }
    {
        match self {
            Status::Done => 0,
            Status::SomeRefused => 1,
            Status::BadWords => 2,
            Status::ReadFault => 3,
            Status::WriteFault => 4,
            Status::Memory => 5,
            Status::TooLong => 6,
        }
    }
}

// The line that a cut told.
fn told_line(cut: Cut, script: &Script) -> Option<&[u8]>
    ensures line { lent_line result ≡ line_told cut script.now.cutter }
    ensures short { IfSome result (λ l. length l.now ≤ 1048576) }
{
    match cut {
        Cut::Whole => Some(script.line()),
        Cut::TooLong => None,
    }
}

// Refuses the block that the script ends in.
fn refuse_unended<K: Sink>(out: &mut Out<'_, K>) -> Status
    requires empty { out.old.buffer ≡ [] }
    ensures same_sink { out.new.sink.ghost_name ≡ out.old.sink.ghost_name }
    ensures ends { EndsInBlock (K.written out.old.sink.now) (K.written out.new.sink.now) result }
    ensures later { K.faults out.old.sink.now ≤ K.faults out.new.sink.now }
    ensures fault { result ≡ Status.WriteFault → Rose (K.faults out.old.sink.now) (K.faults out.new.sink.now) }
{
    let answer = Answer::Refused(Refusal::Unended);
    match pass_on(out, &answer) {
        Outcome::Cut => Status::WriteFault,
        Outcome::GoesOn | Outcome::Answered(_) => Status::SomeRefused,
    }
}

// The script has ended: a block without its end is refused, and shown as a command.
fn finish<M: Mix, K: Sink, Z: Watch>(
    place: Progress,
    refused: bool,
    store: &mut Store<M>,
    out: &mut Out<'_, K>,
    watch: &mut Z,
) -> Status
    requires been { HasBeen M.mixed store.old place }
    requires empty { out.old.buffer ≡ [] }
    ensures same_sink { out.new.sink.ghost_name ≡ out.old.sink.ghost_name }
    ensures store { (h : HasBeen M.mixed store.old place) → store.new ≡ h.last }
    ensures ends { Finishes place refused (K.written out.old.sink.now) (K.written out.new.sink.now) result }
    ensures shown { IsShownLast place (Z.shown watch.old) (Z.shown watch.new) (dump_lines (graph store.new)) }
    ensures later { K.faults out.old.sink.now ≤ K.faults out.new.sink.now }
    ensures fault { result ≡ Status.WriteFault → Rose (K.faults out.old.sink.now) (K.faults out.new.sink.now) }
{
    let ended = matches!(&place, Progress::Outside);
    place.abandon(store);
    if ended {
        return if refused {
            Status::SomeRefused
        } else {
            Status::Done
        };
    }
    let status = refuse_unended(out);
    watch.seen(store);
    status
}

// Carries out the script, from its first line on.
fn carry_out<M: Mix, F: Files, S: Source, K: Sink, Z: Watch, W: Ledger, V: Ledger, U: Ledger>(
    alloc: Global,
    script: &mut Script,
    tools: &mut Tools<W, V, U>,
    store: &mut Store<M>,
    files: &mut F,
    source: &mut S,
    out: &mut Out<'_, K>,
    watch: &mut Z,
) -> Status
    requires start { script.old ≡ at_start tools.old.reader.max }
    requires few { tools.old.reader.max ≤ 1099511627776 }
    requires sound { IsBetweenCommands M.mixed store.old }
    requires empty { out.old.buffer ≡ [] }
    ensures same_sink { out.new.sink.ghost_name ≡ out.old.sink.ghost_name }
    ensures ends { Ends result (around M.mixed tools.old.sorted tools.old.reader.max (F.files files.old)) store.old store.new
        (traffic (S.left source.old) (K.written out.old.sink.now) (Z.shown watch.old) (F.faults files.old))
        (traffic (S.left source.new) (K.written out.new.sink.now) (Z.shown watch.new) (F.faults files.new)) }
    ensures sound { IsBetweenCommands M.mixed store.new }
    ensures accepted { result ≢ Status.BadWords }
    ensures sufficed { result ≢ Status.Memory }
    ensures files { F.files files.new ≡ F.files files.old }
    ensures later_read { S.faults source.old ≤ S.faults source.new }
    ensures later_write { K.faults out.old.sink.now ≤ K.faults out.new.sink.now }
    ensures read_fault { result ≡ Status.ReadFault → Rose (S.faults source.old) (S.faults source.new) }
    ensures write_fault { result ≡ Status.WriteFault → Rose (K.faults out.old.sink.now) (K.faults out.new.sink.now) }
{
    let mut place = Progress::Outside;
    let mut refused = false;
    'lines: loop {
        let cut = match script.next_line(source) {
            Ok(Some(cut)) => cut,
            Ok(None) => return finish(place, refused, store, out, watch),
            Err(ScriptFault::Read) => {
                place.abandon(store);
                return Status::ReadFault;
            }
            Err(ScriptFault::TooLong) => {
                place.abandon(store);
                return Status::TooLong;
            }
        };
        let line = told_line(cut, script);
        let (next, outcome) = take_line(alloc, store, files, tools, place, line, out);
        place = next;
        match outcome {
            Outcome::GoesOn => {}
            Outcome::Answered(refusal) => {
                refused |= refusal;
                watch.seen(store);
            }
            Outcome::Cut => {
                watch.seen(store);
                place.abandon(store);
                return Status::WriteFault;
            }
        }
    }
}

// Carries out the script over a store that may have as many triples as the settings say.
fn carry_out_within<
    M: Mix,
    F: Files,
    S: Source,
    K: Sink,
    Z: Watch,
    W: Ledger,
    V: Ledger,
    U: Ledger,
>(
    alloc: Global,
    settings: Settings,
    script: &mut Script,
    tools: &mut Tools<W, V, U>,
    store: &mut Store<M>,
    files: &mut F,
    source: &mut S,
    out: &mut Out<'_, K>,
    watch: &mut Z,
) -> Status
    requires start { script.old ≡ at_start settings.max_bytes }
    requires limits { IsWithinLimits settings }
    requires sorted { tools.old.sorted ≡ settings.sort }
    requires most { tools.old.reader.max ≡ settings.max_bytes }
    requires sound { IsBetweenCommands M.mixed store.old }
    requires empty { out.old.buffer ≡ [] }
    ensures same_sink { out.new.sink.ghost_name ≡ out.old.sink.ghost_name }
    ensures ends { EndsScript settings result M.mixed (F.files files.old) store.old store.new
        (traffic (S.left source.old) (K.written out.old.sink.now) (Z.shown watch.old) (F.faults files.old))
        (traffic (S.left source.new) (K.written out.new.sink.now) (Z.shown watch.new) (F.faults files.new)) }
    ensures sound { IsBetweenCommands M.mixed store.new }
    ensures files { F.files files.new ≡ F.files files.old }
    ensures later_read { S.faults source.old ≤ S.faults source.new }
    ensures later_write { K.faults out.old.sink.now ≤ K.faults out.new.sink.now }
    ensures read_fault { result ≡ Status.ReadFault → Rose (S.faults source.old) (S.faults source.new) }
    ensures write_fault { result ≡ Status.WriteFault → Rose (K.faults out.old.sink.now) (K.faults out.new.sink.now) }
{
    store.set_max(settings.max_triples);
    carry_out(alloc, script, tools, store, files, source, out, watch)
}

// The buffers of reading, and counters that begin at 0.
fn tools_for<W: Ledger, V: Ledger, U: Ledger>(
    alloc: Global,
    settings: Settings,
    interns: Blank,
    retains: Blank,
    reads: Blank,
) -> Result<Tools<W, V, U>, Memory>
    requires few { settings.max_bytes ≤ 1099511627776 }
    requires name { interns.name ≡ W.name }
    requires parts { interns.parts ≡ W.parts }
    requires whole { 0 < W.parts }
    requires other_name { retains.name ≡ V.name }
    requires other_parts { retains.parts ≡ V.parts }
    requires other_whole { 0 < V.parts }
    requires third_name { reads.name ≡ U.name }
    requires third_parts { reads.parts ≡ U.parts }
    requires third_whole { 0 < U.parts }
    ensures sorted { IfOk result (λ tools. tools.sorted ≡ settings.sort) }
    ensures most { IfOk result (λ tools. tools.reader.max ≡ settings.max_bytes) }
{
    Ok(Tools {
        sorted: settings.sort,
        scratch: Scratch::new(alloc)?,
        reader: FileReader::new(alloc, settings.max_bytes)?,
        counts: Counts {
            interns: Steps::<W>::new(interns),
            retains: Steps::<V>::new(retains),
            reads: Steps::<U>::new(reads),
        },
    })
}

// Carries out the script with buffers and counters of its own.
fn run_script<M: Mix, F: Files, S: Source, K: Sink, Z: Watch, W: Ledger, V: Ledger, U: Ledger>(
    alloc: Global,
    settings: Settings,
    store: &mut Store<M>,
    files: &mut F,
    source: &mut S,
    sink: &mut K,
    watch: &mut Z,
    interns: Blank,
    retains: Blank,
    reads: Blank,
) -> Status
    requires sound { IsBetweenCommands M.mixed store.old }
    requires limits { IsWithinLimits settings }
    requires name { interns.name ≡ W.name }
    requires parts { interns.parts ≡ W.parts }
    requires whole { 0 < W.parts }
    requires other_name { retains.name ≡ V.name }
    requires other_parts { retains.parts ≡ V.parts }
    requires other_whole { 0 < V.parts }
    requires third_name { reads.name ≡ U.name }
    requires third_parts { reads.parts ≡ U.parts }
    requires third_whole { 0 < U.parts }
    ensures ends { EndsScript settings result M.mixed (F.files files.old) store.old store.new
        (traffic (S.left source.old) (K.written sink.old) (Z.shown watch.old) (F.faults files.old))
        (traffic (S.left source.new) (K.written sink.new) (Z.shown watch.new) (F.faults files.new)) }
    ensures sound { IsBetweenCommands M.mixed store.new }
    ensures files { F.files files.new ≡ F.files files.old }
    ensures later_read { S.faults source.old ≤ S.faults source.new }
    ensures later_write { K.faults sink.old ≤ K.faults sink.new }
    ensures read_fault { result ≡ Status.ReadFault → Rose (S.faults source.old) (S.faults source.new) }
    ensures write_fault { result ≡ Status.WriteFault → Rose (K.faults sink.old) (K.faults sink.new) }
{
    let Ok(mut script) = Script::new(alloc, settings.max_bytes) else {
        return Status::Memory;
    };
    let Ok(mut tools) = tools_for::<W, V, U>(alloc, settings, interns, retains, reads) else {
        return Status::Memory;
    };
    let mut out = Out::new(sink);
    carry_out_within(
        alloc,
        settings,
        &mut script,
        &mut tools,
        store,
        files,
        source,
        &mut out,
        watch,
    )
}

// Writes the text of help.
fn show_help<K: Sink>(help: &str, sink: &mut K) -> Status
    ensures ends { WritesHelp (K.written sink.old) (K.written sink.new) result }
    ensures later { K.faults sink.old ≤ K.faults sink.new }
    ensures fault { result ≡ Status.WriteFault → Rose (K.faults sink.old) (K.faults sink.new) }
{
    match write_all(sink, help.as_bytes()) {
        Ok(()) => Status::Done,
        Err(_) => Status::WriteFault,
    }
}

/// Carries out a script from the source over the store, and writes the answers to the sink.
///
/// `words` are those of the command line after the program's name. They set how many triples the store and how many bytes
/// the script and each file may have, and whether rows are sorted. The watch is shown the store after each command, also
/// where it was refused and where a write of its answer failed. Running out of memory before the script is read is
/// `Memory`; later it refuses the one command. The store's dictionary must have exactly the terms of its graph, as a new
/// store's has and as it is left here.
pub fn run<M: Mix, F: Files, S: Source, K: Sink, Z: Watch>(
    alloc: Global,
    words: &[&str],
    store: &mut Store<M>,
    files: &mut F,
    source: &mut S,
    sink: &mut K,
    watch: &mut Z,
) -> Status
    requires settled { IsSettled store.old }
    ensures ends { EndsCall (answer_to (map (λ word. word.now) words.now)) result M.mixed (F.files files.old) store.old store.new
        (traffic (S.left source.old) (K.written sink.old) (Z.shown watch.old) (F.faults files.old))
        (traffic (S.left source.new) (K.written sink.new) (Z.shown watch.new) (F.faults files.new)) }
    ensures words { IsByWords (answer_to (map (λ word. word.now) words.now)) result }
    ensures settled { IsSettled store.new }
    ensures stands { Stands M.mixed store.new }
    ensures files { F.files files.new ≡ F.files files.old }
    ensures later_read { S.faults source.old ≤ S.faults source.new }
    ensures later_write { K.faults sink.old ≤ K.faults sink.new }
    ensures read_fault { result ≡ Status.ReadFault → Rose (S.faults source.old) (S.faults source.new) }
    ensures write_fault { result ≡ Status.WriteFault → Rose (K.faults sink.old) (K.faults sink.new) }
{
    store.stands();
    let settings = match read_words(alloc, words) {
        Ok(settings) => settings,
        Err(Refused::Help(help)) => return show_help(&help, sink),
        Err(Refused::Bad) => return Status::BadWords,
        Err(Refused::Memory) => return Status::Memory,
    };
    let interns = Blank::new(1);
    let retains = Blank::new(1);
    let reads = Blank::new(1);
    run_script::<M, F, S, K, Z, Brand, Brand, Brand>(
        alloc, settings, store, files, source, sink, watch, interns, retains, reads,
    )
}
