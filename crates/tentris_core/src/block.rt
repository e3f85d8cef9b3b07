//! The lines of blocks, and the commands that lines outside blocks give.
//!
//! A block's lines are judged as they come; the graph is changed once, where the block ends.
ghost use Rattle.std.specs.Prelude.{◌≡◌, ◌≤◌, ◌+◌, ◌<◌, ◌-◌, ◌^◌, [], length, IfSome};
ghost use Rattle.script_model.specs.Commands as script;
ghost use Rattle.graph_store.specs.StoreState.{StoreState, IsSettled};
ghost use Rattle.line_batch.specs.Seen.{answer_of};
ghost use Rattle.line_batch.specs.Sound.{IsBetweenCommands};
ghost use Rattle.line_batch.specs.Batches.{lent_line, IsNone, IsReady, MayBeScope};
ghost use Rattle.line_batch.specs.Carrying.{Around};
ghost use Rattle.tentris_core.specs.Carrying.{around};
ghost use Rattle.tentris_core.specs.Places.{IsAt, IsReadyAt, CarriesLine, MeetsLine, TakesLine, Position, Outside, lines_in, effects};
ghost use Rattle.tentris_core.specs.Blocks.{HasLineMore, Shows, BeginsBlock, MeetsInBlock, AsksOn};
ghost use Rattle.tentris_core.specs.Puts.{IsPassedOn, HasOutcome};
ghost use Rattle.tentris_core.specs.Seen.{Tells};

use crate::outcome::{Outcome, pass_on};
use crate::question::Question;
use crate::tools::Tools;
use answer_text::Refusal;
use graph_store::Store;
use line_batch::{Answer, Batch, Counts, generate, load};
use rdf_term::Scratch;
use script_read::{Command, command, skipped};
use std::alloc::Global;
use std::sync::ledger::Ledger;
use tn_io::{Files, Out, Sink};
use trie_depth::Mix;

// The line that ends a block.
const END: &[u8] = b"GO";

/// A block whose lines are coming. It must be spent.
pub struct Block {
    pub lines: u64,
    pub batch: Batch,
}

/// Where a script stands between two lines. It must be spent.
pub enum Progress {
    Outside,
    Inside(Block),
    Asks(Question),
}

impl Block {
    // With one more line.
    fn with_line<M: Mix>(
        self,
        store: &mut Store<M>,
        line: Option<&[u8]>,
        scratch: &mut Scratch,
    ) -> Block
        requires short { IfSome line (λ l. length l.now ≤ 1048576) }
        requires room { self.lines < 2 ^ 64 - 1 }
        requires ready { IsReady store.old self.batch }
        ensures { HasLineMore (lent_line line.entry) store.old self store.new result }
    {
        let Block { lines, batch } = self;
        let number = lines + 1;
        Block {
            lines: number,
            batch: batch.with_line(store, line, "", number, scratch),
        }
    }
}

impl Progress {
    /// Leaves the store as it was after the last command.
    pub fn abandon<M: Mix>(self, store: &mut Store<M>)
        requires ready { IsReadyAt M.mixed store.old self }
        ensures { (p : Position) (s : StoreState) → IsAt p s store.old self → store.new ≡ s }
    {
        match self {
            Progress::Outside => {}
            Progress::Inside(block) => {
                let Block { lines: _, batch } = block;
                batch.abandon(store);
            }
            Progress::Asks(question) => drop(question),
        }
    }
}

// Answers the lines of the graph.
fn dump<M: Mix>(alloc: Global, store: &Store<M>) -> Answer
    ensures { Shows script.Dump store.now (answer_of result) }
{
    match store.dump(alloc) {
        Ok(lines) => Answer::Dumped(lines),
        Err(_) => Answer::Refused(Refusal::Memory),
    }
}

// Answers the lines of the graph's shape.
fn shape<M: Mix>(alloc: Global, store: &Store<M>) -> Answer
    ensures { Shows script.Shape store.now (answer_of result) }
{
    match store.shape(alloc) {
        Ok(lines) => Answer::Shaped(lines),
        Err(_) => Answer::Refused(Refusal::Memory),
    }
}

// Answers the figures of the graph.
fn stats<M: Mix>(store: &Store<M>) -> Answer
    requires { IsSettled store.now }
    ensures { Shows script.Stats store.now (answer_of result) }
{
    Answer::Counted(store.stats())
}

// Puts the triples of a file in, or takes them away, as the empty batch says.
fn carry_out_file<M: Mix, F: Files, W: Ledger, V: Ledger, U: Ledger>(
    alloc: Global,
    batch: Batch,
    store: &mut Store<M>,
    files: &mut F,
    tools: &mut Tools<W, V, U>,
    scope: &str,
    name: &str,
) -> Answer
    requires sound { IsBetweenCommands M.mixed store.old }
    requires ready { IsReady store.old batch }
    requires few { tools.old.reader.max ≤ 1099511627776 }
    requires scope { MayBeScope scope.now }
    ensures line { (A : Around) (change : script.Change) → A ≡ around M.mixed tools.old.sorted tools.old.reader.max (F.files files.old)
        → IsNone store.old change batch
        → CarriesLine A store.old (script.File change scope.now name.now) store.new (answer_of result) (F.faults files.old) (F.faults files.new) }
    ensures sorted { tools.new.sorted ≡ tools.old.sorted }
    ensures most { tools.new.reader.max ≡ tools.old.reader.max }
    ensures files { F.files files.new ≡ F.files files.old }
{
    load(
        alloc,
        batch,
        store,
        files,
        &mut tools.reader,
        scope,
        name,
        &mut tools.scratch,
        &mut tools.counts,
    )
}

// Takes a line outside a block.
fn outside<M: Mix, F: Files, W: Ledger, V: Ledger, U: Ledger>(
    alloc: Global,
    store: &mut Store<M>,
    files: &mut F,
    tools: &mut Tools<W, V, U>,
    line: Option<&[u8]>,
) -> (Progress, Option<Answer>)
    requires sound { IsBetweenCommands M.mixed store.old }
    requires few { tools.old.reader.max ≤ 1099511627776 }
    ensures meets { (A : Around) → A ≡ around M.mixed tools.old.sorted tools.old.reader.max (F.files files.old)
        → MeetsLine A Outside (lent_line line.entry) store.old store.new result.0 (F.faults files.old) (F.faults files.new) result.1 }
    ensures sorted { tools.new.sorted ≡ tools.old.sorted }
    ensures most { tools.new.reader.max ≡ tools.old.reader.max }
    ensures files { F.files files.new ≡ F.files files.old }
{
    let Some(bytes) = line else {
        return (Progress::Outside, Some(Answer::Refused(Refusal::Command)));
    };
    if skipped(bytes) {
        return (Progress::Outside, None);
    }
    match command(bytes) {
        Some(Command::Insert) => (begin(Batch::inserts(alloc, store)), None),
        Some(Command::Delete) => (begin(Batch::deletes(alloc, store)), None),
        Some(Command::Query) => (Progress::Asks(Question::new(alloc)), None),
        Some(Command::Load(scope, name)) => {
            let inserts = Batch::inserts(alloc, store);
            let loaded = carry_out_file(alloc, inserts, store, files, tools, scope, name);
            (Progress::Outside, Some(loaded))
        }
        Some(Command::Unload(scope, name)) => {
            let deletes = Batch::deletes(alloc, store);
            let unloaded = carry_out_file(alloc, deletes, store, files, tools, scope, name);
            (Progress::Outside, Some(unloaded))
        }
        Some(Command::Generate(count, salt)) => {
            let answer = generate(
                alloc,
                store,
                count,
                salt,
                &mut tools.scratch,
                &mut tools.counts,
            );
            (Progress::Outside, Some(answer))
        }
        Some(Command::Dump) => (Progress::Outside, Some(dump(alloc, store))),
        Some(Command::Stats) => (Progress::Outside, Some(stats(store))),
        Some(Command::Shape) => (Progress::Outside, Some(shape(alloc, store))),
        None => (Progress::Outside, Some(Answer::Refused(Refusal::Command))),
    }
}

// A block without a line yet, whose triples go as the empty batch says.
fn begin(batch: Batch) -> Progress
    ensures { BeginsBlock batch result }
{
    Progress::Inside(Block { lines: 0, batch })
}

// Whether a line ends its block.
fn ends(line: Option<&[u8]>) -> bool
    ensures { result ≡ script.ends_block (lent_line line.entry) }
{
    match line {
        Some(bytes) => bytes == END,
        None => false,
    }
}

// Takes a line of a block.
fn inside<M: Mix, W: Ledger, V: Ledger, U: Ledger>(
    alloc: Global,
    store: &mut Store<M>,
    block: Block,
    line: Option<&[u8]>,
    scratch: &mut Scratch,
    counts: &mut Counts<W, V, U>,
) -> (Progress, Option<Answer>)
    requires short { IfSome line (λ l. length l.now ≤ 1048576) }
    requires room { block.lines < 2 ^ 64 - 1 }
    requires ready { IsReady store.old block.batch }
    ensures { MeetsInBlock M.mixed (lent_line line.entry) store.old block store.new result.0 result.1 }
{
    if ends(line) {
        let Block { lines: _, batch } = block;
        let answer = batch.carry_out(alloc, store, counts);
        return (Progress::Outside, Some(answer));
    }
    (
        Progress::Inside(block.with_line(store, line, scratch)),
        None,
    )
}

// Takes a line of a query.
fn asks<M: Mix, K: Sink, W: Ledger, V: Ledger, U: Ledger>(
    alloc: Global,
    store: &Store<M>,
    question: Question,
    line: Option<&[u8]>,
    sorted: bool,
    counts: &mut Counts<W, V, U>,
    out: &mut Out<'_, K>,
) -> (Progress, Outcome)
    requires short { IfSome line (λ l. length l.now ≤ 1048576) }
    requires empty { out.old.buffer ≡ [] }
    ensures same_sink { out.new.sink.ghost_name ≡ out.old.sink.ghost_name }
    ensures takes { AsksOn sorted (lent_line line.entry) question store.now K.written out.old out.new result.0 result.1 }
    ensures empty { IsPassedOn result.1 out.new }
    ensures cause { HasOutcome (K.faults out.old.sink.now) (K.faults out.new.sink.now) result.1 }
{
    if ends(line) {
        let outcome = question.answer(alloc, store, sorted, &mut counts.reads, out);
        return (Progress::Outside, outcome);
    }
    (Progress::Asks(question.with_line(line)), Outcome::GoesOn)
}

// Passes an answer on, if there is one.
fn tell<K: Sink>(out: &mut Out<'_, K>, answer: Option<Answer>) -> Outcome
    requires empty { out.old.buffer ≡ [] }
    ensures same_sink { out.new.sink.ghost_name ≡ out.old.sink.ghost_name }
    ensures text { Tells (K.written out.old.sink.now) (K.written out.new.sink.now) result answer }
    ensures empty { IsPassedOn result out.new }
    ensures cause { HasOutcome (K.faults out.old.sink.now) (K.faults out.new.sink.now) result }
{
    match answer {
        Some(answer) => pass_on(out, &answer),
        None => Outcome::GoesOn,
    }
}

/// Takes a line, and passes on the answer of the command that it ends.
pub fn take_line<M: Mix, F: Files, K: Sink, W: Ledger, V: Ledger, U: Ledger>(
    alloc: Global,
    store: &mut Store<M>,
    files: &mut F,
    tools: &mut Tools<W, V, U>,
    place: Progress,
    line: Option<&[u8]>,
    out: &mut Out<'_, K>,
) -> (Progress, Outcome)
    requires short { IfSome line (λ l. length l.now ≤ 1048576) }
    requires room { lines_in place < 2 ^ 64 - 1 }
    requires ready { IsReadyAt M.mixed store.old place }
    requires few { tools.old.reader.max ≤ 1099511627776 }
    requires empty { out.old.buffer ≡ [] }
    ensures same_sink { out.new.sink.ghost_name ≡ out.old.sink.ghost_name }
    ensures takes { (A : Around) (p : Position) (s : StoreState) → A ≡ around M.mixed tools.old.sorted tools.old.reader.max (F.files files.old)
        → IsBetweenCommands A.mixed s → IsAt p s store.old place
        → TakesLine A p (lent_line line.entry) s store.new result.0
        (effects (K.written out.old.sink.now) (F.faults files.old)) (effects (K.written out.new.sink.now) (F.faults files.new)) result.1 }
    ensures sorted { tools.new.sorted ≡ tools.old.sorted }
    ensures most { tools.new.reader.max ≡ tools.old.reader.max }
    ensures files { F.files files.new ≡ F.files files.old }
    ensures empty { IsPassedOn result.1 out.new }
    ensures cause { HasOutcome (K.faults out.old.sink.now) (K.faults out.new.sink.now) result.1 }
{
    match place {
        Progress::Outside => {
            let (next, answer) = outside(alloc, store, files, tools, line);
            (next, tell(out, answer))
        }
        Progress::Asks(question) => {
            let sorted = tools.sorted;
            asks(alloc, store, question, line, sorted, &mut tools.counts, out)
        }
        Progress::Inside(block) => {
            let (next, answer) = inside(
                alloc,
                store,
                block,
                line,
                &mut tools.scratch,
                &mut tools.counts,
            );
            (next, tell(out, answer))
        }
    }
}
