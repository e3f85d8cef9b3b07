//! What lines say: triples that are staged or marked in the store, until the last of them has come.
ghost use Rattle.std.specs.Prelude.{◌≡◌, ◌≤◌, ℕ, length, IfSome};
ghost use Rattle.ntriples_model.specs.Proper.{IsProperTriple};
ghost use Rattle.rdf_term.specs.Seen.{lent_triple};
ghost use Rattle.run_model.specs.Sayings.{says};
ghost use Rattle.script_model.specs.Commands as script;
ghost use Rattle.graph_store.specs.StoreState.{IsSettled};
ghost use Rattle.graph_store.specs.Staging.{Fits, before, AreMarked};
ghost use Rattle.line_batch.specs.Seen.{answer_of};
ghost use Rattle.line_batch.specs.Batches.{lent_line, MayBeScope, IsNone, IsReady, CarriesOut, GoesBack, PutsIn, TakesOut};
ghost use Rattle.line_batch.specs.Batches.{StagesOneMore, MarksOneMore, HasOneMore, lent_saying, triple_said, IsProperSaying};
ghost use Rattle.line_batch.specs.declared.batch.Batch.TheVariants.{Inserts, Deletes};

use crate::answer::Answer;
use crate::counts::Counts;
use answer_text::Refusal;
use graph_store::{StageFault, Staged, Store, Taken};
use ntriples::read_line;
use rdf_term::{Scratch, TripleRef};
use std::alloc::Global;
use std::sync::ledger::Ledger;
use trie_depth::Mix;

// What a line says: none where it is no line of N-Triples, else a triple or nothing.
type Saying<'a> = Option<Option<TripleRef<'a>>>;

/// What lines say so far. It must be spent, by `carry_out` or `abandon`.
pub enum Batch {
    /// Triples that are staged.
    Inserts(Staged),
    /// Triples that are marked.
    Deletes(Taken),
    /// A line can't be carried out, and so none of them is.
    Refused(Refusal),
}

// Stages a triple, or says why it can't be put in.
fn stage_triple<M: Mix>(
    store: &mut Store<M>,
    staged: &mut Staged,
    triple: TripleRef<'_>,
    number: u64,
) -> Option<Refusal>
    requires fits { Fits store.old staged.old }
    requires proper { IsProperTriple (lent_triple triple) }
    ensures fits { Fits store.new staged.new }
    ensures before { before store.new staged.new ≡ before store.old staged.old }
    ensures triple { StagesOneMore number (triple_said triple.entry) store.old staged.old store.new staged.new result }
{
    match store.stage(staged, triple) {
        Ok(()) => None,
        Err(StageFault::Full) => Some(Refusal::Full(number)),
        Err(StageFault::Memory) => Some(Refusal::Memory),
    }
}

// Stages what is said, or says why it can't be put in.
fn stage<M: Mix>(
    store: &mut Store<M>,
    staged: &mut Staged,
    saying: Saying<'_>,
    number: u64,
) -> Option<Refusal>
    requires proper { IsProperSaying (lent_saying saying) }
    requires fits { Fits store.old staged.old }
    ensures fits { Fits store.new staged.new }
    ensures before { before store.new staged.new ≡ before store.old staged.old }
    ensures line { StagesOneMore number (lent_saying saying.entry) store.old staged.old store.new staged.new result }
{
    let Some(said) = saying else {
        return Some(Refusal::Line(number));
    };
    match said {
        None => {
            if store.is_over() {
                Some(Refusal::Full(number))
            } else {
                None
            }
        }
        Some(triple) => stage_triple(store, staged, triple, number),
    }
}

// Marks a triple, or says why it can't be taken out.
fn mark_triple<M: Mix>(
    store: &Store<M>,
    taken: &mut Taken,
    triple: TripleRef<'_>,
) -> Option<Refusal>
    ensures there { AreMarked store.now taken.old → AreMarked store.now taken.new }
    ensures triple { (number : ℕ) → MarksOneMore number (triple_said triple.entry) store.now taken.old taken.new result }
{
    match store.mark(taken, triple) {
        Ok(()) => None,
        Err(_) => Some(Refusal::Memory),
    }
}

// Marks what is said, or says why it can't be taken out.
fn mark<M: Mix>(
    store: &Store<M>,
    taken: &mut Taken,
    saying: Saying<'_>,
    number: u64,
) -> Option<Refusal>
    ensures there { AreMarked store.now taken.old → AreMarked store.now taken.new }
    ensures line { MarksOneMore number (lent_saying saying.entry) store.now taken.old taken.new result }
{
    let Some(said) = saying else {
        return Some(Refusal::Line(number));
    };
    match said {
        None => None,
        Some(triple) => mark_triple(store, taken, triple),
    }
}

// The staged triples with what is said in one more line, of this number.
fn insert<M: Mix>(
    store: &mut Store<M>,
    mut staged: Staged,
    saying: Saying<'_>,
    number: u64,
) -> Batch
    requires proper { IsProperSaying (lent_saying saying) }
    requires fits { Fits store.old staged }
    ensures ready { IsReady store.new result }
    ensures more { HasOneMore number (lent_saying saying.entry) store.old (Inserts staged) store.new result }
{
    match stage(store, &mut staged, saying, number) {
        None => Batch::Inserts(staged),
        Some(cause) => {
            store.abandon(staged);
            Batch::Refused(cause)
        }
    }
}

// The marked triples with what is said in one more line, of this number.
fn delete<M: Mix>(store: &Store<M>, mut taken: Taken, saying: Saying<'_>, number: u64) -> Batch
    requires settled { IsSettled store.now }
    requires there { AreMarked store.now taken }
    ensures ready { IsReady store.now result }
    ensures more { HasOneMore number (lent_saying saying.entry) store.now (Deletes taken) store.now result }
{
    match mark(store, &mut taken, saying, number) {
        None => Batch::Deletes(taken),
        Some(cause) => Batch::Refused(cause),
    }
}

// What a line says that is read under the scope; one that is too long is no line.
fn said<'a>(line: Option<&[u8]>, scope: &str, scratch: &'a mut Scratch) -> Saying<'a>
    requires short { IfSome line (λ l. length l.now ≤ 1048576) }
    requires scope { MayBeScope scope.now }
    ensures said { lent_saying result ≡ says scope.now (lent_line line.entry) }
    ensures proper { IsProperSaying (lent_saying result) }
{
    match read_line(line?, scope, scratch) {
        Ok(triple) => Some(triple),
        Err(_) => None,
    }
}

impl Batch {
    /// Triples that are put in, none yet.
    pub fn inserts<M: Mix>(alloc: Global, store: &Store<M>) -> Batch
        requires { IsSettled store.now }
        ensures ready { IsReady store.now result }
        ensures none { IsNone store.now script.Inserts result }
    {
        store.stands();
        Batch::Inserts(Staged::new(alloc))
    }

    /// Triples that are taken out, none yet.
    pub fn deletes<M: Mix>(alloc: Global, store: &Store<M>) -> Batch
        requires { IsSettled store.now }
        ensures ready { IsReady store.now result }
        ensures none { IsNone store.now script.Deletes result }
    {
        Batch::Deletes(Taken::new(alloc))
    }

    /// With one more line, of this number, which is read under the scope. None is a line that is too long.
    pub fn with_line<M: Mix>(
        self,
        store: &mut Store<M>,
        line: Option<&[u8]>,
        scope: &str,
        number: u64,
        scratch: &mut Scratch,
    ) -> Batch
        requires short { IfSome line (λ l. length l.now ≤ 1048576) }
        requires scope { MayBeScope scope.now }
        requires ready { IsReady store.old self }
        ensures ready { IsReady store.new result }
        ensures more { HasOneMore number (says scope.now (lent_line line.entry)) store.old self store.new result }
    {
        self.with_saying(store, said(line, scope, scratch), number)
    }

    /// With one more triple, as a line of this number would say it.
    pub fn with_triple<M: Mix>(
        self,
        store: &mut Store<M>,
        triple: TripleRef<'_>,
        number: u64,
    ) -> Batch
        requires proper { IsProperTriple (lent_triple triple) }
        requires ready { IsReady store.old self }
        ensures ready { IsReady store.new result }
        ensures more { HasOneMore number (triple_said triple.entry) store.old self store.new result }
    {
        self.with_saying(store, Some(Some(triple)), number)
    }

    // With what is said in one more line, of this number.
    fn with_saying<M: Mix>(self, store: &mut Store<M>, saying: Saying<'_>, number: u64) -> Batch
        requires proper { IsProperSaying (lent_saying saying) }
        requires ready { IsReady store.old self }
        ensures ready { IsReady store.new result }
        ensures more { HasOneMore number (lent_saying saying.entry) store.old self store.new result }
    {
        match self {
            Batch::Inserts(staged) => insert(store, staged, saying, number),
            Batch::Deletes(taken) => delete(store, taken, saying, number),
            Batch::Refused(cause) => Batch::Refused(cause),
        }
    }

    /// Puts in what is staged, or takes out what is marked.
    pub fn carry_out<M: Mix, W: Ledger, V: Ledger, U: Ledger>(
        self,
        alloc: Global,
        store: &mut Store<M>,
        counts: &mut Counts<W, V, U>,
    ) -> Answer
        requires ready { IsReady store.old self }
        ensures { CarriesOut M.mixed store.old self store.new (answer_of result) }
    {
        match self {
            Batch::Inserts(staged) => put_in(alloc, store, staged, counts),
            Batch::Deletes(taken) => take_out(alloc, store, taken, counts),
            Batch::Refused(cause) => Answer::Refused(cause),
        }
    }

    /// Leaves the store as it was before the first line.
    pub fn abandon<M: Mix>(self, store: &mut Store<M>)
        requires ready { IsReady store.old self }
        ensures { GoesBack store.old self store.new }
    {
        match self {
            Batch::Inserts(staged) => store.abandon(staged),
            Batch::Deletes(_) | Batch::Refused(_) => {}
        }
    }
}

// Puts the staged triples in.
fn put_in<M: Mix, W: Ledger, V: Ledger, U: Ledger>(
    alloc: Global,
    store: &mut Store<M>,
    staged: Staged,
    counts: &mut Counts<W, V, U>,
) -> Answer
    requires fits { Fits store.old staged }
    ensures { PutsIn M.mixed store.old staged store.new (answer_of result) }
{
    let inserted = store.insert(alloc, staged, &mut counts.interns, &mut counts.retains);
    store.stands();
    match inserted {
        Ok(change) => Answer::New(change),
        Err(_) => Answer::Refused(Refusal::Memory),
    }
}

// Takes the marked triples out.
fn take_out<M: Mix, W: Ledger, V: Ledger, U: Ledger>(
    alloc: Global,
    store: &mut Store<M>,
    taken: Taken,
    counts: &mut Counts<W, V, U>,
) -> Answer
    requires ready { IsReady store.old (Deletes taken) }
    ensures { TakesOut M.mixed store.old taken store.new (answer_of result) }
{
    let deleted = store.delete(alloc, taken, &mut counts.interns, &mut counts.retains);
    store.stands();
    match deleted {
        Ok(change) => Answer::Gone(change),
        Err(_) => Answer::Refused(Refusal::Memory),
    }
}
