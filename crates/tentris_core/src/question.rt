//! The lines of a query's block, and its answer. Rows are put one by one as the listing gives them.
ghost use Rattle.std.specs.Prelude.{◌≡◌, ◌≤◌, ◌∷◌, ◌++◌, [], List, length, IfSome, OnOk, Err};
ghost use Rattle.text_lines.specs.Lines.{Line};
ghost use Rattle.query_grammar.specs.Meaning as meaning;
ghost use Rattle.query_plan.specs.Labels.{IsLabelled};
ghost use Rattle.query_plan.specs.Seen.{query_seen};
ghost use Rattle.query_read.specs.Reads.{Reads};
ghost use Rattle.listing_text.specs.Rows.{HasWidth};
ghost use Rattle.sorted_rows.specs.Sorted.{OfSortedAnswer};
ghost use Rattle.line_batch.specs.Batches.{lent_line};
ghost use Rattle.tentris_core.specs.Puts.{PassesOn, IsPassedOn, HasOutcome};
ghost use Rattle.tentris_core.specs.Questions.{IsGathered, IsFault, PassesAnswer, AnswersGathered, AnswersText, Lists, Sorts, GathersBehind};

use crate::outcome::{Outcome, pass_on};
use answer_text::Refusal;
use graph_store::{Listing, Store};
use line_batch::Answer;
use listing_text::put_listing;
use query_plan::Query;
use query_read::{ReadFault, read};
use sorted_rows::{Cut, put_sorted, sorted_texts, uncut};
use std::alloc::Global;
use std::sync::ledger::Ledger;
use tn_io::{Failed, Out, Sink, Text};
use trie_depth::{Memory, Mix, Steps};

// The greatest number of bytes of a query's text.
const MOST: usize = 1_048_576;

/// What the lines of a query say so far.
#[derive(Drop)]
pub enum Question {
    /// Its text.
    Text(Vec<u8>),
    /// The text is too long, or memory ran out.
    Refused(Refusal),
}

// Adds a line and its end.
fn add(text: &mut Vec<u8>, line: &[u8]) -> Result<(), Memory>
    ensures ok { OnOk result (text.new.items ≡ text.old.items ++ (line.now ++ 10 ∷ [])) }
{
    text.extend_from_slice(line)?;
    text.push(b'\n')?;
    Ok(())
}

impl Question {
    /// Without a line yet.
    pub(crate) fn new(alloc: Global) -> Question
        ensures { IsGathered [] result }
    {
        Question::Text(Vec::new(alloc))
    }

    /// With one more line.
    pub(crate) fn with_line(self, line: Option<&[u8]>) -> Question
        requires short { IfSome line (λ l. length l.now ≤ 1048576) }
        ensures { (body : List Line) → IsGathered body self → IsGathered (body ++ lent_line line.entry ∷ []) result }
    {
        match self {
            Question::Refused(cause) => Question::Refused(cause),
            Question::Text(text) => with_text(text, line),
        }
    }

    /// Answers the query.
    pub(crate) fn answer<M: Mix, K: Sink, U: Ledger>(
        self,
        alloc: Global,
        store: &Store<M>,
        sorted: bool,
        reads: &mut Steps<U>,
        out: &mut Out<'_, K>,
    ) -> Outcome
        requires empty { out.old.buffer ≡ [] }
        ensures same_sink { out.new.sink.ghost_name ≡ out.old.sink.ghost_name }
        ensures answers { AnswersGathered sorted self store.now K.written out.old out.new result }
        ensures empty { IsPassedOn result out.new }
        ensures cause { HasOutcome (K.faults out.old.sink.now) (K.faults out.new.sink.now) result }
    {
        match self {
            Question::Refused(cause) => pass_on(out, &Answer::Refused(cause)),
            Question::Text(text) => ask(alloc, store, &text, sorted, reads, out),
        }
    }
}

// Answers the query of a text.
fn ask<M: Mix, K: Sink, U: Ledger>(
    alloc: Global,
    store: &Store<M>,
    text: &[u8],
    sorted: bool,
    reads: &mut Steps<U>,
    out: &mut Out<'_, K>,
) -> Outcome
    requires empty { out.old.buffer ≡ [] }
    ensures same_sink { out.new.sink.ghost_name ≡ out.old.sink.ghost_name }
    ensures answers { AnswersText sorted text.now store.now K.written out.old out.new result }
    ensures empty { IsPassedOn result out.new }
    ensures cause { HasOutcome (K.faults out.old.sink.now) (K.faults out.new.sink.now) result }
{
    match read(alloc, text) {
        Ok(query) => {
            if sorted {
                sort(alloc, store, query, reads, out)
            } else {
                list(alloc, store, &query, reads, out)
            }
        }
        Err(fault) => pass_on(out, &Answer::Refused(cause_of(fault))),
    }
}

// Why a query is refused that can't be read.
fn cause_of(fault: ReadFault) -> Refusal
    ensures { (answer : meaning.Answer) → Reads answer (Err fault) → IsFault answer result }
{
    match fault {
        ReadFault::NotQuery => Refusal::Query,
        ReadFault::NoPrefix => Refusal::Prefix,
        ReadFault::TooManyPatterns | ReadFault::TooManyColumns | ReadFault::TooLarge => {
            Refusal::Size
        }
        ReadFault::Memory => Refusal::Memory,
    }
}

// Puts the answer of a query, whose listing this is, and passes it on whole.
fn put_whole<K: Sink, U: Ledger>(
    query: &Query,
    listing: Listing<'_>,
    reads: &mut Steps<U>,
    out: &mut Out<'_, K>,
) -> Result<(), Failed>
    requires columns { length query.now.columns ≡ length listing.columns }
    requires wide { HasWidth listing }
    requires empty { out.old.buffer ≡ [] }
    ensures same_sink { out.new.sink.ghost_name ≡ out.old.sink.ghost_name }
    ensures text { PassesAnswer K.written K.faults out.old out.new result (query_seen query.now).columns listing.entry }
{
    put_listing(query, listing, out, reads)?;
    out.flush()
}

// Answers a query that was read.
fn list<M: Mix, K: Sink, U: Ledger>(
    alloc: Global,
    store: &Store<M>,
    query: &Query,
    reads: &mut Steps<U>,
    out: &mut Out<'_, K>,
) -> Outcome
    requires labelled { IsLabelled query.now }
    requires empty { out.old.buffer ≡ [] }
    ensures same_sink { out.new.sink.ghost_name ≡ out.old.sink.ghost_name }
    ensures answers { Lists (query_seen query.now) store.now K.written out.old out.new result }
    ensures empty { IsPassedOn result out.new }
    ensures cause { HasOutcome (K.faults out.old.sink.now) (K.faults out.new.sink.now) result }
{
    match store.listing(alloc, query) {
        Ok(listing) => match put_whole(query, listing, reads, out) {
            Ok(()) => Outcome::Answered(false),
            Err(_) => Outcome::Cut,
        },
        Err(_) => pass_on(out, &Answer::Refused(Refusal::Memory)),
    }
}

// Puts the sorted rows of a query's answer, and passes it on whole.
fn put_sorted_whole<K: Sink>(
    query: &Query,
    cut: Cut,
    texts: &[Text],
    out: &mut Out<'_, K>,
) -> Result<(), Failed>
    requires empty { out.old.buffer ≡ [] }
    ensures same_sink { out.new.sink.ghost_name ≡ out.old.sink.ghost_name }
    ensures text { OfSortedAnswer query.now cut texts.now (λ t. PassesOn K.written K.faults out.old out.new result t) }
{
    put_sorted(query, cut, texts, out)?;
    out.flush()
}

// Answers a query that was read, its rows sorted.
fn sort<M: Mix, K: Sink, U: Ledger>(
    alloc: Global,
    store: &Store<M>,
    query: Query,
    reads: &mut Steps<U>,
    out: &mut Out<'_, K>,
) -> Outcome
    requires labelled { IsLabelled query }
    requires empty { out.old.buffer ≡ [] }
    ensures same_sink { out.new.sink.ghost_name ≡ out.old.sink.ghost_name }
    ensures answers { Sorts (query_seen query) store.now K.written out.old out.new result }
    ensures empty { IsPassedOn result out.new }
    ensures cause { HasOutcome (K.faults out.old.sink.now) (K.faults out.new.sink.now) result }
{
    let (query, cut) = uncut(query);
    match store.listing(alloc, &query) {
        Ok(listing) => match sorted_texts(alloc, listing, query.columns.len(), reads) {
            Ok(texts) => match put_sorted_whole(&query, cut, &texts, out) {
                Ok(()) => Outcome::Answered(false),
                Err(_) => Outcome::Cut,
            },
            Err(_) => pass_on(out, &Answer::Refused(Refusal::Memory)),
        },
        Err(_) => pass_on(out, &Answer::Refused(Refusal::Memory)),
    }
}

// A text with one more line.
fn with_text(mut text: Vec<u8>, line: Option<&[u8]>) -> Question
    requires short { IfSome line (λ l. length l.now ≤ 1048576) }
    ensures { GathersBehind text.items (lent_line line.entry) result }
{
    let Some(line) = line else {
        return Question::Refused(Refusal::Long);
    };
    if MOST.saturating_sub(text.len()) <= line.len() {
        return Question::Refused(Refusal::Long);
    }
    match add(&mut text, line) {
        Ok(()) => Question::Text(text),
        Err(_) => Question::Refused(Refusal::Memory),
    }
}
