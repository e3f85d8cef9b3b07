//! The rows of a graph of one triple.
ghost use Rattle.std.specs.Prelude.{◌≡◌, ◌<◌, IsTrue, IfOk, length};
ghost use Rattle.std.specs.Ordering.{nat_cmp};
ghost use Rattle.hypertrie_model.specs.Sets.{single};
ghost use Rattle.trie_depth.specs.Tuples.{trip_tuple};
ghost use Rattle.query_plan.specs.Labels.{IsLabelled, label_of};
ghost use Rattle.graph_image.specs.Images.{AreKnown};
ghost use Rattle.worked_graphs.specs.Tried.{are_labels, labels_at, option_labels};

use graph_listing::Listing;
use graph_view::GraphView;
use query_plan::{Column, Columns, Pattern, Patterns, Place, Query};
use rdf_term::{KindRef, TermRef, is_same_ref};
use std::alloc::Global;
use std::marker::Brand;
use std::sync::ledger::{Blank, Ledger};
use std::test::Fail;
use term_dict::Dict;
use tn_io::Text;
use trie_context::{Context, Root};
use trie_depth::{ConstMix, Memory, Steps, Trip};

const SUBJECT: TermRef<'static> = TermRef::Iri("x:a");

/// A triple whose subject is its object.
fn interned(alloc: Global) -> Result<(Dict, Trip), Memory>
    ensures { IfOk result (λ r. AreKnown r.0 (single nat_cmp (trip_tuple r.1))) }
{
    let mut dict = Dict::new(alloc);
    let subject = dict.intern(SUBJECT)?;
    let predicate = dict.intern(TermRef::Iri("x:p"))?;
    Ok((dict, Trip(subject, predicate, subject)))
}

/// A label, or the constant where there is none.
fn place_of(alloc: Global, label: Option<u8>, constant: TermRef<'_>) -> Result<Place, Memory>
    ensures { IfOk result (λ p. label_of p ≡ option_labels label) }
{
    match label {
        Some(label) => Ok(Place::Label(label)),
        None => Ok(Place::Const(constant.own(alloc)?)),
    }
}

/// A query of one pattern and one column.
fn query_of(
    alloc: Global,
    labels: (Option<u8>, Option<u8>, Option<u8>),
    n: u8,
    column: Option<u8>,
    constant: TermRef<'_>,
) -> Result<Query, Memory>
    requires { IsTrue (are_labels n (labels_at labels) column) }
    ensures labelled { IfOk result (λ q. IsLabelled q) }
    ensures column { IfOk result (λ q. 0 < length q.columns) }
{
    let s = place_of(alloc, labels.0, constant)?;
    let p = place_of(alloc, labels.1, constant)?;
    let o = place_of(alloc, labels.2, constant)?;
    let mut patterns = Patterns::new(alloc);
    patterns.push(Pattern { s, p, o })?;
    let mut columns = Columns::new(alloc);
    columns.push(Column {
        name: Text::new(alloc),
        label: column,
    })?;
    Ok(Query {
        columns,
        labels: n,
        distinct: false,
        patterns,
        limit: None,
        offset: 0,
    })
}

/// Of each row whether its value is the subject. The listing is asked four times.
fn told<W: Ledger>(
    alloc: Global,
    graph: GraphView<'_>,
    query: &Query,
    blank: Blank,
) -> Result<Vec<Option<bool>>, Memory>
    requires labelled { IsLabelled query.now }
    requires column { 0 < length query.now.columns }
    requires name { blank.name ≡ W.name }
    requires parts { blank.parts ≡ W.parts }
    requires whole { 0 < W.parts }
{
    let mut reads = Steps::<W>::new(blank);
    let mut listing = Listing::make(alloc, graph, query, &mut reads)?;
    let mut told = Vec::new(alloc);
    for _time in 0..4 {
        if listing.next(&mut reads).is_some() {
            told.push(match listing.value(0) {
                Some(value) => Some(is_same_ref(value, SUBJECT)),
                None => None,
            })?;
        }
    }
    Ok(told)
}

/// The same over a graph of one triple.
fn listed(
    alloc: Global,
    labels: (Option<u8>, Option<u8>, Option<u8>),
    n: u8,
    column: Option<u8>,
    constant: TermRef<'_>,
) -> Result<Vec<Option<bool>>, Memory>
    requires { IsTrue (are_labels n (labels_at labels) column) }
{
    let query = query_of(alloc, labels, n, column, constant)?;
    let (dict, triple) = interned(alloc)?;
    let mut context = Context::<ConstMix>::new(alloc);
    let root = Root::One(triple);
    let graph = GraphView::of(&context, &root, &dict);
    let told = told::<Brand>(alloc, graph, &query, Blank::new(1));
    match root {
        Root::Many(held) => context.release(held),
        Root::Empty | Root::One(_) => {}
    }
    told
}

#[test]
fn rows_of_one_triple(rt: HostRuntime) -> Result<(), Fail> {
    let alloc = rt.alloc();
    let spo = (Some(0), Some(1), Some(2));
    let subjects = listed(alloc, spo, 3, Some(0), SUBJECT)?;
    assert_eq!(rt; subjects.as_slice(), [Some(true)].as_slice());
    let predicates = listed(alloc, spo, 3, Some(1), SUBJECT)?;
    assert_eq!(rt; predicates.as_slice(), [Some(false)].as_slice());
    let unnamed = listed(alloc, spo, 3, None, SUBJECT)?;
    assert_eq!(rt; unnamed.as_slice(), [None].as_slice());
    let diagonal = (Some(0), Some(1), Some(0));
    let alike = listed(alloc, diagonal, 2, Some(0), SUBJECT)?;
    assert_eq!(rt; alike.as_slice(), [Some(true)].as_slice());
    let from = (None, Some(0), Some(1));
    let known = listed(alloc, from, 2, Some(1), SUBJECT)?;
    assert_eq!(rt; known.as_slice(), [Some(true)].as_slice());
    let unknown = listed(alloc, from, 2, Some(1), TermRef::Iri("x:none"))?;
    assert_eq!(rt; unknown.len(), 0);
    let literal = TermRef::Literal("x:a", KindRef::Typed("x:d"));
    let from_literal = listed(alloc, from, 2, Some(1), literal)?;
    assert_eq!(rt; from_literal.len(), 0);
    let by_subject = listed(alloc, (Some(0), None, Some(1)), 2, Some(0), SUBJECT)?;
    assert_eq!(rt; by_subject.len(), 0);
    Ok(())
}
