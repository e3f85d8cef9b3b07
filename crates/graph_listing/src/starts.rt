//! What is left of a query's patterns once their constants are fixed.
ghost use Rattle.std.specs.Prelude.{◌≡◌, ℕ, ◌++◌, ◌≤◌, List, length, IfOk, IfSome, Some};
ghost use Rattle.graph_shape.specs.GraphShapes.{tuples_of};
ghost use Rattle.trie_depth.specs.Masks.{FitsDepth, n_positions};
ghost use Rattle.query_plan.specs.Labels.{label_of, pattern_labels};
ghost use Rattle.trie_view.specs.Subs.{sub_depth};
ghost use Rattle.graph_view.specs.Views.{graph_in};
ghost use Rattle.bag_list.specs.Starts.{three_places};
ghost use Rattle.graph_listing.specs.Parts.{AreStartsIn, FixesPattern, FixesPlace, IsPart, n_left};

use bag_list::Start;
use graph_view::GraphView;
use query_plan::{Pattern, Patterns, Place};
use std::alloc::Global;
use std::sync::ledger::Ledger;
use term_dict::Dict;
use trie_depth::{Mask, Memory, Operand, Steps};
use trie_view::Sub;

const SUBJECT: Mask = Mask(1);

const PREDICATE: Mask = Mask(2);

const OBJECT: Mask = Mask(4);

/// What is left of each pattern, in order.
pub(crate) fn starts_of<'a, W: Ledger>(
    alloc: Global,
    graph: GraphView<'a>,
    patterns: &Patterns,
    reads: &mut Steps<W>,
) -> Result<Vec<Start<Sub<'a>>>, Memory>
    ensures { IfOk result (λ starts. AreStartsIn graph.entry patterns.now starts.items) }
{
    let triples = triples_of(graph);
    let mut starts = Vec::new(alloc);
    for i in 0..patterns.len() {
        let pattern = patterns.at(i);
        starts.push(Start {
            op: left_by(graph.all.dict, triples, pattern, reads),
            labels: labels_of(pattern),
        })?;
    }
    Ok(starts)
}

/// All triples, if there are any.
fn triples_of<'a>(graph: GraphView<'a>) -> Option<Sub<'a>>
    ensures { IsPart graph.entry.all.dict.now (tuples_of (graph_in graph.entry)) 3 result }
{
    if graph.len() == 0 {
        return None;
    }
    graph.operand()
}

/// The triples that have the pattern's constants at their places, if there are any.
fn left_by<'a, W: Ledger>(
    dict: &Dict,
    triples: Option<Sub<'a>>,
    pattern: &Pattern,
    reads: &mut Steps<W>,
) -> Option<Sub<'a>>
    requires deep { IfSome triples (λ s. sub_depth s ≡ 3) }
    ensures { FixesPattern dict.now pattern.now triples.entry result }
{
    let by_object = fixed(dict, triples?, &pattern.o, OBJECT, reads)?;
    let by_predicate = fixed(dict, by_object, &pattern.p, PREDICATE, reads)?;
    fixed(dict, by_predicate, &pattern.s, SUBJECT, reads)
}

/// The tuples that have the place's constant at a position, if there are any; all, where a label stands at the place.
fn fixed<'a, W: Ledger>(
    dict: &Dict,
    tuples: Sub<'a>,
    place: &Place,
    mask: Mask,
    reads: &mut Steps<W>,
) -> Option<Sub<'a>>
    requires fits { FitsDepth mask.0 (sub_depth tuples) }
    requires one { n_positions mask.0 ≡ 1 }
    ensures depth { IfSome result (λ s. sub_depth s ≡ n_left place.now (sub_depth tuples.entry)) }
    ensures part { FixesPlace dict.now place.now mask.0 (Some tuples.entry) result }
{
    match place {
        Place::Label(_) => Some(tuples),
        Place::Const(term) => {
            let id = dict.find(term.lent())?;
            tuples.fix(mask, id, reads)
        }
    }
}

/// The labels of a pattern's places in their order, with none after them.
fn labels_of(pattern: &Pattern) -> [Option<u8>; 3]
    ensures { result ≡ three_places (pattern_labels pattern.now) }
{
    let last = before(&pattern.o, [None; 3]);
    before(&pattern.s, before(&pattern.p, last))
}

/// The labels with that of a place before them, where it has one.
fn before(place: &Place, labels: [Option<u8>; 3]) -> [Option<u8>; 3]
    ensures { (ls : List ℕ) → length ls ≤ 2 → labels ≡ three_places ls → result ≡ three_places (label_of place.now ++ ls) }
{
    match place {
        Place::Label(label) => [Some(*label), labels[0], labels[1]],
        Place::Const(_) => labels,
    }
}
