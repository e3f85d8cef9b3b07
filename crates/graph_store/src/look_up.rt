//! Whether the graph has a triple or an Id. Each call counts its reads on a counter of its own, which nothing sees.
ghost use Rattle.std.specs.Prelude.{◌≡◌, ◌↔◌, ◌<◌, IsTrue, IfSome};
ghost use Rattle.hypertrie_model.specs.Sets.{has as has_tuple};
ghost use Rattle.trie_depth.specs.Tuples.{trip_tuple};
ghost use Rattle.trie_view.specs.Subs.{sub_depth, sub_set};
ghost use Rattle.graph_image.specs.Images.{IsUsed};
ghost use Rattle.graph_view.specs.Read.{set_in};
ghost use Rattle.graph_view.specs.Views.{triples_in};

use graph_view::GraphView;
use std::marker::Brand;
use std::sync::ledger::{Blank, Ledger};
use trie_depth::{Id, Steps, Trip};
use trie_view::Sub;

fn has_by<W: Ledger>(graph: GraphView<'_>, trip: Trip, blank: Blank) -> bool
    requires name { blank.name ≡ W.name }
    requires parts { blank.parts ≡ W.parts }
    requires whole { 0 < W.parts }
    ensures { result ≡ has_tuple (triples_in graph.entry) (trip_tuple trip) }
{
    let mut reads = Steps::<W>::new(blank);
    graph.has(trip, &mut reads)
}

/// Whether the graph has the triple.
pub(crate) fn has(graph: GraphView<'_>, trip: Trip) -> bool
    ensures { result ≡ has_tuple (triples_in graph.entry) (trip_tuple trip) }
{
    has_by::<Brand>(graph, trip, Blank::new(1))
}

fn is_used_by<W: Ledger>(graph: Option<Sub<'_>>, id: Id, blank: Blank) -> bool
    requires deep { IfSome graph (λ s. sub_depth s ≡ 3) }
    requires name { blank.name ≡ W.name }
    requires parts { blank.parts ≡ W.parts }
    requires whole { 0 < W.parts }
    ensures { IsTrue result ↔ IsUsed (set_in sub_set graph.entry) id.0 }
{
    let mut reads = Steps::<W>::new(blank);
    graph_view::is_used(graph, id, &mut reads)
}

/// Whether a triple has the Id.
pub(crate) fn is_used(graph: Option<Sub<'_>>, id: Id) -> bool
    requires deep { IfSome graph (λ s. sub_depth s ≡ 3) }
    ensures { IsTrue result ↔ IsUsed (set_in sub_set graph.entry) id.0 }
{
    is_used_by::<Brand>(graph, id, Blank::new(1))
}
