//! Whether an operand of triples has one of them, and whether any of its triples has an Id. Each read is counted.
ghost use Rattle.std.specs.Prelude.{◌≡◌, ◌↔◌, ◌<◌, IsTrue, IfSome};
ghost use Rattle.hypertrie_model.specs.Sets.{has as has_tuple};
ghost use Rattle.trie_depth.specs.Tuples.{trip_tuple};
ghost use Rattle.trie_view.specs.Subs.{sub_depth, sub_set};
ghost use Rattle.graph_image.specs.Images.{IsUsed};
ghost use Rattle.graph_view.specs.Read.{set_in};

use std::sync::ledger::Ledger;
use trie_depth::{Id, Mask, Operand, Steps, Trip};
use trie_view::Sub;

const SUBJECT: Mask = Mask(1);

const PREDICATE: Mask = Mask(2);

const OBJECT: Mask = Mask(4);

/// Whether the triples have this one; none where there is no operand.
pub fn has<W: Ledger>(graph: Option<Sub<'_>>, trip: Trip, reads: &mut Steps<W>) -> bool
    requires deep { IfSome graph (λ s. sub_depth s ≡ 3) }
    ensures { result ≡ has_tuple (set_in sub_set graph.entry) (trip_tuple trip) }
{
    let Some(triples) = graph else {
        return false;
    };
    let Some(pairs) = triples.fix(SUBJECT, trip.0, reads) else {
        return false;
    };
    let Some(keys) = pairs.fix(SUBJECT, trip.1, reads) else {
        return false;
    };
    keys.fix(SUBJECT, trip.2, reads).is_some()
}

/// Whether a triple has the Id.
pub fn is_used<W: Ledger>(graph: Option<Sub<'_>>, id: Id, reads: &mut Steps<W>) -> bool
    requires deep { IfSome graph (λ s. sub_depth s ≡ 3) }
    ensures { IsTrue result ↔ IsUsed (set_in sub_set graph.entry) id.0 }
{
    let Some(triples) = graph else {
        return false;
    };
    if triples.fix(SUBJECT, id, reads).is_some() {
        return true;
    }
    if triples.fix(PREDICATE, id, reads).is_some() {
        return true;
    }
    triples.fix(OBJECT, id, reads).is_some()
}
