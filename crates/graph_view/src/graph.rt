//! One graph of the tables.
ghost use Rattle.std.specs.Prelude.{◌≡◌, IfSome};
ghost use Rattle.std.specs.FinSet as set;
ghost use Rattle.hypertrie_model.specs.Sets.{has as has_tuple};
ghost use Rattle.trie_depth.specs.Tuples.{trip_tuple};
ghost use Rattle.term_dict.specs.Dict.{IsOneToOne};
ghost use Rattle.trie_context.specs.Kept.{AreKept};
ghost use Rattle.trie_context.specs.Roots.{root_set};
ghost use Rattle.trie_view.specs.Places.{IsRootThere};
ghost use Rattle.graph_image.specs.Images.{AreKnown};
ghost use Rattle.graph_view.specs.Read.{IsRead, set_in};

use crate::look_up;
use crate::tables::TablesView;
use std::sync::ledger::Ledger;
use term_dict::Dict;
use trie_context::{Context, Root};
use trie_depth::{Mix, Steps, Trip};
use trie_view::Sub;

/// The graph that a root stands for. The root's row is there, and the dictionary has the Ids of its triples.
#[derive(Clone, Copy)]
pub struct GraphView<'a> {
    pub all: TablesView<'a>,
    pub root: &'a Root,
    ghost known: { ∥ IsRead all.tables.now root.now all.dict.now ∥₁ },
}

impl<'a> GraphView<'a> {
    ghost use Rattle.trie_view.specs.Subs.{sub_depth, sub_set};
    ghost use Rattle.graph_view.specs.Views.{triples_in};

    pub fn of<M: Mix>(context: &'a Context<M>, root: &'a Root, dict: &'a Dict) -> GraphView<'a>
        requires there { IsRootThere context.now root.now }
        requires known { AreKnown dict.now (root_set context.now root.now) }
        ensures tables { result.all.tables.now ≡ context.now }
        ensures terms { result.all.dict.now ≡ dict.now }
        ensures root { result.root.now ≡ root.now }
        ensures kept { AreKept M.mixed context.now }
        ensures one { IsOneToOne dict.now }
    {
        GraphView {
            all: TablesView::of(context, dict),
            root,
        }
    }

    /// The triples as an operand; an empty graph has none.
    pub fn operand(self) -> Option<Sub<'a>>
        ensures set { set_in sub_set result ≡ triples_in self.entry }
        ensures depth { IfSome result (λ s. sub_depth s ≡ 3) }
    {
        Sub::of(self.all.tables, self.root)
    }

    /// How many triples there are.
    pub fn len(self) -> u64
        ensures { result ≡ set.len (triples_in self.entry) }
    {
        match self.root {
            Root::Empty => 0,
            Root::One(_) => 1,
            Root::Many(held) => self.all.tables.three.node(held.row()).size(),
        }
    }

    /// Whether the graph has the triple.
    pub fn has<W: Ledger>(self, trip: Trip, reads: &mut Steps<W>) -> bool
        ensures { result ≡ has_tuple (triples_in self.entry) (trip_tuple trip) }
    {
        look_up::has(self.operand(), trip, reads)
    }
}
