//! What a store tells of its graph: its figures, its shape, and its lines.
ghost use Rattle.std.specs.Prelude.{◌≡◌, IfOk};
ghost use Rattle.rdf_model.specs.Dumps.{AreDumpLines, dump_lines};
ghost use Rattle.graph_shape.specs.GraphShapes.{figures_of, shape_lines as lines_of_shape};
ghost use Rattle.graph_store.specs.StoreState.{graph, IsSettled};

use crate::store::Store;
use graph_lines as lines;
use std::alloc::Global;
use tn_io::Lines;
use trie_depth::{Memory, Mix};

/// The figures of a graph: how many triples and terms it has, and how many rows of pairs and of single terms its shape
/// has.
#[derive(Clone, Copy, Debug, PartialEq, Eq)]
pub struct Stats {
    pub triples: u64,
    pub terms: u64,
    pub two: u64,
    pub one: u64,
}

impl<M: Mix> Store<M> {
    pub fn stats(&self) -> Stats
        requires { IsSettled self.now }
        ensures triples { result.triples ≡ (figures_of (graph self.now)).triples }
        ensures terms { result.terms ≡ (figures_of (graph self.now)).terms }
        ensures two { result.two ≡ (figures_of (graph self.now)).two }
        ensures one { result.one ≡ (figures_of (graph self.now)).one }
    {
        self.stands();
        let all = self.view().all;
        Stats {
            triples: self.triples(),
            terms: all.n_terms(),
            two: all.n_pair_rows(),
            one: all.n_key_rows(),
        }
    }

    /// The lines of the shape of the graph, sorted by their bytes.
    pub fn shape(&self, alloc: Global) -> Result<Lines, Memory>
        ensures { IfOk result (λ lines. lines ≡ lines_of_shape (graph self.now)) }
    {
        lines::shape_lines(alloc, self.view().all)
    }

    /// The lines of all triples in N-Triples, sorted by their bytes.
    pub fn dump(&self, alloc: Global) -> Result<Lines, Memory>
        ensures value { IfOk result (λ lines. lines ≡ dump_lines (graph self.now)) }
        ensures sorted { IfOk result (λ lines. AreDumpLines (graph self.now) lines) }
    {
        lines::dump(alloc, self.view())
    }
}
