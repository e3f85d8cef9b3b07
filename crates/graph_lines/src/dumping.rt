//! The dump of a graph.
ghost use Rattle.std.specs.Prelude.{◌≡◌, IfOk};
ghost use Rattle.rdf_model.specs.Dumps.{dump_lines};
ghost use Rattle.graph_view.specs.Views.{graph_in};

use crate::sorted::sorted_lines;
use crate::triple_lines::add_lines;
use graph_view::GraphView;
use std::alloc::Global;
use tn_io::Lines;
use trie_depth::Memory;

/// The lines of all triples in N-Triples, sorted by their bytes.
pub fn dump(alloc: Global, graph: GraphView<'_>) -> Result<Lines, Memory>
    ensures { IfOk result (λ lines. lines ≡ dump_lines (graph_in graph.entry)) }
{
    let mut texts = Vec::new(alloc);
    add_lines(alloc, graph, &mut texts)?;
    sorted_lines(alloc, texts)
}
