//! The lines of the triples of a graph, read off its tables.
ghost use Rattle.std.specs.Prelude.{◌≡◌, ℕ, [], Some, IsSome, IfOk, OnOk};
ghost use Rattle.std.specs.FinMap as map;
ghost use Rattle.hypertrie_model.specs.Unions.{union_over};
ghost use Rattle.edge_map.specs.declared.edge.Edge.{Edge};
ghost use Rattle.trie_depth.specs.Tuples.{trip_tuple};
ghost use Rattle.trie_node.specs.Sets.{edge_set};
ghost use Rattle.trie_context.specs.Rows.{set_of, LeadsToRow};
ghost use Rattle.graph_image.specs.Images.{AreKnown};
ghost use Rattle.graph_view.specs.Views.{triples_in};
ghost use Rattle.graph_lines.specs.Walks.{Adds, line_behind, triples_of};
ghost use Rattle.graph_lines.specs.declared.style.Style.TheVariants.{Line};

use crate::members::add_row_pairs;
use crate::style::{Style, with_last, with_word};
use edge_map::{Edge, EdgeMap};
use graph_view::{GraphView, TablesView};
use std::alloc::Global;
use term_dict::Dict;
use tn_io::Text;
use trie_context::Root;
use trie_depth::{Memory, Trip};

/// The line of a triple.
fn triple_line(alloc: Global, triple: Trip, dict: &Dict) -> Result<Text, Memory>
    requires subject { IsSome (map.get dict.now triple.0.0) }
    requires predicate { IsSome (map.get dict.now triple.1.0) }
    requires object { IsSome (map.get dict.now triple.2.0) }
    ensures { IfOk result (λ line. line ≡ line_behind dict.now [] (trip_tuple triple)) }
{
    let subject = with_word(alloc, Style::Line, &Text::new(alloc), dict.term(triple.0))?;
    let pair = with_word(alloc, Style::Line, &subject, dict.term(triple.1))?;
    with_last(alloc, Style::Line, &pair, dict.term(triple.2))
}

/// Adds the line of each triple: a subject, and a pair that its edge leads to.
fn add_triples(
    alloc: Global,
    all: TablesView<'_>,
    triples: &EdgeMap,
    lines: &mut Vec<Text>,
) -> Result<(), Memory>
    requires there { (k : ℕ) (e : Edge) → map.get triples.now k ≡ Some e → LeadsToRow all.tables.now 2 e }
    requires known { AreKnown all.dict.now (union_over triples.now (edge_set (set_of all.tables.now 2))) }
    ensures { OnOk result (Adds Line all.entry [] (triples_of all.entry triples.now) lines.old.items lines.new.items) }
{
    let start = Text::new(alloc);
    let mut walk = triples.walk();
    while let Some((subject, edge)) = walk.next() {
        let word = with_word(alloc, Style::Line, &start, all.dict.term(subject))?;
        match edge {
            Edge::Key(_) => unreachable!(),
            Edge::Node(row) => add_row_pairs(alloc, Style::Line, all, row, &word, lines)?,
        }
    }
    Ok(())
}

/// Adds the line of each triple of a graph.
pub(crate) fn add_lines(
    alloc: Global,
    graph: GraphView<'_>,
    lines: &mut Vec<Text>,
) -> Result<(), Memory>
    ensures { OnOk result (Adds Line graph.entry.all [] (triples_in graph.entry) lines.old.items lines.new.items) }
{
    match graph.root {
        Root::Empty => Ok(()),
        Root::One(triple) => {
            lines.push(triple_line(alloc, *triple, graph.all.dict)?)?;
            Ok(())
        }
        Root::Many(held) => match graph.all.tables.three.node(held.row()).map(0) {
            Some(triples) => add_triples(alloc, graph.all, triples, lines),
            None => unreachable!(),
        },
    }
}
