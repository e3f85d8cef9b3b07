//! The shape of a graph as lines.
ghost use Rattle.std.specs.Prelude.{ℕ, IfOk};
ghost use Rattle.hypertrie_model.specs.IdSets.{IdSet};
ghost use Rattle.trie_context.specs.Shape.{HasShape};
ghost use Rattle.graph_image.specs.Images.{AreKnown};
ghost use Rattle.graph_lines.specs.Walks.{AreRowsKnown, AreRowTexts, AreShapeLines};

use crate::row_lines::add_row_lines;
use crate::sorted::sorted_lines;
use graph_view::TablesView;
use std::alloc::Global;
use tn_io::{Lines, Text};
use trie_depth::Memory;

/// The line of each row of depths one and two, in the order of the tables.
fn row_texts(alloc: Global, all: TablesView<'_>) -> Result<Vec<Text>, Memory>
    requires known { (d : ℕ) → AreRowsKnown all.dict.now all.tables.now d }
    ensures { IfOk result (λ texts. AreRowTexts all.entry.dict.now all.entry.tables.now texts.items) }
{
    let mut texts = Vec::new(alloc);
    add_row_lines(alloc, all, 1, &mut texts)?;
    add_row_lines(alloc, all, 2, &mut texts)?;
    Ok(texts)
}

/// The lines of the shape of the graph whose tables and dictionary these are, sorted by their bytes: one for each row of
/// pairs and of keys. There is none for a graph of fewer than two triples.
pub fn shape_lines(alloc: Global, all: TablesView<'_>) -> Result<Lines, Memory>
    requires shape { (H : IdSet) × HasShape all.tables.now H × AreKnown all.dict.now H }
    ensures { IfOk result (λ lines. AreShapeLines all.entry lines) }
{
    sorted_lines(alloc, row_texts(alloc, all)?)
}
