//! Definitions alone: the shape of a graph and the lines that say it, in `specs/GraphShapes.antt`. The lines are a
//! function of the graph, so they tell nothing of how it is kept; the functions below say what they are told from.
#![tactic(auto)]

ghost use Rattle.graph_shape.specs.Laws.{SortsToShapeLines, SortsToRowLine, SmallHaveNoLines, ReadsShapes};

/// The lines of a graph and each line of a row are what sorting makes of any list of the rows, or of the members, in
/// which each stands once.
pub fn sorting_has_one_outcome()
    ensures lines { SortsToShapeLines }
    ensures row { SortsToRowLine }
{}

/// A graph of one triple, or of none, has no line.
pub fn small_graphs_have_no_lines()
    ensures { SmallHaveNoLines }
{}

/// The shape of a set of tuples of numbers, read term by term, is the shape of the tuples of the terms, row for row: the
/// sets are those that the rows' sets are read to, and the counts are the same.
pub fn shapes_are_read()
    ensures { ReadsShapes }
{}
