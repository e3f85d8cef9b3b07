//! Definitions alone: terms, triples and graphs (RDF 1.1 Concepts, sections 3.1 to 3.4), the texts of terms, and the
//! sorted texts of a set.
#![tactic(auto)]

ghost use Rattle.rdf_model.specs.Dumps.{SortsToDumpLines};

/// The lines of a graph are a function of it: the sorted lists of the lines of its triples, each triple once, are this one.
pub fn dumps_by_sorting()
    ensures { SortsToDumpLines }
{}
