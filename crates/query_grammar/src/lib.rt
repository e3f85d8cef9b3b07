//! Definitions alone: SELECT queries over a basic graph pattern (SPARQL 1.1, sections 4, 5, 15 and 19), by their grammar and
//! what its parts mean. `specs/Meaning.antt` has the query of a text; the function below says that the grammar is the same
//! by its productions.
#![tactic(auto)]

ghost use Rattle.query_grammar.specs.Laws.{FindsTriples, TestsOutlines};

/// What is found from the front of a query is what the productions have.
pub fn queries_by_productions()
    ensures outlines { TestsOutlines }
    ensures triples { FindsTriples }
{}
