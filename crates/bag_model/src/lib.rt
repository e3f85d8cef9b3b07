//! Definitions alone: the solutions of a basic graph pattern as a list (SPARQL 1.1, section 18.3), and which lists of rows
//! answer a query (sections 15 and 18.2.5). They know no join and no order of the labels by size.
#![tactic(auto)]

ghost use Rattle.bag_model.specs.Laws.{ListsSolutions, ListsEachOnce, AreUniversesAlike, IsAnswered};

/// The list of solutions has the solutions, each once.
pub fn solutions_are_listed_once()
    ensures listed { ListsSolutions }
    ensures once { ListsEachOnce }
{}

/// Which elements the assignments range over makes no difference, as long as all are there that stand in the patterns.
pub fn rows_over_any_universe()
    ensures { AreUniversesAlike }
{}

/// Each query has an answer.
pub fn queries_have_answers()
    ensures { IsAnswered }
{}
