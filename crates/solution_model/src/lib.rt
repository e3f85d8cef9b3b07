//! Definitions alone: the solutions of a query over a graph, the rows that answer it, and their texts (SPARQL 1.1, sections
//! 15 and 18). They know no join and no Ids. The functions below say what holds of them.
#![tactic(auto)]

ghost use Rattle.solution_model.specs.Laws.{FixesConstants, ReadsRows, ReadsChosenRows, DetermineRows, IsSortedAnswer, SortsToAnswer};

/// Constants may be fixed first.
pub fn constants_by_slices()
    ensures { FixesConstants }
{}

/// Rows may be found over numbers that stand for terms.
pub fn rows_over_numbers()
    ensures rows { ReadsRows }
    ensures chosen { ReadsChosenRows }
{}

/// No two rows have one text.
pub fn texts_of_rows()
    ensures { DetermineRows }
{}

/// Each query has answers, and one of them is in order.
pub fn answers_in_order()
    ensures answers { IsSortedAnswer }
    ensures sorted { SortsToAnswer }
{}
