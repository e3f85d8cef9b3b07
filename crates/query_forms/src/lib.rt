//! Definitions alone: the texts of SELECT queries by productions on whole texts (SPARQL 1.1, section 19): their tokens and
//! what stands between these, what IRIs, strings and prefixed names mean, and the query of a text or its first fault, which
//! `specs/Whole.antt` has. `query_grammar` has the functions that find the same from the front; those below say that the two
//! agree.
#![tactic(auto)]

ghost use Rattle.query_forms.specs.Laws.{LexesAsProductions, MeanAsProductions, TailsAsProductions, PrefixesAsProductions, NamesAsProductions, AllFormsAsProductions, QueriesAsProductions, AnswersAsProductions};

/// The tokens that are found in a text are those of the productions.
pub fn tokens_by_productions()
    ensures { LexesAsProductions }
{}

/// What is found of IRIs and strings is what the productions say.
pub fn texts_by_productions()
    ensures { MeanAsProductions }
{}

/// The limit and the offset that are found are those of the productions.
pub fn limits_by_productions()
    ensures { TailsAsProductions }
{}

/// The IRIs that are found for prefixes and for names are those of the productions.
pub fn prefixes_by_productions()
    ensures { PrefixesAsProductions }
{}

/// The variables and the blank nodes that are found, and their order, are those of the productions.
pub fn names_by_productions()
    ensures { NamesAsProductions }
{}

/// What is found of tokens that have the form of a query is what the productions say: columns, terms, patterns, numbers.
pub fn forms_by_productions()
    ensures { AllFormsAsProductions }
{}

/// The query that is found, or the first fault, is the one of the productions.
pub fn queries_by_productions()
    ensures queries { QueriesAsProductions }
    ensures answers { AnswersAsProductions }
{}
