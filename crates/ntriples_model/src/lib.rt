//! Definitions alone: the grammar of RDF 1.1 N-Triples (section 7). Each terminal stands in `specs/Terminals.antt` by its
//! productions and as a function from the front of some bytes; the functions below say that the two agree.
#![tactic(auto)]

ghost use Rattle.ntriples_model.specs.Laws.{FindsLongest};
ghost use Rattle.ntriples_model.specs.LineLaw.{SaysAsProductions};
ghost use Rattle.ntriples_model.specs.Proper.{LinesSayProperTriples, TextsOfLinesStand};
ghost use Rattle.ntriples_model.specs.TermText.{TextsStand};
ghost use Rattle.ntriples_model.specs.Terminals.{IsIriRef, IsStringLiteral, IsBlankNodeLabel, IsLangTag, iri_at, string_at, label_at, tag_at};

/// What is found at the front of some bytes is the longest terminal that begins them, and nothing where there is none.
pub fn terminals_by_productions()
    ensures iris { FindsLongest IsIriRef iri_at }
    ensures strings { FindsLongest IsStringLiteral string_at }
    ensures labels { FindsLongest IsBlankNodeLabel label_at }
    ensures tags { FindsLongest IsLangTag tag_at }
{}

/// What is said of a line from its front is what the productions say of it.
pub fn lines_by_productions()
    ensures { SaysAsProductions }
{}

/// Both texts of a term stand for the term again, where any text does; so does that of a label under a scope.
pub fn texts_stand_for_their_terms()
    ensures { TextsStand }
{}

/// A triple that a line says is a proper one, and both texts of each of its terms stand for the term again.
pub fn lines_say_proper_triples()
    ensures proper { LinesSayProperTriples }
    ensures texts { TextsOfLinesStand }
{}
