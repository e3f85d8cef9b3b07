//! Definitions alone: the list of triples that a script may have generated, for graphs of any size by two numbers.
#![tactic(auto)]

ghost use Rattle.generated_model.specs.Generated.{AreProperTriples, IsWorkedList};

/// Each generated triple is one that a line of N-Triples can say.
pub fn generated_triples_are_proper()
    ensures { AreProperTriples }
{}

/// The list of four triples with the salt 1.
pub fn worked_list()
    ensures { IsWorkedList }
{}
