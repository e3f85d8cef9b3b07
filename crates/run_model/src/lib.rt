//! Definitions alone: what a command does to a graph and answers, and a run of commands.
#![tactic(auto)]

ghost use Rattle.run_model.specs.Sayings.{FirstRefusalIsByPlace};

/// Lines are refused by the first one that can't be carried out.
pub fn law_of_refusals()
    ensures { FirstRefusalIsByPlace }
{}
