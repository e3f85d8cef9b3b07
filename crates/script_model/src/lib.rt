//! Definitions alone: the commands of the lines of a script.
#![tactic(auto)]

ghost use Rattle.script_model.specs.Laws.{CommandsAreScripts, FormsAreProductions};

/// The forms of lines and the commands of a script are those of the productions.
pub fn laws_of_scripts()
    ensures forms { FormsAreProductions }
    ensures scripts { CommandsAreScripts }
{}
