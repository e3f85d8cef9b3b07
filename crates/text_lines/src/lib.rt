//! The lines of a text of bytes: definitions, and the laws that hold of them. There is no code.
#![tactic(auto)]

ghost use Rattle.text_lines.specs.Laws.{CutsAreProductions, WholeLinesStay};

/// What holds of the lines of any text.
pub fn laws_of_lines()
    ensures productions { CutsAreProductions }
    ensures whole_lines_stay { WholeLinesStay }
{}
