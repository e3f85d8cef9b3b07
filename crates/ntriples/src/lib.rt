//! One line of N-Triples to a triple. What a line says is defined in `ntriples_model`'s `specs/Line.antt`.
#![tactic(auto)]

mod grammar;
mod place;
mod terminal;

ghost use Rattle.std.specs.Prelude.{◌≡◌, ◌≤◌, length, Some, None, IfErr, IfOk, OnErr};
ghost use Rattle.ntriples_model.specs.Line.{said};
ghost use Rattle.rdf_term.specs.Seen.{lent_triples};
ghost use Rattle.ntriples.specs.Fault.{IsFault};

use crate::grammar::{after_blanks, is_note, triple};
use rdf_term::Scratch;
pub use rdf_term::TripleRef;

/// Why a line was refused.
#[derive(Clone, Copy, Debug, PartialEq, Eq)]
pub enum LineFault {
    /// The line isn't UTF-8.
    Utf8,
    /// The line isn't in the grammar.
    Shape,
}

/// Reads one line, without its end: a triple, or nothing where it is blank or a comment. Under a scope that isn't empty each
/// label has the scope and two full stops before it. The texts stand in the scratch; no memory is taken.
pub fn read_line<'a>(
    line: &[u8],
    scope: &str,
    to: &'a mut Scratch,
) -> Result<Option<TripleRef<'a>>, LineFault>
    requires line { length line.now ≤ 1048576 }
    requires scope { length scope.now ≤ 64 }
    ensures said { IfOk result (λ r. said scope.now line.now ≡ Some (lent_triples r)) }
    ensures bad { OnErr result (said scope.now line.now ≡ None) }
    ensures fault { IfErr result (λ fault. IsFault fault line.now) }
{
    let Ok(_) = std::str::from_utf8(line) else {
        return Err(LineFault::Utf8);
    };
    to.clear();
    let bytes = after_blanks(line);
    if is_note(bytes) {
        return Ok(None);
    }
    let Some(places) = triple(bytes, scope, to) else {
        return Err(LineFault::Shape);
    };
    Ok(Some(TripleRef {
        s: places.s.term(to),
        p: places.p.term(to),
        o: places.o.term(to),
    }))
}
