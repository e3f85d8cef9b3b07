//! The lines of a query's answer (SPARQL 1.1 Query Results CSV and TSV Formats, section 4).
ghost use Rattle.std.specs.Prelude.{◌≡◌, ◌++◌, codes, map, nat_eq};
ghost use Rattle.std.specs.Option.{option_map};
ghost use Rattle.rdf_term.specs.Seen.{lent_term};
ghost use Rattle.query_plan.specs.Seen.{query_seen, column_seen};
ghost use Rattle.solution_model.specs.Texts.{header_text};
ghost use Rattle.run_model.specs.Answers.{line_text};
ghost use Rattle.tn_io.specs.OutText.{Puts};
ghost use Rattle.answer_text.specs.Fields.{parting, field_behind};

use crate::pieces::put_pieces;
use query_plan::{Columns, Query};
use rdf_term::{TermRef, tsv_to};
use tn_io::{Failed, Out, Sink};

// Puts what stands before a field of a line.
fn put_parting<K: Sink>(first: bool, out: &mut Out<'_, K>) -> Result<(), Failed>
    ensures same_sink { out.new.sink.ghost_name ≡ out.old.sink.ghost_name }
    ensures put { Puts K.written K.faults out.old out.new result (parting first) }
{
    if first {
        return Ok(());
    }
    out.put_byte(b'\t')
}

// Puts the name of a column behind a question mark.
fn put_name<K: Sink>(name: &[u8], first: bool, out: &mut Out<'_, K>) -> Result<(), Failed>
    ensures same_sink { out.new.sink.ghost_name ≡ out.old.sink.ghost_name }
    ensures put { Puts K.written K.faults out.old out.new result (parting first ++ (codes "?" ++ name.now)) }
{
    if first {
        put_pieces(out, &[b"?", name])
    } else {
        put_pieces(out, &[b"\t?", name])
    }
}

// Puts the names of columns, each behind a question mark, parted by tabs.
fn put_names<K: Sink>(columns: &Columns, out: &mut Out<'_, K>) -> Result<(), Failed>
    ensures same_sink { out.new.sink.ghost_name ≡ out.old.sink.ghost_name }
    ensures put { Puts K.written K.faults out.old out.new result (header_text (map column_seen columns.now)) }
{
    for i in 0..columns.len() {
        let name = columns.at(i).name.as_str().as_bytes();
        put_name(name, i == 0, out)?;
    }
    Ok(())
}

/// Puts the line of a query's columns.
pub fn header<K: Sink>(q: &Query, out: &mut Out<'_, K>) -> Result<(), Failed>
    ensures same_sink { out.new.sink.ghost_name ≡ out.old.sink.ghost_name }
    ensures put { Puts K.written K.faults out.old out.new result (line_text (header_text (query_seen q.now).columns)) }
{
    put_names(&q.columns, out)?;
    end_row(out)
}

/// Puts a value of a row, behind a tab unless it is the first; nothing of a value where there is none.
pub fn field<K: Sink>(
    t: Option<TermRef<'_>>,
    first: bool,
    out: &mut Out<'_, K>,
) -> Result<(), Failed>
    ensures same_sink { out.new.sink.ghost_name ≡ out.old.sink.ghost_name }
    ensures put { Puts K.written K.faults out.old out.new result (field_behind first (option_map lent_term t.entry)) }
{
    put_parting(first, out)?;
    match t {
        Some(t) => tsv_to(t, out),
        None => Ok(()),
    }
}

/// Puts the end of a line.
pub fn end_row<K: Sink>(out: &mut Out<'_, K>) -> Result<(), Failed>
    ensures same_sink { out.new.sink.ghost_name ≡ out.old.sink.ghost_name }
    ensures put { Puts K.written K.faults out.old out.new result (codes "\n") }
{
    out.put_byte(b'\n')
}
