//! The answer of a query whose rows are put in order.
ghost use Rattle.std.specs.Prelude.{◌≡◌, length, IfOk};
ghost use Rattle.std.specs.List.{flat_map};
ghost use Rattle.run_model.specs.Answers.{line_text};
ghost use Rattle.tn_io.specs.OutText.{Puts};
ghost use Rattle.listing_text.specs.Rows.{HasWidth};
ghost use Rattle.sorted_rows.specs.Sorted.{AreAllTexts, OfSortedAnswer};

use crate::cut::{Cut, left_by};
use crate::texts::texts_of;
use answer_text::{Reply, end_row, header, ok};
use graph_listing::Listing;
use query_plan::Query;
use std::alloc::Global;
use std::sync::ledger::Ledger;
use tn_io::{Failed, Out, Sink, Text};
use trie_depth::{Memory, Steps};

/// The texts of the rows of a listing, in the order of their bytes. The listing is one of a query without OFFSET and LIMIT
/// (see `uncut`), of so many columns.
pub fn sorted_texts<W: Ledger>(
    alloc: Global,
    listing: Listing<'_>,
    columns: usize,
    reads: &mut Steps<W>,
) -> Result<Vec<Text>, Memory>
    requires columns { columns ≡ length listing.columns }
    requires wide { HasWidth listing }
    ensures { IfOk result (λ texts. AreAllTexts listing.entry texts.items) }
{
    let mut texts = texts_of(alloc, listing, columns, reads)?;
    texts.sort_unstable();
    Ok(texts)
}

// Puts a line and its end.
fn put_line<K: Sink>(line: &Text, out: &mut Out<'_, K>) -> Result<(), Failed>
    ensures same_sink { out.new.sink.ghost_name ≡ out.old.sink.ghost_name }
    ensures put { Puts K.written K.faults out.old out.new result (line_text line.now) }
{
    out.put(line.as_str().as_bytes())?;
    end_row(out)
}

// Puts lines, each with its end.
fn put_lines<K: Sink>(lines: &[Text], out: &mut Out<'_, K>) -> Result<(), Failed>
    ensures same_sink { out.new.sink.ghost_name ≡ out.old.sink.ghost_name }
    ensures put { Puts K.written K.faults out.old out.new result (flat_map line_text lines.now) }
{
    for line in lines {
        put_line(line, out)?;
    }
    Ok(())
}

/// Puts the whole answer of a query in order: the columns, the rows that the cut leaves, and how many these are. The query
/// and the cut are those of `uncut`, and the texts those of `sorted_texts`. No memory is taken.
pub fn put_sorted<K: Sink>(
    query: &Query,
    cut: Cut,
    texts: &[Text],
    out: &mut Out<'_, K>,
) -> Result<(), Failed>
    ensures same_sink { out.new.sink.ghost_name ≡ out.old.sink.ghost_name }
    ensures put { OfSortedAnswer query.now cut texts.now (λ text. Puts K.written K.faults out.old out.new result text) }
{
    let rows = left_by(texts, cut);
    header(query, out)?;
    put_lines(rows, out)?;
    ok(Reply::Rows(rows.len() as u64), out)
}
