//! The rows of a listing, put one by one.
ghost use Rattle.std.specs.Prelude.{◌≡◌, length, IsSome};
ghost use Rattle.query_plan.specs.Seen.{query_seen};
ghost use Rattle.solution_model.specs.Texts.{row_text};
ghost use Rattle.run_model.specs.Answers.{row_line};
ghost use Rattle.tn_io.specs.OutText.{Puts};
ghost use Rattle.listing_text.specs.Rows.{HasWidth, OfPresent, PutsRows, PutsAnswer};

use answer_text::{Reply, end_row, field, header, ok};
use graph_listing::Listing;
use query_plan::Query;
use std::sync::ledger::Ledger;
use tn_io::{Failed, Out, Sink};
use trie_depth::Steps;

// Puts the values of the present row, parted by tabs.
fn put_fields<K: Sink>(
    listing: &Listing<'_>,
    columns: usize,
    out: &mut Out<'_, K>,
) -> Result<(), Failed>
    requires given { IsSome listing.now.present }
    requires columns { columns ≡ length listing.now.columns }
    ensures same_sink { out.new.sink.ghost_name ≡ out.old.sink.ghost_name }
    ensures put { OfPresent listing.now columns (λ row. Puts K.written K.faults out.old out.new result (row_text row)) }
{
    for col in 0..columns {
        field(listing.value(col), col == 0, out)?;
    }
    Ok(())
}

// Puts the line of the present row.
fn put_row<K: Sink>(
    listing: &Listing<'_>,
    columns: usize,
    out: &mut Out<'_, K>,
) -> Result<(), Failed>
    requires given { IsSome listing.now.present }
    requires columns { columns ≡ length listing.now.columns }
    ensures same_sink { out.new.sink.ghost_name ≡ out.old.sink.ghost_name }
    ensures put { OfPresent listing.now columns (λ row. Puts K.written K.faults out.old out.new result (row_line row)) }
{
    put_fields(listing, columns, out)?;
    end_row(out)
}

// Puts the rows that are still to come, and says how many they are.
fn put_rows<K: Sink, W: Ledger>(
    listing: &mut Listing<'_>,
    columns: usize,
    out: &mut Out<'_, K>,
    reads: &mut Steps<W>,
) -> Result<u64, Failed>
    requires columns { columns ≡ length listing.old.columns }
    requires wide { HasWidth listing.old }
    ensures same_sink { out.new.sink.ghost_name ≡ out.old.sink.ghost_name }
    ensures put { PutsRows K.written K.faults out.old out.new result listing.old }
{
    let mut count: u64 = 0;
    'rows: loop {
        let Some(()) = listing.next(reads) else {
            return Ok(count);
        };
        put_row(listing, columns, out)?;
        count = count.saturating_add(1);
    }
}

/// Puts the whole answer of a query, whose listing this is: the columns, the rows, and how many they are.
pub fn put_listing<K: Sink, W: Ledger>(
    query: &Query,
    mut listing: Listing<'_>,
    out: &mut Out<'_, K>,
    reads: &mut Steps<W>,
) -> Result<(), Failed>
    requires columns { length query.now.columns ≡ length listing.columns }
    requires wide { HasWidth listing }
    ensures same_sink { out.new.sink.ghost_name ≡ out.old.sink.ghost_name }
    ensures put { PutsAnswer K.written K.faults out.old out.new result (query_seen query.now).columns listing.entry }
{
    header(query, out)?;
    let rows = put_rows(&mut listing, query.columns.len(), out, reads)?;
    ok(Reply::Rows(rows), out)
}
