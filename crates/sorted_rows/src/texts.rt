//! The texts of the rows of a listing.
ghost use Rattle.std.specs.Prelude.{◌≡◌, ◌++◌, List, length, map, IsSome, IfOk, OnOk};
ghost use Rattle.std.specs.Option.{option_map};
ghost use Rattle.rdf_term.specs.Seen.{lent_term};
ghost use Rattle.answer_text.specs.Fields.{field_behind};
ghost use Rattle.bag_model.specs.Listings.{MayGive};
ghost use Rattle.solution_model.specs.Rows.{Row};
ghost use Rattle.solution_model.specs.Texts.{row_text};
ghost use Rattle.listing_text.specs.Rows.{HasWidth, OfPresent};

use graph_listing::Listing;
use rdf_term::{TermRef, tsv_text};
use std::alloc::Global;
use std::sync::ledger::Ledger;
use tn_io::Text;
use trie_depth::{Memory, Steps};

// Adds a value of a row, behind a tab unless it is the first; nothing of a value where there is none.
fn add_field(
    alloc: Global,
    term: Option<TermRef<'_>>,
    first: bool,
    text: &mut Text,
) -> Result<(), Memory>
    ensures { OnOk result (text.new ≡ text.old ++ field_behind first (option_map lent_term term.entry)) }
{
    if !first {
        text.push("\t")?;
    }
    match term {
        Some(term) => tsv_text(alloc, term, text),
        None => Ok(()),
    }
}

// The text of the present row.
fn text_of(alloc: Global, listing: &Listing<'_>, columns: usize) -> Result<Text, Memory>
    requires given { IsSome listing.now.present }
    requires columns { columns ≡ length listing.now.columns }
    ensures { OfPresent listing.now columns (λ row. IfOk result (λ text. text ≡ row_text row)) }
{
    let mut text = Text::new(alloc);
    for col in 0..columns {
        add_field(alloc, listing.value(col), col == 0, &mut text)?;
    }
    Ok(text)
}

/// The texts of the rows that are still to come, in their order.
pub(crate) fn texts_of<W: Ledger>(
    alloc: Global,
    mut listing: Listing<'_>,
    columns: usize,
    reads: &mut Steps<W>,
) -> Result<Vec<Text>, Memory>
    requires columns { columns ≡ length listing.columns }
    requires wide { HasWidth listing }
    ensures { IfOk result (λ texts. (rows : List Row) × MayGive listing.entry rows × (texts.items ≡ map row_text rows)) }
{
    let mut texts = Vec::new(alloc);
    'rows: loop {
        let Some(()) = listing.next(reads) else {
            return Ok(texts);
        };
        texts.push(text_of(alloc, &listing, columns)?)?;
    }
}
