//! The two ways in which a tuple of terms is written.
ghost use Rattle.std.specs.Prelude.{◌≡◌, ◌++◌, codes, IfOk, OnOk};
ghost use Rattle.rdf_term.specs.Seen.{lent_term};
ghost use Rattle.graph_lines.specs.Walks.{end_in, text_in};

use rdf_term::{TermRef, canon_text, tsv_text};
use std::alloc::Global;
use tn_io::Text;
use trie_depth::Memory;

/// How a tuple of terms is written.
#[derive(Clone, Copy)]
pub enum Style {
    /// A member of a row, whose terms are as in an answer.
    Member,
    /// A triple, as a line of N-Triples.
    Line,
}

/// Adds the text of a term.
fn add_text(alloc: Global, style: Style, term: TermRef<'_>, text: &mut Text) -> Result<(), Memory>
    ensures { OnOk result (text.new ≡ text.old ++ text_in style (lent_term term.entry)) }
{
    match style {
        Style::Member => tsv_text(alloc, term, text),
        Style::Line => canon_text(alloc, term, text),
    }
}

/// What stands behind the last term.
fn end(style: Style) -> &'static str
    ensures { result.now ≡ end_in style }
{
    match style {
        Style::Member => "",
        Style::Line => " .",
    }
}

/// A text, and behind it that of a term which others follow.
pub(crate) fn with_word(
    alloc: Global,
    style: Style,
    before: &Text,
    term: TermRef<'_>,
) -> Result<Text, Memory>
    ensures { IfOk result (λ text. text ≡ before.now ++ text_in style (lent_term term.entry) ++ codes " ") }
{
    let mut text = before.clone()?;
    add_text(alloc, style, term, &mut text)?;
    text.push(" ")?;
    Ok(text)
}

/// A text, and behind it that of the last term.
pub(crate) fn with_last(
    alloc: Global,
    style: Style,
    before: &Text,
    term: TermRef<'_>,
) -> Result<Text, Memory>
    ensures { IfOk result (λ text. text ≡ before.now ++ text_in style (lent_term term.entry) ++ end_in style) }
{
    let mut text = before.clone()?;
    add_text(alloc, style, term, &mut text)?;
    text.push(end(style))?;
    Ok(text)
}
