//! The prefixes that a query declares.
ghost use Rattle.std.specs.Prelude.{◌≡◌, ◌≤◌, ◌<◌, ℕ, List, Option, IfOk, OnOk, drop, length, slice_index, is_some};
ghost use Rattle.std.specs.Option.{option_map};
ghost use Rattle.std.specs.BTreeMap.{get_by_text};
ghost use Rattle.query_grammar.specs.Texts as spec;
ghost use Rattle.query_read.specs.Reads.{Declares, AddsFirst};

use query_text::{Lexeme, Sign, iri_text};
use std::alloc::Global;
use std::collections::BTreeMap;
use tn_io::Text;
use trie_depth::Memory;

/// The IRI of each prefix, which is written with its colon.
#[derive(Drop)]
pub(crate) struct Prefixes {
    iris: BTreeMap<String, Text>,
}

impl Prefixes {
    /// The prefixes of a query. Of two declarations of one prefix the last one counts, and so it is met first.
    pub(crate) fn of(alloc: Global, all: &[Lexeme<'_>]) -> Result<Prefixes, Memory>
        ensures { IfOk result (λ p. Declares p all.now) }
    {
        let mut iris = BTreeMap::new(alloc);
        let mut i = all.len();
        while i > 0 {
            i -= 1;
            declare(alloc, &mut iris, tokens_from(all, i))?;
        }
        Ok(Prefixes { iris })
    }

    pub(crate) fn get(&self, prefix: &str) -> Option<&Text>
        ensures { option_map (λ t. t.now) result ≡ get_by_text self.now.iris prefix.now }
    {
        self.iris.get(prefix)
    }
}

/// The tokens from a place on.
fn tokens_from<'s, 'a>(all: &'s [Lexeme<'a>], i: usize) -> &'s [Lexeme<'a>]
    requires { i ≤ length all.now }
    ensures { result.now ≡ drop i all.now }
{
    &all[i..]
}

/// Keeps the declaration that begins the tokens, if one does, and its prefix has no IRI yet.
fn declare(
    alloc: Global,
    iris: &mut BTreeMap<String, Text>,
    all: &[Lexeme<'_>],
) -> Result<(), Memory>
    ensures { OnOk result (AddsFirst (get_by_text iris.old) (get_by_text iris.new) all.now) }
{
    let [prefix, name, iri, ..] = all else {
        return Ok(());
    };
    if !prefix.sign().is(Sign::Prefix) || iris.contains_key(name.text()) {
        return Ok(());
    }
    let Some(iri) = iri_text(alloc, iri.text())? else {
        return Ok(());
    };
    iris.insert(String::from_str(alloc, name.text())?, iri)?;
    Ok(())
}
