//! The tables of graphs, with the dictionary of their terms.
ghost use Rattle.std.specs.Prelude.{◌≡◌};
ghost use Rattle.std.specs.FinMap as map;
ghost use Rattle.term_dict.specs.Dict.{IsOneToOne};
ghost use Rattle.trie_context.specs.Kept.{AreKept};
ghost use Rattle.graph_view.specs.Read.{AreRead};

use term_dict::Dict;
use trie_context::{Context, Tables};
use trie_depth::Mix;

/// The rows of all graphs of a store, and the terms of their Ids. The tables are kept, and no two Ids have one term.
#[derive(Clone, Copy)]
pub struct TablesView<'a> {
    pub tables: &'a Tables,
    pub dict: &'a Dict,
    ghost known: { ∥ AreRead tables.now dict.now ∥₁ },
}

impl<'a> TablesView<'a> {
    pub fn of<M: Mix>(context: &'a Context<M>, dict: &'a Dict) -> TablesView<'a>
        ensures tables { result.tables.now ≡ context.now }
        ensures terms { result.dict.now ≡ dict.now }
        ensures kept { AreKept M.mixed context.now }
        ensures one { IsOneToOne dict.now }
    {
        dict.is_one_to_one();
        TablesView {
            tables: context.tables(),
            dict,
        }
    }

    /// How many terms the dictionary has.
    pub fn n_terms(self) -> u64
        ensures { result ≡ map.len self.entry.dict.now }
    {
        self.dict.len() as u64
    }

    /// How many sets of pairs have a row.
    pub fn n_pair_rows(self) -> u64
        ensures { result ≡ map.len self.entry.tables.now.two.rows }
    {
        self.tables.two.len()
    }

    /// How many sets of single Ids have a row.
    pub fn n_key_rows(self) -> u64
        ensures { result ≡ map.len self.entry.tables.now.one.rows }
    {
        self.tables.one.len()
    }
}
