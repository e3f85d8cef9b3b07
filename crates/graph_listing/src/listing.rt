//! The listing of a query's answers.
ghost use Rattle.std.specs.Prelude.{◌≡◌, ◌↔◌, ◌<◌, [], length, slice_get, None, Some, IfOk, IfSome, IsNone, IsSome};
ghost use Rattle.std.specs.Option.{option_map};
ghost use Rattle.rdf_term.specs.Seen.{lent_term};
ghost use Rattle.query_plan.specs.Labels.{IsLabelled};
ghost use Rattle.query_plan.specs.Seen.{query_seen};
ghost use Rattle.bag_model.specs.Listings.{GoesOn, MayGive};
ghost use Rattle.graph_view.specs.Views.{graph_in};
ghost use Rattle.solution_model.specs.Rows.{Row, column_labels};
ghost use Rattle.graph_listing.specs.Wholes.{GivesAnswers, ListsWhole};

use crate::starts::starts_of;
use bag_list::Lister;
use graph_view::GraphView;
use query_plan::Query;
use rdf_term::TermRef;
use std::alloc::Global;
use std::marker::Model;
use std::sync::ledger::Ledger;
use term_dict::Dict;
use trie_depth::{Memory, Steps};
use trie_view::Sub;

/// The rows that answer a query, one by one.
#[derive(Drop)]
pub struct Listing<'a> {
    lister: Lister<Sub<'a>>,
    dict: &'a Dict,
}

impl<'a> Model for Listing<'a> {
    ghost use Rattle.rdf_model.specs.Terms.{Term};
    ghost use Rattle.rdf_model.specs.Graph.{coded_term};
    ghost use Rattle.bag_model.specs.Listings as bag;
    ghost use Rattle.graph_image.specs.Images.{term_at};
    ghost use Rattle.graph_view.specs.Read.{has_id};
    ghost use Rattle.solution_model.specs.ReadListings.{read_listing, coded_listing, GivesKnown};

    ghost Value = { bag.Listing Term };

    ghost coded = { coded_listing coded_term };

    ghost view = { λ s. read_listing (term_at s.dict.now) s.lister };

    ghost invariant = { λ s. GivesKnown (has_id s.dict.now) s.lister };
}

impl<'a> Listing<'a> {
    /// A listing of which no row was given yet. Whatever it may give answers the query over the graph. A constant that the
    /// graph doesn't have matches nothing, and neither does a literal as subject.
    pub fn make<W: Ledger>(
        alloc: Global,
        graph: GraphView<'a>,
        query: &Query,
        reads: &mut Steps<W>,
    ) -> Result<Listing<'a>, Memory>
        requires { IsLabelled query.now }
        ensures columns { IfOk result (λ s. s.columns ≡ column_labels (query_seen query.now)) }
        ensures present { IfOk result (λ s. s.present ≡ None) }
        ensures answers { IfOk result (λ s. GivesAnswers query.now (graph_in graph.entry) s) }
    {
        let starts = starts_of(alloc, graph, &query.patterns, reads)?;
        let lister = Lister::make(alloc, &starts, query)?;
        Ok(Listing {
            lister,
            dict: graph.all.dict,
        })
    }

    /// Goes to the next row; no memory is taken. Once it gave None it gives None again.
    pub fn next<W: Ledger>(&mut self, reads: &mut Steps<W>) -> Option<()>
        ensures row { IfSome result (λ _. GoesOn self.old self.new) }
        ensures none { IsNone result ↔ MayGive self.old [] }
        ensures stays { IsNone result → MayGive self.new [] }
        ensures ended { IsNone result → self.new.present ≡ None }
        ensures columns { self.new.columns ≡ self.old.columns }
    {
        self.lister.next(reads)
    }

    /// The value of a column in the present row, lent from the dictionary. None where the column has no label.
    pub fn value(&self, col: usize) -> Option<TermRef<'a>>
        requires given { IsSome self.now.present }
        requires there { col < length self.now.columns }
        ensures value { (row : Row) → self.now.present ≡ Some row → slice_get row col ≡ Some (option_map lent_term result) }
        ensures none { IsNone result ↔ (slice_get self.now.columns col ≡ Some None) }
    {
        let id = self.lister.value(col)?;
        Some(self.dict.term(id))
    }
}

/// What `next` gives until it gives None answers the query of `make`, and what it gave so far begins an answer: both by
/// `answers` there, which says so of whatever the listing may give.
pub fn whole_listings()
    ensures { ListsWhole }
{}
