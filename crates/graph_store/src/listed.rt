//! The rows that answer a query over the graph.
ghost use Rattle.std.specs.Prelude.{◌≡◌, ◌<◌, None, IfOk};
ghost use Rattle.query_plan.specs.Labels.{IsLabelled};
ghost use Rattle.query_plan.specs.Seen.{query_seen};
ghost use Rattle.solution_model.specs.Rows.{column_labels};
ghost use Rattle.graph_view.specs.Views.{graph_in};
ghost use Rattle.graph_listing.specs.Wholes.{GivesAnswers};
ghost use Rattle.graph_store.specs.StoreState.{graph};

use crate::store::Store;
use graph_listing::Listing;
use graph_view::GraphView;
use query_plan::Query;
use std::alloc::Global;
use std::marker::Brand;
use std::sync::ledger::{Blank, Ledger};
use trie_depth::{Memory, Mix, Steps};

impl<M: Mix> Store<M> {
    /// A listing of the rows that answer the query, of which none was given yet. Whatever it may give answers the query
    /// over the graph; that a whole listing is one of these is a law of `whole_listings`. Its rows take no memory.
    pub fn listing<'a>(&'a self, alloc: Global, query: &Query) -> Result<Listing<'a>, Memory>
        requires { IsLabelled query.now }
        ensures columns { IfOk result (λ s. s.columns ≡ column_labels (query_seen query.now)) }
        ensures present { IfOk result (λ s. s.present ≡ None) }
        ensures answers { IfOk result (λ s. GivesAnswers query.now (graph self.now) s) }
    {
        made::<Brand>(alloc, self.view(), query, Blank::new(1))
    }
}

// A listing whose making is counted on a counter of its own, which nothing sees.
fn made<'a, W: Ledger>(
    alloc: Global,
    graph: GraphView<'a>,
    query: &Query,
    blank: Blank,
) -> Result<Listing<'a>, Memory>
    requires labelled { IsLabelled query.now }
    requires name { blank.name ≡ W.name }
    requires parts { blank.parts ≡ W.parts }
    requires whole { 0 < W.parts }
    ensures columns { IfOk result (λ s. s.columns ≡ column_labels (query_seen query.now)) }
    ensures present { IfOk result (λ s. s.present ≡ None) }
    ensures answers { IfOk result (λ s. GivesAnswers query.now (graph_in graph.entry) s) }
{
    let mut reads = Steps::<W>::new(blank);
    Listing::make(alloc, graph, query, &mut reads)
}
