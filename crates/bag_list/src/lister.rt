//! The listing of the rows of a query.
ghost use Rattle.std.specs.Prelude.{◌≡◌, ◌↔◌, ◌<◌, [], length, slice_get, None, Some, IfOk, IfSome, IsNone};
ghost use Rattle.query_plan.specs.Labels.{IsLabelled, column_labels};
ghost use Rattle.bag_model.specs.Listings.{GoesOn, MayGive};
ghost use Rattle.bag_list.specs.Listing.{GivesAnswers, IsOneLess, ListsWhole, number_of};
ghost use Rattle.bag_list.specs.Rows.{Row};
ghost use Rattle.bag_list.specs.Starts.{AreStarts};

use crate::search::{Search, leave_out};
use crate::track::Start;
use query_plan::{Columns, Query};
use std::alloc::Global;
use std::marker::Model;
use std::sync::ledger::Ledger;
use trie_depth::{Id, Memory, Operand, Steps};

/// The rows of a query, one by one. Contracts see it as what it may still give (`Listings` of `bag_model`).
#[derive(Drop)]
pub struct Lister<O: Operand> {
    search: Search<O>,
    limit: Option<u64>,
    offset: u64,
    /// Whether the last call of `next` gave a row.
    given: bool,
}

impl<O: Operand> Model for Lister<O> {
    ghost use Rattle.std.specs.Prelude.{ℕ};
    ghost use Rattle.bag_model.specs.Listings.{Listing};
    ghost use Rattle.bag_list.specs.Rows.{present_row, rows_to_come};
    ghost use Rattle.bag_list.specs.Search.{IsKept};

    ghost Value = { Listing ℕ };

    ghost view = { λ s. record {
      columns = s.search.columns.items;
      present = present_row s.search s.given;
      rows = rows_to_come O.tuples s.search;
      offset = s.offset;
      limit = s.limit;
    } };

    ghost invariant = { λ s. IsKept O.depth_of O.tuples s.search };
}

impl<O: Operand> Lister<O> {
    /// A listing of which no row was given yet.
    pub fn make(alloc: Global, starts: &[Start<O>], query: &Query) -> Result<Lister<O>, Memory>
        requires labels { IsLabelled query.now }
        requires starts { AreStarts O.depth_of O.tuples starts.now query.now.patterns }
        ensures columns { IfOk result (λ s. s.columns ≡ column_labels query.now.columns) }
        ensures present { IfOk result (λ s. s.present ≡ None) }
        ensures answers { IfOk result (λ s. GivesAnswers O.tuples query.now starts.now s) }
    {
        let columns = labels_of(alloc, &query.columns)?;
        let search = Search::of(alloc, starts, query.labels, columns, query.distinct)?;
        Ok(Lister {
            search,
            limit: query.limit,
            offset: query.offset,
            given: false,
        })
    }

    /// Goes to the next row. Once it gave None it gives None again.
    pub fn next<W: Ledger>(&mut self, reads: &mut Steps<W>) -> Option<()>
        ensures row { IfSome result (λ _. GoesOn self.old self.new) }
        ensures none { IsNone result ↔ MayGive self.old [] }
        ensures stays { IsNone result → MayGive self.new [] }
        ensures ended { IsNone result → self.new.present ≡ None }
        ensures columns { self.new.columns ≡ self.old.columns }
    {
        self.given = false;
        let limit = less(self.limit)?;
        if !leave_out(&mut self.search, self.offset, reads) {
            return None;
        }
        self.offset = 0;
        if !self.search.next_row(reads) {
            return None;
        }
        self.limit = limit;
        self.given = true;
        Some(())
    }

    /// The value of a column in the present row. None where the column has no label.
    pub fn value(&self, col: usize) -> Option<Id>
        requires there { col < length self.now.columns }
        ensures value { (row : Row) → self.now.present ≡ Some row → slice_get row col ≡ Some (number_of result) }
        ensures none { IsNone result ↔ (slice_get self.now.columns col ≡ Some None) }
    {
        let label = self.search.columns[col]?;
        Some(self.search.values[usize::from(label)])
    }
}

/// What `next` gives until it gives None answers the query of `make`, and what it gave so far begins an answer: both by
/// `answers` there, which says so of whatever the listing may give.
pub fn whole_listings()
    ensures { ListsWhole }
{}

/// The limit once a row is given. None where none may be given.
fn less(limit: Option<u64>) -> Option<Option<u64>>
    ensures none { IsNone result → limit ≡ Some 0 }
    ensures some { IfSome result (λ new. IsOneLess limit new) }
{
    match limit {
        Some(n) => Some(Some(n.checked_sub(1)?)),
        None => Some(None),
    }
}

/// The label of each column.
fn labels_of(alloc: Global, columns: &Columns) -> Result<Vec<Option<u8>>, Memory>
    ensures { IfOk result (λ labels. labels.items ≡ column_labels columns.now) }
{
    let mut labels = Vec::new(alloc);
    for i in 0..columns.len() {
        labels.push(columns.at(i).label)?;
    }
    Ok(labels)
}
