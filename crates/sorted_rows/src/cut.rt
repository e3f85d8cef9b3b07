//! OFFSET and LIMIT, taken out of a query.
ghost use Rattle.std.specs.Prelude.{◌≡◌, min};
ghost use Rattle.query_plan.specs.Labels.{IsLabelled};
ghost use Rattle.query_plan.specs.Seen.{query_seen};
ghost use Rattle.solution_model.specs.Answers.{cut};
ghost use Rattle.sorted_rows.specs.Sorted.{IsUncut};

use query_plan::Query;
use tn_io::Text;

/// OFFSET and LIMIT of a query.
#[derive(Clone, Copy, Debug, PartialEq, Eq)]
pub struct Cut {
    /// How many rows are left out first.
    pub offset: u64,
    /// How many rows are given at most.
    pub limit: Option<u64>,
}

/// A query without OFFSET and LIMIT, whose listing gives all rows; and these two.
pub fn uncut(mut query: Query) -> (Query, Cut)
    ensures cut { IsUncut (query_seen query) result.0 result.1 }
    ensures labels { IsLabelled query → IsLabelled result.0 }
{
    let cut = Cut {
        offset: query.offset,
        limit: query.limit,
    };
    query.offset = 0;
    query.limit = None;
    (query, cut)
}

// The lesser of a count and a number.
fn lesser(count: usize, number: u64) -> usize
    ensures { result ≡ min number count }
{
    match usize::try_from(number) {
        Ok(number) => number.min(count),
        Err(_) => count,
    }
}

/// The texts that OFFSET and LIMIT leave.
pub(crate) fn left_by(texts: &[Text], bounds: Cut) -> &[Text]
    ensures { result.now ≡ cut bounds.limit bounds.offset texts.now }
{
    let rest = &texts[lesser(texts.len(), bounds.offset)..];
    match bounds.limit {
        None => rest,
        Some(limit) => &rest[..lesser(rest.len(), limit)],
    }
}
