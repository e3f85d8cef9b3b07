//! Rows under DISTINCT that are joined through a label that is no column, beside each pair tried by itself.

use crate::listed_rows::{Choice, listed};
use std::alloc::Global;
use std::test::Fail;
use trie_depth::{Id, Memory, Trip};

/// So many ids are tried as authors.
const N: u32 = 8;

/// Papers with their authors. Most pairs of authors have no paper in common.
const PAPERS: [Trip; 14] = [
    Trip(Id(20), Id(30), Id(0)),
    Trip(Id(20), Id(30), Id(7)),
    Trip(Id(21), Id(30), Id(0)),
    Trip(Id(21), Id(30), Id(2)),
    Trip(Id(21), Id(30), Id(7)),
    Trip(Id(22), Id(30), Id(1)),
    Trip(Id(23), Id(30), Id(3)),
    Trip(Id(23), Id(30), Id(6)),
    Trip(Id(24), Id(30), Id(1)),
    Trip(Id(24), Id(30), Id(5)),
    Trip(Id(25), Id(30), Id(4)),
    Trip(Id(26), Id(30), Id(0)),
    Trip(Id(26), Id(30), Id(6)),
    Trip(Id(27), Id(30), Id(7)),
];

/// How rows are chosen under DISTINCT.
const DISTINCT: Choice = Choice {
    distinct: true,
    limit: None,
    offset: 0,
};

fn has_author(list: &[Trip], paper: Id, author: u32) -> bool {
    for triple in list {
        if triple.0.0 == paper.0 && triple.2.0 == author {
            return true;
        }
    }
    false
}

/// Whether some paper has both authors.
fn are_joined(list: &[Trip], first: u32, second: u32) -> bool {
    for triple in list {
        if triple.2.0 == first && has_author(list, triple.0, second) {
            return true;
        }
    }
    false
}

/// How many rows of two columns have both values.
fn n_rows(values: &[Option<u32>], first: u32, second: u32) -> u64 {
    let mut count = 0u64;
    for i in 0..values.len() / 2 {
        if values[2 * i] == Some(first) && values[2 * i + 1] == Some(second) {
            count = count.saturating_add(1);
        }
    }
    count
}

/// One for each pair that is joined, tried pair by pair, and how many these are.
fn by_pairs(alloc: Global, list: &[Trip]) -> Result<(Vec<u64>, u64), Memory> {
    let mut counts = Vec::new(alloc);
    let mut n = 0u64;
    for pair in 0..N * N {
        let joined = are_joined(list, pair / N, pair % N);
        counts.push(u64::from(joined))?;
        n = n.saturating_add(u64::from(joined));
    }
    Ok((counts, n))
}

/// The number of rows for each pair.
fn by_rows(alloc: Global, values: &[Option<u32>]) -> Result<Vec<u64>, Memory> {
    let mut counts = Vec::new(alloc);
    for pair in 0..N * N {
        counts.push(n_rows(values, pair / N, pair % N))?;
    }
    Ok(counts)
}

#[test]
fn authors_with_a_paper_in_common(rt: HostRuntime) -> Result<(), Fail> {
    let alloc = rt.alloc();
    let (expected, n) = by_pairs(alloc, &PAPERS)?;
    let patterns = [(0, 1, 2), (0, 3, 4)];
    let columns = [Some(2), Some(4)];
    let values = listed(alloc, &PAPERS, &patterns, 5, &columns, &DISTINCT)?;
    assert_eq!(rt; by_rows(alloc, &values)?.as_slice(), expected.as_slice());
    assert_eq!(rt; values.len() as u64 / 2, n);
    Ok(())
}
