//! The rows of patterns over lists of triples.
ghost use Rattle.std.specs.Prelude.{◌≡◌, ◌<◌, ◌≤◌, IsTrue, IfOk, length, map};
ghost use Rattle.query_plan.specs.Labels.{IsLabelled, column_labels};
ghost use Rattle.bag_list.specs.Starts.{AreStarts};
ghost use Rattle.worked_listings.specs.Tried.{are_labels, pattern_of, start_of};

use bag_list::{Lister, Start};
use key_join::ListOp;
use query_plan::{Column, Columns, Pattern, Patterns, Place, Query};
use std::alloc::Global;
use std::marker::Brand;
use std::sync::ledger::{Blank, Ledger};
use std::test::Fail;
use tn_io::Text;
use trie_depth::{Id, Memory, Operand, Steps, Trip};

/// One subject and one predicate.
const TWO: [Trip; 2] = [Trip(Id(0), Id(1), Id(2)), Trip(Id(0), Id(1), Id(3))];

/// A subject that is an object, with two predicates.
const LOOPS: [Trip; 3] = [
    Trip(Id(0), Id(0), Id(0)),
    Trip(Id(0), Id(1), Id(0)),
    Trip(Id(0), Id(1), Id(2)),
];

fn starts_of<O: Copy>(
    alloc: Global,
    op: O,
    labels: &[(u8, u8, u8)],
) -> Result<Vec<Start<O>>, Memory>
    ensures { IfOk result (λ starts. starts.items ≡ map (start_of op) labels.now) }
{
    let mut starts = Vec::new(alloc);
    for (s, p, o) in labels {
        starts.push(Start {
            op: Some(op),
            labels: [Some(*s), Some(*p), Some(*o)],
        })?;
    }
    Ok(starts)
}

fn patterns_of(alloc: Global, labels: &[(u8, u8, u8)]) -> Result<Patterns, Memory>
    ensures { IfOk result (λ patterns. patterns ≡ map pattern_of labels.now) }
{
    let mut patterns = Patterns::new(alloc);
    for (s, p, o) in labels {
        patterns.push(Pattern {
            s: Place::Label(*s),
            p: Place::Label(*p),
            o: Place::Label(*o),
        })?;
    }
    Ok(patterns)
}

fn columns_of(alloc: Global, labels: &[Option<u8>]) -> Result<Columns, Memory>
    ensures { IfOk result (λ columns. column_labels columns ≡ labels.now) }
{
    let mut columns = Columns::new(alloc);
    for label in labels {
        columns.push(Column {
            name: Text::new(alloc),
            label: *label,
        })?;
    }
    Ok(columns)
}

/// How rows are chosen.
#[derive(Clone, Copy)]
pub struct Choice {
    pub distinct: bool,
    pub limit: Option<u64>,
    pub offset: u64,
}

const ALL: Choice = Choice {
    distinct: false,
    limit: None,
    offset: 0,
};

/// Adds the value of each column.
fn add_row(
    lister: &Lister<ListOp<'_>>,
    n: usize,
    values: &mut Vec<Option<u32>>,
) -> Result<(), Memory>
    requires { n ≤ length lister.now.columns }
{
    for col in 0..n {
        values.push(lister.value(col).map(|key| key.0))?;
    }
    Ok(())
}

fn values<W: Ledger>(
    alloc: Global,
    starts: &[Start<ListOp<'_>>],
    query: &Query,
    blank: Blank,
) -> Result<Vec<Option<u32>>, Memory>
    requires labels { IsLabelled query.now }
    requires starts { AreStarts ⟦<ListOp<'static> as Operand>⟧.depth_of ⟦<ListOp<'static> as Operand>⟧.tuples starts.now query.now.patterns }
    requires name { blank.name ≡ W.name }
    requires parts { blank.parts ≡ W.parts }
    requires whole { 0 < W.parts }
{
    let mut lister = Lister::make(alloc, starts, query)?;
    let mut reads = Steps::<W>::new(blank);
    let mut values = Vec::new(alloc);
    for _row in 0..100 {
        if lister.next(&mut reads).is_none() {
            break;
        }
        add_row(&lister, query.columns.len(), &mut values)?;
    }
    Ok(values)
}

/// The values of the first rows, row by row: at most a hundred rows.
pub fn listed(
    alloc: Global,
    list: &[Trip],
    labels: &[(u8, u8, u8)],
    n: u8,
    columns: &[Option<u8>],
    choice: &Choice,
) -> Result<Vec<Option<u32>>, Memory>
    requires list { 0 < length list.now }
    requires labels { IsTrue (are_labels n labels.now columns.now) }
{
    let query = Query {
        columns: columns_of(alloc, columns)?,
        labels: n,
        distinct: choice.distinct,
        patterns: patterns_of(alloc, labels)?,
        limit: choice.limit,
        offset: choice.offset,
    };
    let starts = starts_of(alloc, ListOp::of(list), labels)?;
    values::<Brand>(alloc, &starts, &query, Blank::new(1))
}

#[test]
fn rows_of_patterns(rt: HostRuntime) -> Result<(), Fail> {
    let alloc = rt.alloc();
    let spo = [(0, 1, 2)];
    let subjects = listed(alloc, &TWO, &spo, 3, &[Some(0)], &ALL)?;
    assert_eq!(rt; subjects.as_slice(), [Some(0), Some(0)].as_slice());
    let unnamed = listed(alloc, &TWO, &spo, 3, &[None], &ALL)?;
    assert_eq!(rt; unnamed.as_slice(), [None, None].as_slice());
    let xpx = [(0, 1, 0)];
    let columns = [Some(0), Some(1)];
    let alike = listed(alloc, &LOOPS, &xpx, 2, &columns, &ALL)?;
    assert_eq!(rt;
        alike.as_slice(),
        [Some(0), Some(0), Some(0), Some(1)].as_slice()
    );
    let xxx = [(0, 0, 0)];
    let all_alike = listed(alloc, &LOOPS, &xxx, 1, &[Some(0)], &ALL)?;
    assert_eq!(rt; all_alike.as_slice(), [Some(0)].as_slice());
    let path = [(0, 1, 2), (2, 3, 4)];
    let paths = listed(alloc, &LOOPS, &path, 5, &[Some(0)], &ALL)?;
    assert_eq!(rt; paths.as_slice(), [Some(0); 6].as_slice());
    let nothing = listed(alloc, &TWO, &[], 0, &[None], &ALL)?;
    assert_eq!(rt; nothing.as_slice(), [None].as_slice());
    Ok(())
}

#[test]
fn chosen_rows(rt: HostRuntime) -> Result<(), Fail> {
    let alloc = rt.alloc();
    let spo = [(0, 1, 2)];
    let distinct = Choice {
        distinct: true,
        limit: None,
        offset: 0,
    };
    let subject = listed(alloc, &TWO, &spo, 3, &[Some(0)], &distinct)?;
    assert_eq!(rt; subject.as_slice(), [Some(0)].as_slice());
    let objects = listed(alloc, &TWO, &spo, 3, &[Some(2)], &distinct)?;
    assert_eq!(rt; objects.as_slice(), [Some(2), Some(3)].as_slice());
    let unnamed = listed(alloc, &TWO, &spo, 3, &[None], &distinct)?;
    assert_eq!(rt; unnamed.as_slice(), [None].as_slice());
    let none = Choice {
        distinct: false,
        limit: Some(0),
        offset: 0,
    };
    let limited = listed(alloc, &TWO, &spo, 3, &[Some(0)], &none)?;
    assert_eq!(rt; limited.len(), 0);
    let past = Choice {
        distinct: false,
        limit: None,
        offset: 5,
    };
    let left_out = listed(alloc, &TWO, &spo, 3, &[Some(0)], &past)?;
    assert_eq!(rt; left_out.len(), 0);
    let second = Choice {
        distinct: false,
        limit: Some(1),
        offset: 1,
    };
    let one = listed(alloc, &TWO, &spo, 3, &[Some(0)], &second)?;
    assert_eq!(rt; one.as_slice(), [Some(0)].as_slice());
    Ok(())
}

/// Of 1,024 rows the first one, at once.
#[test]
fn patterns_without_a_common_label(rt: HostRuntime) -> Result<(), Fail> {
    let alloc = rt.alloc();
    let patterns = [
        (0, 1, 2),
        (3, 4, 5),
        (6, 7, 8),
        (9, 10, 11),
        (12, 13, 14),
        (15, 16, 17),
        (18, 19, 20),
        (21, 22, 23),
        (24, 25, 26),
        (27, 28, 29),
    ];
    let first = Choice {
        distinct: false,
        limit: Some(1),
        offset: 0,
    };
    let row = listed(alloc, &TWO, &patterns, 30, &[Some(27)], &first)?;
    assert_eq!(rt; row.as_slice(), [Some(0)].as_slice());
    Ok(())
}

/// None of many rows, at once: no triple's subject is its object.
#[test]
fn patterns_beside_one_without_a_key(rt: HostRuntime) -> Result<(), Fail> {
    let alloc = rt.alloc();
    let patterns = [
        (0, 1, 2),
        (3, 4, 5),
        (6, 7, 8),
        (9, 10, 11),
        (12, 13, 14),
        (15, 16, 17),
        (18, 19, 20),
        (21, 22, 23),
        (24, 25, 26),
        (27, 28, 27),
    ];
    let none = listed(alloc, &TWO, &patterns, 29, &[Some(0)], &ALL)?;
    assert_eq!(rt; none.len(), 0);
    let distinct = Choice {
        distinct: true,
        limit: None,
        offset: 0,
    };
    let none_distinct = listed(alloc, &TWO, &patterns, 29, &[Some(2), Some(5)], &distinct)?;
    assert_eq!(rt; none_distinct.len(), 0);
    Ok(())
}
