//! A graph of three triples, of which one has the same Id at all positions, and one at subject and object.
ghost use Rattle.std.specs.Prelude.{◌≡◌, ◌<◌, ◌≤◌, length};
ghost use Rattle.trie_depth.specs.Tuples.{trip_tuple};
ghost use Rattle.trie_context.specs.Rows.{no_tables};
ghost use Rattle.trie_context.specs.declared.root.Root.{Root};
ghost use Rattle.trie_context.specs.Roots.{IsHeld};
ghost use Rattle.trie_change.specs.Batches.{IsOnce};
ghost use Rattle.trie_view.specs.Subs.{sub_depth};

use crate::reads::{AtMask, Slice, at_masks};
use key_join::{ListOp, next_common};
use std::alloc::Global;
use std::marker::Brand;
use std::sync::ledger::{Blank, Ledger};
use trie_context::{Context, Root};
use trie_depth::{ConstMix, Id, Mask, Memory, Mix, SplitMix, Steps, Trip};
use trie_update::grow;
use trie_view::Sub;

/// A slice of pairs, and one of keys: with the keys at its first position.
fn pairs(firsts: [bool; 3]) -> Option<Slice> {
    Some(Slice { depth: 2, firsts })
}

fn keys(firsts: [bool; 3]) -> Option<Slice> {
    Some(Slice { depth: 1, firsts })
}

const ZERO: [bool; 3] = [true, false, false];

const ZERO_AND_ONE: [bool; 3] = [true, true, false];

const THERE: Option<Slice> = Some(Slice {
    depth: 0,
    firsts: [false, false, false],
});

fn at(fixed: [Option<Slice>; 3], count: u64, least: Option<Id>, after_zero: Option<Id>) -> AtMask {
    AtMask {
        fixed,
        count,
        least: [least, after_zero],
    }
}

/// What the graph has at the masks 1 to 7. At two positions, subject and object have the predicates 0 and 1.
fn expected() -> [AtMask; 7] {
    let zero = Some(Id(0));
    [
        at([pairs(ZERO_AND_ONE), None, None], 1, zero, None),
        at([pairs(ZERO), pairs(ZERO), None], 2, zero, Some(Id(1))),
        at([keys(ZERO), None, None], 1, zero, None),
        at([pairs(ZERO), None, pairs(ZERO)], 2, zero, Some(Id(2))),
        at([keys(ZERO_AND_ONE), None, None], 1, zero, None),
        at([keys(ZERO), None, None], 2, zero, None),
        at([THERE, None, None], 1, zero, None),
    ]
}

/// What a view of a graph gives: at every mask, the least key that is subject and object, and the least from 1 on that
/// is predicate and object.
#[derive(Clone, Copy, Debug, PartialEq, Eq)]
struct Reads {
    masks: [AtMask; 7],
    ends: Option<Id>,
    middles: Option<Id>,
}

fn reads_of<W: Ledger>(sub: Sub<'_>, reads: &mut Steps<W>) -> Reads
    requires { sub_depth sub ≡ 3 }
{
    let twice = [sub, sub];
    Reads {
        masks: at_masks(sub, reads),
        ends: next_common(&twice, &[Mask(1), Mask(4)], Id(0), reads),
        middles: next_common(&twice, &[Mask(2), Mask(4)], Id(1), reads),
    }
}

/// What a view of the graph gives, once it was put into empty tables.
fn read_grown<M: Mix, W: Ledger, V: Ledger>(
    alloc: Global,
    context: &mut Context<M>,
    root: &mut Root,
    graph: &[Trip],
    steps: &mut Steps<W>,
    retains: &mut Steps<V>,
) -> Result<Option<Reads>, Memory>
    requires tables { context.old ≡ no_tables }
    requires root { root.old ≡ Root.Empty }
    requires once { IsOnce trip_tuple graph.now }
    requires few { length graph.now ≤ 100 }
    ensures { IsHeld context.new root.new }
{
    grow(alloc, context, root, graph, steps, retains)?;
    match Sub::of(context.tables(), root) {
        Some(sub) => Ok(Some(reads_of(sub, steps))),
        None => Ok(None),
    }
}

fn reads_of_tables<M: Mix, W: Ledger, V: Ledger>(
    alloc: Global,
    graph: &[Trip],
    blank: Blank,
    other: Blank,
) -> Result<Option<Reads>, Memory>
    requires once { IsOnce trip_tuple graph.now }
    requires few { length graph.now ≤ 100 }
    requires name { blank.name ≡ W.name }
    requires parts { blank.parts ≡ W.parts }
    requires whole { 0 < W.parts }
    requires other_name { other.name ≡ V.name }
    requires other_parts { other.parts ≡ V.parts }
    requires other_whole { 0 < V.parts }
{
    let mut steps = Steps::<W>::new(blank);
    let mut retains = Steps::<V>::new(other);
    let mut context = Context::<M>::new(alloc);
    let mut root = Root::Empty;
    let reads = read_grown(
        alloc,
        &mut context,
        &mut root,
        graph,
        &mut steps,
        &mut retains,
    );
    match root {
        Root::Many(held) => context.release(held),
        Root::Empty | Root::One(_) => {}
    }
    reads
}

fn masks_of_list<W: Ledger>(graph: &[Trip], blank: Blank) -> [AtMask; 7]
    requires name { blank.name ≡ W.name }
    requires parts { blank.parts ≡ W.parts }
    requires whole { 0 < W.parts }
{
    let mut steps = Steps::<W>::new(blank);
    at_masks(ListOp::of(graph), &mut steps)
}

fn read_by<M: Mix>(alloc: Global, graph: &[Trip]) -> Result<Option<Reads>, Memory>
    requires once { IsOnce trip_tuple graph.now }
    requires few { length graph.now ≤ 100 }
{
    reads_of_tables::<M, Brand, Brand>(alloc, graph, Blank::new(1), Blank::new(1))
}

#[test]
fn slices_of_a_graph_with_diagonals(rt: HostRuntime) -> Result<(), Memory> {
    let graph = [
        Trip(Id(0), Id(0), Id(0)),
        Trip(Id(0), Id(1), Id(0)),
        Trip(Id(0), Id(1), Id(2)),
    ];
    let reads = Reads {
        masks: expected(),
        ends: Some(Id(0)),
        middles: None,
    };
    assert_eq!(rt; read_by::<SplitMix>(rt.alloc(), &graph)?, Some(reads));
    assert_eq!(rt; read_by::<ConstMix>(rt.alloc(), &graph)?, Some(reads));
    assert_eq!(rt; masks_of_list::<Brand>(&graph, Blank::new(1)), expected());
    Ok(())
}
