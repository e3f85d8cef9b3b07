//! Two sets of pairs that share one key set, with one hash for all nodes, a map of edges retained and given up, a row
//! found and not found, and one that is not opened.
ghost use Rattle.std.specs.Prelude.{◌≡◌, ◌<◌, IfOk};
ghost use Rattle.worked_tries.specs.TwoKeys.{two_keys_node, pairs_node};

use edge_map::{Edge, EdgeMap};
use std::alloc::Global;
use std::marker::Brand;
use std::sync::ledger::{Blank, Ledger};
use trie_context::{Context, Held};
use trie_depth::{ConstMix, Id, L1, L2, Memory, Steps};
use trie_node::Node;

/// The set of two keys.
pub(crate) fn two_keys(alloc: Global, low: Id, high: Id) -> Result<Node, Memory>
    requires { low.0 < high.0 }
    ensures { IfOk result (λ n. n ≡ two_keys_node low high) }
{
    Ok(Node::Full {
        size: 2,
        hash: 0,
        first: EdgeMap::new(alloc).with(&[
            (low, Some(Edge::Key(low))),
            (high, Some(Edge::Key(high))),
        ])?,
        second: EdgeMap::new(alloc),
        third: EdgeMap::new(alloc),
    })
}

/// One key before each of two keys, whose set is behind `keys`.
pub(crate) fn pairs(alloc: Global, first: Id, keys: Edge, low: Id, high: Id) -> Result<Node, Memory>
    requires { low.0 < high.0 }
    ensures { IfOk result (λ n. n ≡ pairs_node first keys low high) }
{
    Ok(Node::Full {
        size: 2,
        hash: 0,
        first: EdgeMap::new(alloc).with(&[(first, Some(keys))])?,
        second: EdgeMap::new(alloc).with(&[
            (low, Some(Edge::Key(first))),
            (high, Some(Edge::Key(first))),
        ])?,
        third: EdgeMap::new(alloc),
    })
}

/// The count of the row of the keys while two nodes lead to it, and how many rows there are at the end.
fn shared<W: Ledger>(alloc: Global, steps: &mut Steps<W>) -> Result<(u128, u64, u64), Memory> {
    let mut context = Context::<ConstMix>::new(alloc);
    let keys = context.intern::<L1, W>(two_keys(alloc, Id(2), Id(3))?, steps)?;
    let again = context.retain::<L1, W>(&keys, steps);
    let row = keys.row();
    let keys = keys.into_edge();
    let again = again.into_edge();
    let by_subject = pairs(alloc, Id(1), keys, Id(2), Id(3))?;
    let by_predicate = pairs(alloc, Id(0), again, Id(2), Id(3))?;
    let one = context.intern::<L2, W>(by_subject, steps)?;
    let two = match context.intern::<L2, W>(by_predicate, steps) {
        Ok(two) => two,
        Err(memory) => {
            context.release(one);
            return Err(memory);
        }
    };
    let count = context.tables().one.count(row);
    context.release(one);
    context.release(two);
    Ok((
        count,
        context.tables().one.len(),
        context.tables().two.len(),
    ))
}

/// The count of the row of the keys while a map that leads to it has its holds too, and how many rows there are once
/// the map and the edge are given up.
fn borrowed<W: Ledger>(alloc: Global, steps: &mut Steps<W>) -> Result<(u128, u64), Memory> {
    let mut context = Context::<ConstMix>::new(alloc);
    let keys = context.intern::<L1, W>(two_keys(alloc, Id(2), Id(3))?, steps)?;
    let row = keys.row();
    let edge = keys.into_edge();
    let edges = EdgeMap::new(alloc).with(&[(Id(1), Some(edge))])?;
    context.retain_map::<L2, W>(&edges, steps);
    let count = context.tables().one.count(row);
    context.release_map::<L2>(&edges);
    context.release_edge::<L2>(edge);
    Ok((count, context.tables().one.len()))
}

/// Whether the row of the keys is found while it is held, its count with a second hold through the edge to it, and whether
/// it is found once both are given up.
fn found<W: Ledger>(alloc: Global, steps: &mut Steps<W>) -> Result<(bool, u128, bool), Memory> {
    let mut context = Context::<ConstMix>::new(alloc);
    let sought = two_keys(alloc, Id(2), Id(3))?;
    let keys = context.intern::<L1, W>(two_keys(alloc, Id(2), Id(3))?, steps)?;
    let row = keys.row();
    let held = context.find::<L1>(&sought) == Some(row);
    let edge = keys.into_edge();
    context.retain_edge::<L2, W>(edge, steps);
    let count = context.tables().one.count(row);
    context.release_edge::<L2>(edge);
    context.release_edge::<L2>(edge);
    let given_up = context.find::<L1>(&sought).is_some();
    Ok((held, count, given_up))
}

/// The count of the row of the keys after a try to open it while it has a second hold, and how many rows there are once
/// both are given up.
fn not_opened<W: Ledger>(alloc: Global, steps: &mut Steps<W>) -> Result<(u128, u64), Memory> {
    let mut context = Context::<ConstMix>::new(alloc);
    let keys = context.intern::<L1, W>(two_keys(alloc, Id(2), Id(3))?, steps)?;
    let row = keys.row();
    let edge = keys.into_edge();
    context.retain_edge::<L2, W>(edge, steps);
    match context.open(Held::<L1>::of_edge(edge)) {
        Ok(_) => unreachable!(),
        Err(held) => {
            let count = context.tables().one.count(row);
            context.release(held);
            context.release_edge::<L2>(edge);
            Ok((count, context.tables().one.len()))
        }
    }
}

/// What the four functions above tell, in their order.
type Told = (
    (u128, u64, u64),
    (u128, u64),
    (bool, u128, bool),
    (u128, u64),
);

fn counted<W: Ledger>(alloc: Global, blank: Blank) -> Result<Told, Memory>
    requires name { blank.name ≡ W.name }
    requires parts { blank.parts ≡ W.parts }
    requires whole { 0 < W.parts }
{
    let mut steps = Steps::<W>::new(blank);
    Ok((
        shared(alloc, &mut steps)?,
        borrowed(alloc, &mut steps)?,
        found(alloc, &mut steps)?,
        not_opened(alloc, &mut steps)?,
    ))
}

#[test]
fn shares_finds_and_keeps_a_row(rt: HostRuntime) -> Result<(), Memory> {
    let (shared, borrowed, found, not_opened) = counted::<Brand>(rt.alloc(), Blank::new(1))?;
    assert_eq!(rt; shared, (2, 0, 0));
    assert_eq!(rt; borrowed, (2, 0));
    assert_eq!(rt; found, (true, 2, false));
    assert_eq!(rt; not_opened, (2, 0));
    Ok(())
}
