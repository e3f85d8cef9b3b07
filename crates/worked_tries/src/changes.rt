//! Triples put into a graph and taken out of it, with the rows that are there after each step.
ghost use Rattle.std.specs.Prelude.{◌≡◌, ◌+◌, ◌<◌, ◌≤◌, false, length};
ghost use Rattle.hypertrie_model.specs.Changes.{IsChange};
ghost use Rattle.trie_depth.specs.Tuples.{trip_tuple};
ghost use Rattle.trie_context.specs.declared.root.Root.{Root};
ghost use Rattle.trie_context.specs.Rows.{no_tables};
ghost use Rattle.trie_context.specs.Roots.{IsHeld};
ghost use Rattle.trie_change.specs.Batches.{set_of_entries, IsOnce};

use std::alloc::Global;
use std::marker::Brand;
use std::sync::ledger::{Blank, Ledger};
use trie_context::{Context, Root};
use trie_depth::{ConstMix, Id, Memory, Mix, SplitMix, Steps, Trip};
use trie_update::{grow, shrink};

/// How many rows there are of depths three, two and one, the count of the first row of depth one, and the one triple of
/// a graph without rows.
#[derive(Clone, Copy, Debug, PartialEq, Eq)]
struct Figures {
    three: u64,
    two: u64,
    one: u64,
    count: Option<u128>,
    lone: Option<Trip>,
}

fn figures_of<M: Mix>(context: &Context<M>, root: &Root) -> Figures {
    let tables = context.tables();
    let count = match tables.one.next_row(0) {
        Some(row) => Some(tables.one.count(row)),
        None => None,
    };
    let lone = match root {
        Root::One(triple) => Some(*triple),
        Root::Empty | Root::Many(_) => None,
    };
    Figures {
        three: tables.three.len(),
        two: tables.two.len(),
        one: tables.one.len(),
        count,
        lone,
    }
}

/// The figures after all triples were put in, a part of them was taken out, the part was put in again, and all were
/// taken out.
fn history<M: Mix, W: Ledger, V: Ledger>(
    alloc: Global,
    context: &mut Context<M>,
    root: &mut Root,
    all: &[Trip],
    part: &[Trip],
    interns: &mut Steps<W>,
    retains: &mut Steps<V>,
) -> Result<(Figures, Figures, Figures, Figures), Memory>
    requires tables { context.old ≡ no_tables }
    requires root { root.old ≡ Root.Empty }
    requires all { IsOnce trip_tuple all.now }
    requires part { IsOnce trip_tuple part.now }
    requires within { IsChange false (set_of_entries trip_tuple all.now) (set_of_entries trip_tuple part.now) }
    requires few { length all.now + length part.now ≤ 100 }
    ensures { IsHeld context.new root.new }
{
    grow(alloc, context, root, all, interns, retains)?;
    let grown = figures_of(context, root);
    shrink(alloc, context, root, part, interns, retains)?;
    let shrunk = figures_of(context, root);
    grow(alloc, context, root, part, interns, retains)?;
    let again = figures_of(context, root);
    shrink(alloc, context, root, all, interns, retains)?;
    Ok((grown, shrunk, again, figures_of(context, root)))
}

fn counted<M: Mix, W: Ledger, V: Ledger>(
    alloc: Global,
    all: &[Trip],
    part: &[Trip],
    blank: Blank,
    other: Blank,
) -> Result<(Figures, Figures, Figures, Figures), Memory>
    requires all { IsOnce trip_tuple all.now }
    requires part { IsOnce trip_tuple part.now }
    requires within { IsChange false (set_of_entries trip_tuple all.now) (set_of_entries trip_tuple part.now) }
    requires few { length all.now + length part.now ≤ 100 }
    requires name { blank.name ≡ W.name }
    requires parts { blank.parts ≡ W.parts }
    requires whole { 0 < W.parts }
    requires other_name { other.name ≡ V.name }
    requires other_parts { other.parts ≡ V.parts }
    requires other_whole { 0 < V.parts }
{
    let mut interns = Steps::<W>::new(blank);
    let mut retains = Steps::<V>::new(other);
    let mut context = Context::<M>::new(alloc);
    let mut root = Root::Empty;
    let result = history(
        alloc,
        &mut context,
        &mut root,
        all,
        part,
        &mut interns,
        &mut retains,
    );
    match root {
        Root::Many(held) => context.release(held),
        Root::Empty | Root::One(_) => {}
    }
    result
}

const NONE: Figures = Figures {
    three: 0,
    two: 0,
    one: 0,
    count: None,
    lone: None,
};

/// Two triples of one subject and one predicate, with one hash for all nodes: their two objects are one key set, which
/// the slices by the subject and by the predicate share.
#[test]
fn shares_the_objects_of_two_triples(rt: HostRuntime) -> Result<(), Memory> {
    let first = Trip(Id(0), Id(1), Id(2));
    let second = Trip(Id(0), Id(1), Id(3));
    let (grown, shrunk, again, gone) = counted::<ConstMix, Brand, Brand>(
        rt.alloc(),
        &[first, second],
        &[second],
        Blank::new(1),
        Blank::new(1),
    )?;
    let both = Figures {
        three: 1,
        two: 3,
        one: 1,
        count: Some(2),
        lone: None,
    };
    let alone = Figures {
        lone: Some(first),
        ..NONE
    };
    assert_eq!(rt; (grown, shrunk), (both, alone));
    assert_eq!(rt; (again, gone), (both, NONE));
    Ok(())
}

/// All triples of two keys. Each of the six slices is the set of all pairs, and each of its four the set of both keys.
/// Without those of an odd sum there are two sets of pairs, one a key has with it and one it has with the other.
#[test]
fn shares_the_slices_of_a_cube(rt: HostRuntime) -> Result<(), Memory> {
    let (zero, one) = (Id(0), Id(1));
    let all = [
        Trip(zero, zero, zero),
        Trip(zero, zero, one),
        Trip(zero, one, zero),
        Trip(zero, one, one),
        Trip(one, zero, zero),
        Trip(one, zero, one),
        Trip(one, one, zero),
        Trip(one, one, one),
    ];
    let odd = [
        Trip(zero, zero, one),
        Trip(zero, one, zero),
        Trip(one, zero, zero),
        Trip(one, one, one),
    ];
    let (grown, shrunk, again, gone) = counted::<SplitMix, Brand, Brand>(
        rt.alloc(),
        &all,
        &odd,
        Blank::new(1),
        Blank::new(1),
    )?;
    let cube = Figures {
        three: 1,
        two: 1,
        one: 1,
        count: Some(4),
        lone: None,
    };
    let even = Figures {
        three: 1,
        two: 2,
        ..NONE
    };
    assert_eq!(rt; (grown, shrunk), (cube, even));
    assert_eq!(rt; (again, gone), (cube, NONE));
    Ok(())
}
