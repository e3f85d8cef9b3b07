//! What one triple that is put into a graph retains.
ghost use Rattle.std.specs.Prelude.{◌≡◌, ◌+◌, ◌<◌, ◌≤◌, ◌^◌, ℕ, false, IfOk, OnOk};
ghost use Rattle.std.specs.FinSet as set;
ghost use Rattle.hypertrie_model.specs.Sets.{has};
ghost use Rattle.trie_depth.specs.Tuples.{trip_tuple};
ghost use Rattle.trie_context.specs.declared.root.Root.{Root};
ghost use Rattle.trie_context.specs.Rows.{no_tables};
ghost use Rattle.trie_context.specs.Roots.{root_set, IsHeld};
ghost use Rattle.trie_change.specs.Rooms.{CountsUpTo};
ghost use Rattle.worked_tries.specs.Alone.{IsAlone, IsApart};
ghost use Rattle.worked_tries.specs.OneMore.{IsReady, HasGrown};
ghost use Rattle.worked_tries.specs.Star.{IsStar, IsStarAndOne, rays};

use std::alloc::Global;
use std::marker::Brand;
use std::sync::ledger::{Blank, Ledger};
use trie_context::{Context, Root};
use trie_depth::{Id, Memory, Mix, SplitMix, Steps, Trip};
use trie_update::grow;

/// Puts in a new triple, where no other edge leads to the slices at its terms, however large they are.
fn grow_alone<M: Mix, W: Ledger, V: Ledger>(
    alloc: Global,
    context: &mut Context<M>,
    root: &mut Root,
    triple: Trip,
    interns: &mut Steps<W>,
    retains: &mut Steps<V>,
) -> Result<(), Memory>
    requires ready { IsReady context.old root.old }
    requires new { has (root_set context.old root.old) (trip_tuple triple) ≡ false }
    requires alone { IsAlone (root_set context.old root.old) (trip_tuple triple) }
    ensures retained { retains.new ≤ retains.old + 64 }
    ensures held { IsHeld context.new root.new }
    ensures grown { OnOk result (HasGrown context.old context.new root.old root.new (trip_tuple triple)) }
{
    grow(alloc, context, root, &[triple], interns, retains)
}

/// Puts in a triple whose terms stand in no other triple at their positions.
fn grow_apart<M: Mix, W: Ledger, V: Ledger>(
    alloc: Global,
    context: &mut Context<M>,
    root: &mut Root,
    triple: Trip,
    interns: &mut Steps<W>,
    retains: &mut Steps<V>,
) -> Result<(), Memory>
    requires ready { IsReady context.old root.old }
    requires new { has (root_set context.old root.old) (trip_tuple triple) ≡ false }
    requires apart { IsApart (root_set context.old root.old) (trip_tuple triple) }
    ensures retained { retains.new ≤ retains.old + 64 }
    ensures held { IsHeld context.new root.new }
    ensures grown { OnOk result (HasGrown context.old context.new root.old root.new (trip_tuple triple)) }
{
    grow_alone(alloc, context, root, triple, interns, retains)
}

/// Puts in a triple of the star's subject and predicate and the object of the one triple apart from the star, however
/// many triples the star has.
fn grow_across<M: Mix, W: Ledger, V: Ledger>(
    alloc: Global,
    context: &mut Context<M>,
    root: &mut Root,
    across: Trip,
    interns: &mut Steps<W>,
    retains: &mut Steps<V>,
) -> Result<(), Memory>
    requires ready { IsReady context.old root.old }
    requires star { (t q : ℕ) × IsStarAndOne across.0.0 across.1.0 t q across.2.0 (root_set context.old root.old) }
    ensures retained { retains.new ≤ retains.old + 64 }
    ensures held { IsHeld context.new root.new }
{
    grow_alone(alloc, context, root, across, interns, retains)
}

/// Puts a triple in apart from a star, and then one of the star's subject and predicate and the object of the other.
fn grow_twice<M: Mix, W: Ledger, V: Ledger>(
    alloc: Global,
    context: &mut Context<M>,
    root: &mut Root,
    far: Trip,
    subject: Id,
    predicate: Id,
    interns: &mut Steps<W>,
    retains: &mut Steps<V>,
) -> Result<(), Memory>
    requires ready { IsReady context.old root.old }
    requires counts { CountsUpTo context.old (2 ^ 95) }
    requires size { set.len (root_set context.old root.old) < 536870911 }
    requires star { IsStar subject.0 predicate.0 far.0.0 far.1.0 far.2.0 (root_set context.old root.old) }
    ensures retained { retains.new ≤ retains.old + 128 }
    ensures held { IsHeld context.new root.new }
{
    grow_apart(alloc, context, root, far, interns, retains)?;
    let across = Trip(subject, predicate, far.2);
    grow_across(alloc, context, root, across, interns, retains)
}

/// The triples (0, 1, 5), (0, 1, 6) and so on.
fn star_triples(alloc: Global, objects: u32) -> Result<Vec<Trip>, Memory>
    requires { objects ≤ 1000 }
    ensures { IfOk result (λ v. v.items ≡ rays 5 objects) }
{
    let mut triples = Vec::new(alloc);
    for n in 0..objects {
        triples.push(Trip(Id(0), Id(1), Id(5 + n)))?;
    }
    Ok(triples)
}

/// Puts in a star, then a triple apart from it and one of its subject and predicate and the object of the other.
fn grow_star<M: Mix, W: Ledger, V: Ledger>(
    alloc: Global,
    context: &mut Context<M>,
    root: &mut Root,
    objects: u32,
    interns: &mut Steps<W>,
    retains: &mut Steps<V>,
) -> Result<(), Memory>
    requires tables { context.old ≡ no_tables }
    requires root { root.old ≡ Root.Empty }
    requires some { 0 < objects }
    requires few { objects ≤ 1000 }
    ensures { IsHeld context.new root.new }
{
    let star = star_triples(alloc, objects)?;
    grow(alloc, context, root, &star, interns, retains)?;
    let far = Trip(Id(2), Id(3), Id(4));
    grow_twice(alloc, context, root, far, Id(0), Id(1), interns, retains)
}

fn counted<W: Ledger, V: Ledger>(
    alloc: Global,
    objects: u32,
    blank: Blank,
    other: Blank,
) -> Result<(), Memory>
    requires some { 0 < objects }
    requires few { objects ≤ 1000 }
    requires name { blank.name ≡ W.name }
    requires parts { blank.parts ≡ W.parts }
    requires whole { 0 < W.parts }
    requires other_name { other.name ≡ V.name }
    requires other_parts { other.parts ≡ V.parts }
    requires other_whole { 0 < V.parts }
{
    let mut interns = Steps::<W>::new(blank);
    let mut retains = Steps::<V>::new(other);
    let mut context = Context::<SplitMix>::new(alloc);
    let mut root = Root::Empty;
    let grown = grow_star(
        alloc,
        &mut context,
        &mut root,
        objects,
        &mut interns,
        &mut retains,
    );
    match root {
        Root::Many(held) => context.release(held),
        Root::Empty | Root::One(_) => {}
    }
    grown
}

#[test]
fn grows_beside_a_star_of_a_thousand(rt: HostRuntime) -> Result<(), Memory> {
    counted::<Brand, Brand>(rt.alloc(), 1000, Blank::new(1), Blank::new(1))
}
