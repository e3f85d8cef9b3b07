//! Lines of small graphs, made by a batch.
ghost use Rattle.std.specs.Prelude.{◌≡◌, ◌<◌, ◌≤◌, IsTrue, IsSome, true, length};
ghost use Rattle.std.specs.FinMap as map;
ghost use Rattle.std.specs.List.{list_all};
ghost use Rattle.trie_depth.specs.Tuples.{trip_tuple};
ghost use Rattle.trie_context.specs.declared.root.Root.{Root};
ghost use Rattle.trie_context.specs.Rows.{no_tables};
ghost use Rattle.trie_context.specs.Roots.{IsHeld};
ghost use Rattle.trie_change.specs.Batches.{set_of_entries, IsOnce};
ghost use Rattle.graph_image.specs.Images.{AreKnown};
ghost use Rattle.worked_lines.specs.Tried.{is_below_four, HasFour};

use graph_lines::{dump, shape_lines};
use graph_view::{GraphView, TablesView};
use rdf_term::TermRef;
use std::alloc::Global;
use std::marker::Brand;
use std::sync::ledger::{Blank, Ledger};
use term_dict::Dict;
use tn_io::{Lines, Text};
use trie_context::{Context, Root};
use trie_depth::{ConstMix, Id, Memory, Steps, Trip};
use trie_update::grow;

/// The lines of the dump and of the shape of a graph of these triples, which is put into an empty one.
fn filled<W: Ledger, V: Ledger>(
    alloc: Global,
    context: &mut Context<ConstMix>,
    root: &mut Root,
    dict: &Dict,
    triples: &[Trip],
    interns: &mut Steps<W>,
    retains: &mut Steps<V>,
) -> Result<(Lines, Lines), Memory>
    requires tables { context.old ≡ no_tables }
    requires root { root.old ≡ Root.Empty }
    requires once { IsOnce trip_tuple triples.now }
    requires few { length triples.now ≤ 100 }
    requires known { AreKnown dict.now (set_of_entries trip_tuple triples.now) }
    ensures { IsHeld context.new root.new }
{
    grow(alloc, context, root, triples, interns, retains)?;
    let dumped = dump(alloc, GraphView::of(context, root, dict))?;
    let shape = shape_lines(alloc, TablesView::of(context, dict))?;
    Ok((dumped, shape))
}

fn counted<W: Ledger, V: Ledger>(
    alloc: Global,
    dict: &Dict,
    triples: &[Trip],
    blank: Blank,
    other: Blank,
) -> Result<(Lines, Lines), Memory>
    requires once { IsOnce trip_tuple triples.now }
    requires few { length triples.now ≤ 100 }
    requires known { AreKnown dict.now (set_of_entries trip_tuple triples.now) }
    requires name { blank.name ≡ W.name }
    requires parts { blank.parts ≡ W.parts }
    requires whole { 0 < W.parts }
    requires other_name { other.name ≡ V.name }
    requires other_parts { other.parts ≡ V.parts }
    requires other_whole { 0 < V.parts }
{
    let mut interns = Steps::<W>::new(blank);
    let mut retains = Steps::<V>::new(other);
    let mut context = Context::<ConstMix>::new(alloc);
    let mut root = Root::Empty;
    let lines = filled(
        alloc,
        &mut context,
        &mut root,
        dict,
        triples,
        &mut interns,
        &mut retains,
    );
    match root {
        Root::Many(held) => context.release(held),
        Root::Empty | Root::One(_) => {}
    }
    lines
}

/// Whether the Id is that of the IRI.
fn is_id(dict: &Dict, id: Id, iri: &str) -> bool
    ensures { IsTrue result → IsSome (map.get dict.now id.0) }
{
    match dict.find(TermRef::Iri(iri)) {
        Some(found) => found.0 == id.0,
        None => false,
    }
}

/// Whether the first four Ids are those of the IRIs.
fn are_ids(dict: &Dict, iris: &[&str; 4]) -> bool
    ensures { IsTrue result → HasFour dict.now }
{
    is_id(dict, Id(0), iris[0])
        && is_id(dict, Id(1), iris[1])
        && is_id(dict, Id(2), iris[2])
        && is_id(dict, Id(3), iris[3])
}

/// A dictionary of IRIs, in this order.
fn named(alloc: Global, iris: &[&str]) -> Result<Dict, Memory> {
    let mut dict = Dict::new(alloc);
    for iri in iris {
        if dict.len() < 2_147_483_648 {
            dict.intern(TermRef::Iri(iri))?;
        }
    }
    Ok(dict)
}

/// The lines of the dump and of the shape of a graph whose Ids are those of four IRIs in this order.
fn lines_of(alloc: Global, iris: &[&str; 4], triples: &[Trip]) -> Result<(Text, Text), Memory>
    requires once { IsOnce trip_tuple triples.now }
    requires few { length triples.now ≤ 100 }
    requires below { list_all is_below_four triples.now ≡ true }
{
    let dict = named(alloc, iris)?;
    if !are_ids(&dict, iris) {
        return Err(Memory);
    }
    let (dumped, shape) = counted::<Brand, Brand>(
        alloc,
        &dict,
        triples,
        Blank::new(1),
        Blank::new(1),
    )?;
    Ok((joined(alloc, &dumped)?, joined(alloc, &shape)?))
}

/// Each line with its end.
fn joined(alloc: Global, lines: &Lines) -> Result<Text, Memory> {
    let mut text = Text::new(alloc);
    for i in 0..lines.len() {
        text.push(lines.at(i).as_str())?;
        text.push("\n")?;
    }
    Ok(text)
}

/// The pairs that the subject and the predicate lead to share their keys, and the pair of the objects is one.
#[test]
fn shares_equal_slices(rt: HostRuntime) -> Result<(), Memory> {
    let triples = [Trip(Id(0), Id(1), Id(2)), Trip(Id(0), Id(1), Id(3))];
    let (dumped, shape) = lines_of(rt.alloc(), &["x:a", "x:p", "x:b", "x:c"], &triples)?;
    assert_eq!(rt;
        shape.as_str(),
        "one\t2\t<x:b>\t<x:c>\n\
         two\t1\t<x:a> <x:b>\t<x:a> <x:c>\n\
         two\t1\t<x:p> <x:b>\t<x:p> <x:c>\n\
         two\t2\t<x:a> <x:p>\n"
    );
    assert_eq!(rt;
        dumped.as_str(),
        "<x:a> <x:p> <x:b> .\n<x:a> <x:p> <x:c> .\n"
    );
    Ok(())
}

/// A pair behind a subject is one before an object.
#[test]
fn shares_a_slice_of_two_positions(rt: HostRuntime) -> Result<(), Memory> {
    let triples = [Trip(Id(0), Id(1), Id(2)), Trip(Id(1), Id(2), Id(3))];
    let (_dumped, shape) = lines_of(rt.alloc(), &["x:a", "x:b", "x:c", "x:x"], &triples)?;
    assert_eq!(rt;
        shape.as_str(),
        "two\t1\t<x:a> <x:b>\n\
         two\t1\t<x:a> <x:c>\n\
         two\t1\t<x:b> <x:x>\n\
         two\t1\t<x:c> <x:x>\n\
         two\t2\t<x:b> <x:c>\n"
    );
    Ok(())
}

/// Lines stand in the order of their bytes, whatever the order of the Ids; a graph of one triple has no shape.
#[test]
fn sorts_the_lines_of_a_dump(rt: HostRuntime) -> Result<(), Memory> {
    let iris = ["x:z", "x:p", "x:b", "x:a"];
    let triples = [
        Trip(Id(0), Id(1), Id(2)),
        Trip(Id(0), Id(1), Id(3)),
        Trip(Id(2), Id(1), Id(0)),
    ];
    let (dumped, _shape) = lines_of(rt.alloc(), &iris, &triples)?;
    assert_eq!(rt;
        dumped.as_str(),
        "<x:b> <x:p> <x:z> .\n<x:z> <x:p> <x:a> .\n<x:z> <x:p> <x:b> .\n"
    );
    let (dumped, shape) = lines_of(rt.alloc(), &iris, &[Trip(Id(3), Id(1), Id(2))])?;
    assert_eq!(rt;
        (dumped.as_str(), shape.as_str()),
        ("<x:a> <x:p> <x:b> .\n", "")
    );
    Ok(())
}
