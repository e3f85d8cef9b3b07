//! The tuples of a row of the tables as texts.
ghost use Rattle.std.specs.Prelude.{◌≡◌, ℕ, ◌≤◌, [], Some, IsSome, IfOk, OnOk};
ghost use Rattle.std.specs.FinMap as map;
ghost use Rattle.hypertrie_model.specs.Unions.{union_over};
ghost use Rattle.edge_map.specs.declared.edge.Edge.{Edge};
ghost use Rattle.trie_depth.specs.Tuples.{pair_tuple};
ghost use Rattle.trie_node.specs.Sets.{edge_set};
ghost use Rattle.trie_context.specs.Rows.{row_of, set_of, LeadsToRow};
ghost use Rattle.tuple_image.specs.TupleImages.{IsOver};
ghost use Rattle.graph_view.specs.Read.{has_id};
ghost use Rattle.graph_lines.specs.Walks.{Adds, AddsTuples, behind, edge_keys, key_set, pairs_of, tuples_at};
ghost use Rattle.graph_lines.specs.declared.style.Style.TheVariants.{Member};

use crate::style::{Style, with_last, with_word};
use edge_map::{Edge, EdgeMap};
use graph_view::TablesView;
use std::alloc::Global;
use term_dict::Dict;
use tn_io::Text;
use trie_depth::{Memory, Pair};
use trie_node::Node;

/// Adds the text of each key, behind the one that is there.
fn add_keys(
    alloc: Global,
    style: Style,
    keys: &EdgeMap,
    before: &Text,
    dict: &Dict,
    texts: &mut Vec<Text>,
) -> Result<(), Memory>
    requires known { IsOver (has_id dict.now) (key_set keys.now) }
    ensures { OnOk result (AddsTuples style dict.now before.now (key_set keys.now) texts.old.items texts.new.items) }
{
    let mut walk = keys.walk();
    while let Some((key, _)) = walk.next() {
        texts.push(with_last(alloc, style, before, dict.term(key))?)?;
    }
    Ok(())
}

/// The keys of a row of depth one.
fn keys_of<'a>(all: TablesView<'a>, row: usize) -> &'a EdgeMap
    requires there { IsSome (row_of all.tables.now 1 row) }
    ensures { set_of all.entry.tables.now 1 row ≡ key_set result.now }
{
    match all.tables.one.node(row).map(0) {
        Some(keys) => keys,
        None => unreachable!(),
    }
}

/// Adds the text of each key that an edge stands for, behind the one that is there.
fn add_edge(
    alloc: Global,
    style: Style,
    all: TablesView<'_>,
    edge: Edge,
    before: &Text,
    texts: &mut Vec<Text>,
) -> Result<(), Memory>
    requires there { LeadsToRow all.tables.now 1 edge }
    requires known { IsOver (has_id all.dict.now) (edge_set (set_of all.tables.now 1) edge) }
    ensures { OnOk result (Adds style all.entry before.now (edge_keys all.entry edge) texts.old.items texts.new.items) }
{
    match edge {
        Edge::Key(key) => {
            texts.push(with_last(alloc, style, before, all.dict.term(key))?)?;
            Ok(())
        }
        Edge::Node(row) => add_keys(alloc, style, keys_of(all, row), before, all.dict, texts),
    }
}

/// Adds the text of each pair: a key, and one that its edge stands for.
fn add_pairs(
    alloc: Global,
    style: Style,
    all: TablesView<'_>,
    pairs: &EdgeMap,
    before: &Text,
    texts: &mut Vec<Text>,
) -> Result<(), Memory>
    requires there { (k : ℕ) (e : Edge) → map.get pairs.now k ≡ Some e → LeadsToRow all.tables.now 1 e }
    requires known { IsOver (has_id all.dict.now) (union_over pairs.now (edge_set (set_of all.tables.now 1))) }
    ensures { OnOk result (Adds style all.entry before.now (pairs_of all.entry pairs.now) texts.old.items texts.new.items) }
{
    let mut walk = pairs.walk();
    while let Some((key, edge)) = walk.next() {
        let word = with_word(alloc, style, before, all.dict.term(key))?;
        add_edge(alloc, style, all, edge, &word, texts)?;
    }
    Ok(())
}

/// The text of a pair behind the one that is there.
fn pair_text(
    alloc: Global,
    style: Style,
    before: &Text,
    pair: Pair,
    dict: &Dict,
) -> Result<Text, Memory>
    requires first { IsSome (map.get dict.now pair.0.0) }
    requires second { IsSome (map.get dict.now pair.1.0) }
    ensures { IfOk result (λ text. text ≡ behind style dict.now before.now (pair_tuple pair)) }
{
    let word = with_word(alloc, style, before, dict.term(pair.0))?;
    with_last(alloc, style, &word, dict.term(pair.1))
}

/// Adds the text of each pair of a row of depth two, behind the one that is there.
pub(crate) fn add_row_pairs(
    alloc: Global,
    style: Style,
    all: TablesView<'_>,
    row: usize,
    before: &Text,
    texts: &mut Vec<Text>,
) -> Result<(), Memory>
    requires there { IsSome (row_of all.tables.now 2 row) }
    requires known { IsOver (has_id all.dict.now) (set_of all.tables.now 2 row) }
    ensures { OnOk result (Adds style all.entry before.now (tuples_at all.entry 2 row) texts.old.items texts.new.items) }
{
    match all.tables.two.node(row) {
        Node::Single(pair) => {
            texts.push(pair_text(alloc, style, before, *pair, all.dict)?)?;
            Ok(())
        }
        Node::Full { first, .. } => add_pairs(alloc, style, all, first, before, texts),
    }
}

/// Adds the text of each member of a row of depth one or two.
pub(crate) fn add_members(
    alloc: Global,
    all: TablesView<'_>,
    depth: usize,
    row: usize,
    members: &mut Vec<Text>,
) -> Result<(), Memory>
    requires low { 1 ≤ depth }
    requires high { depth ≤ 2 }
    requires there { IsSome (row_of all.tables.now depth row) }
    requires known { IsOver (has_id all.dict.now) (set_of all.tables.now depth row) }
    ensures { OnOk result (Adds Member all.entry [] (tuples_at all.entry depth row) members.old.items members.new.items) }
{
    let before = Text::new(alloc);
    if depth == 1 {
        return add_keys(
            alloc,
            Style::Member,
            keys_of(all, row),
            &before,
            all.dict,
            members,
        );
    }
    add_row_pairs(alloc, Style::Member, all, row, &before, members)
}
