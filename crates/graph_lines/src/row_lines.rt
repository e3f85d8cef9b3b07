//! The rows of the tables as lines: how many slices each is, and its members.
ghost use Rattle.std.specs.Prelude.{◌≡◌, ℕ, ◌<◌, ◌≤◌, ◌^◌, ◌++◌, None, IsSome, IsNone, IfSome, IfOk, OnOk};
ghost use Rattle.graph_shape.specs.GraphShapes.{depth_name, tabbed, row_line};
ghost use Rattle.trie_context.specs.Rows.{row_of, set_of};
ghost use Rattle.trie_context.specs.Holds.{count_of};
ghost use Rattle.tuple_image.specs.TupleImages.{IsOver};
ghost use Rattle.graph_view.specs.Read.{has_id};
ghost use Rattle.graph_lines.specs.Walks.{AddsRows, AreRowsKnown, line_with, row_read};

use crate::members::add_members;
use graph_view::TablesView;
use itoa::Buffer;
use std::alloc::Global;
use tn_io::Text;
use trie_context::Tables;
use trie_depth::Memory;

/// The least row of depth one or two that is not below `from`. No row has a number from 2 to the 64 on.
fn next_row(tables: &Tables, depth: usize, from: usize) -> Option<usize>
    requires low { 1 ≤ depth }
    requires high { depth ≤ 2 }
    ensures numbers { (r : ℕ) → 2 ^ 64 ≤ r → row_of tables.now depth r ≡ None }
    ensures none { IsNone result → (r : ℕ) → from ≤ r → row_of tables.now depth r ≡ None }
    ensures there { IfSome result (λ r. IsSome (row_of tables.now depth r)) }
    ensures from { IfSome result (λ r. from ≤ r) }
    ensures least { IfSome result (λ r. (q : ℕ) → from ≤ q → q < r → row_of tables.now depth q ≡ None) }
{
    match depth {
        1 => tables.one.next_row(from),
        _ => tables.two.next_row(from),
    }
}

/// How many slices a row of depth one or two is.
fn count(tables: &Tables, depth: usize, row: usize) -> u128
    requires low { 1 ≤ depth }
    requires high { depth ≤ 2 }
    requires there { IsSome (row_of tables.now depth row) }
    ensures { result ≡ count_of (row_of tables.now depth row) }
{
    match depth {
        1 => tables.one.count(row),
        _ => tables.two.count(row),
    }
}

/// Adds each text behind a tab.
fn push_tabbed(line: &mut Text, texts: &[Text]) -> Result<(), Memory>
    ensures { OnOk result (line.new ≡ line.old ++ tabbed texts.now) }
{
    for text in texts {
        line.push("\t")?;
        line.push(text.as_str())?;
    }
    Ok(())
}

fn name_of(depth: usize) -> &'static str
    ensures { result.now ≡ depth_name depth }
{
    if depth == 1 { "one" } else { "two" }
}

/// The line of a row of this depth and count, whose members have these texts.
fn line_of(alloc: Global, depth: usize, count: u128, members: Vec<Text>) -> Result<Text, Memory>
    ensures { IfOk result (λ line. line ≡ line_with depth count members.items) }
{
    let mut members = members;
    members.sort_unstable();
    let mut line = Text::of(alloc, name_of(depth))?;
    line.push("\t")?;
    line.push(Buffer::new().format(count))?;
    push_tabbed(&mut line, &members)?;
    Ok(line)
}

/// The line of a row of depth one or two.
fn line_at(alloc: Global, all: TablesView<'_>, depth: usize, row: usize) -> Result<Text, Memory>
    requires low { 1 ≤ depth }
    requires high { depth ≤ 2 }
    requires there { IsSome (row_of all.tables.now depth row) }
    requires known { IsOver (has_id all.dict.now) (set_of all.tables.now depth row) }
    ensures { IfOk result (λ line. line ≡ row_line (row_read all.entry.dict.now all.entry.tables.now depth row)) }
{
    let mut members = Vec::new(alloc);
    add_members(alloc, all, depth, row, &mut members)?;
    line_of(alloc, depth, count(all.tables, depth, row), members)
}

/// Adds the line of each row of depth one or two.
pub(crate) fn add_row_lines(
    alloc: Global,
    all: TablesView<'_>,
    depth: usize,
    lines: &mut Vec<Text>,
) -> Result<(), Memory>
    requires low { 1 ≤ depth }
    requires high { depth ≤ 2 }
    requires known { AreRowsKnown all.dict.now all.tables.now depth }
    ensures { OnOk result (AddsRows all.entry.dict.now all.entry.tables.now depth lines.old.items lines.new.items) }
{
    let mut from = 0;
    loop {
        let Some(row) = next_row(all.tables, depth, from) else {
            return Ok(());
        };
        lines.push(line_at(alloc, all, depth, row)?)?;
        if row == usize::MAX {
            return Ok(());
        }
        from = row + 1;
    }
}
