//! A row of pairs taken out, its keys exchanged for others and pairs of these put in. Each step is logged, and then the log
//! is undone or settled.
ghost use Rattle.std.specs.Prelude.{◌≡◌, ◌+◌, ◌<◌, ◌≤◌, ◌∷◌, [], IfOk};
ghost use Rattle.trie_node.specs.Sets.{edges_of};
ghost use Rattle.trie_context.specs.Rows.{no_tables};
ghost use Rattle.trie_context.specs.Holds.{holds_of};
ghost use Rattle.trie_context.specs.Interned.{kept_row};
ghost use Rattle.change_log.specs.Log.{keeps};
ghost use Rattle.worked_tries.specs.Logs.{zero_mix, CanChange, IsChanged, kept_step};

use crate::holds::{pairs, two_keys};
use change_log::{Log, RowStep, Step};
use edge_map::Edge;
use std::alloc::Global;
use std::marker::Brand;
use std::sync::ledger::{Blank, Ledger};
use trie_context::{Context, Held, Kept};
use trie_depth::{ConstMix, Id, L1, L2, Memory, Mix, Steps};
use trie_node::Node;

/// How many rows of depths one and two there are.
fn rows_of<M: Mix>(context: &Context<M>) -> (u64, u64) {
    let tables = context.tables();
    (tables.one.len(), tables.two.len())
}

/// A log with room for a step.
fn ready_log<M: Mix>(context: &mut Context<M>, alloc: Global) -> Result<Log, Memory>
    ensures same { context.new ≡ context.old }
    ensures empty { IfOk result (λ l. l.steps ≡ []) }
    ensures room { IfOk result (λ l. 0 < l.spare) }
{
    let mut log = Log::new(alloc);
    match log.reserve() {
        Ok(()) => Ok(log),
        Err(memory) => {
            log.undo(context);
            Err(memory)
        }
    }
}

fn log_kept(log: &mut Log, kept: Kept<L2>) -> usize
    requires { 0 < log.old.spare }
    ensures step { log.new.steps ≡ kept_step kept ∷ log.old.steps }
    ensures row { result ≡ kept_row kept }
{
    match kept {
        Kept::Made(held) => {
            log.push(Step::Pairs(RowStep::Made(held.row())));
            row_of(held)
        }
        Kept::Found(held, node) => {
            log.push(Step::Pairs(RowStep::Found(held.row(), node)));
            row_of(held)
        }
    }
}

/// The row of a hold that goes on.
fn row_of(held: Held<L2>) -> usize
    ensures { result ≡ held }
{
    let row = held.row();
    let _edge = held.into_edge();
    row
}

/// The change. Its result is the row that is held then.
fn change<M: Mix, W: Ledger>(
    context: &mut Context<M>,
    log: &mut Log,
    keys: usize,
    others: usize,
    row: usize,
    other_pairs: Node,
    steps: &mut Steps<W>,
) -> Result<usize, Memory>
    requires empty { log.old.steps ≡ [] }
    requires room { 0 < log.old.spare }
    requires can { CanChange M.mixed context.old keys others row other_pairs }
    ensures changed { IsChanged M.mixed context.old context.new log.new.steps }
    ensures held { IfOk result (λ m. keeps log.new.steps 2 m + 1 ≤ holds_of context.new 2 m) }
{
    context.is_kept();
    match context.open(Held::<L2>::of_edge(Edge::Node(row))) {
        Ok((node, place)) => log.push(Step::Pairs(RowStep::Opened(place, node))),
        Err(_) => unreachable!(),
    }
    log.reserve()?;
    context.retain_edge::<L2, W>(Edge::Node(others), steps);
    log.push(Step::Keys(RowStep::Replaced(Some(Edge::Node(keys)), Some(Edge::Node(others)))));
    log.reserve()?;
    match context.intern_or_keep::<L2, W>(other_pairs, steps) {
        Ok(kept) => Ok(log_kept(log, kept)),
        Err((_, memory)) => Err(memory),
    }
}

/// Two sets of keys and pairs of the first, all held, and pairs of the second.
fn begin<W: Ledger>(
    context: &mut Context<ConstMix>,
    alloc: Global,
    steps: &mut Steps<W>,
) -> Result<(usize, usize, usize, Node), Memory>
    requires { context.old ≡ no_tables }
    ensures { IfOk result (λ b. CanChange zero_mix context.new b.0 b.1 b.2 b.3) }
{
    let keys = context.intern::<L1, W>(two_keys(alloc, Id(2), Id(3))?, steps)?;
    let keys = row_of_keys(keys);
    let others = context.intern::<L1, W>(two_keys(alloc, Id(4), Id(5))?, steps)?;
    let others = row_of_keys(others);
    let first = pairs(alloc, Id(1), Edge::Node(keys), Id(2), Id(3))?;
    let held = context.intern::<L2, W>(first, steps)?;
    let row = row_of(held);
    let second = pairs(alloc, Id(1), Edge::Node(others), Id(4), Id(5))?;
    Ok((keys, others, row, second))
}

fn row_of_keys(held: Held<L1>) -> usize
    ensures { result ≡ held }
{
    let row = held.row();
    let _edge = held.into_edge();
    row
}

/// The rows before a change, in it and once it is undone, whether pairs were put in another row, and the rows when the
/// first pairs and the other keys are given up.
fn undone<W: Ledger>(
    alloc: Global,
    steps: &mut Steps<W>,
) -> Result<([(u64, u64); 4], bool), Memory> {
    let mut context = Context::<ConstMix>::new(alloc);
    let (keys, others, row, second) = begin(&mut context, alloc, steps)?;
    let before = rows_of(&context);
    let mut log = ready_log(&mut context, alloc)?;
    let changed = change(&mut context, &mut log, keys, others, row, second, steps);
    let within = rows_of(&context);
    log.undo(&mut context);
    let after = rows_of(&context);
    context.release(Held::<L2>::of_edge(Edge::Node(row)));
    context.release(Held::<L1>::of_edge(Edge::Node(others)));
    Ok(([before, within, after, rows_of(&context)], changed? != row))
}

/// The rows once a change is settled, and when the pairs that were put in are given up.
fn settled<W: Ledger>(
    alloc: Global,
    steps: &mut Steps<W>,
) -> Result<((u64, u64), (u64, u64)), Memory> {
    let mut context = Context::<ConstMix>::new(alloc);
    let (keys, others, row, second) = begin(&mut context, alloc, steps)?;
    let mut log = ready_log(&mut context, alloc)?;
    match change(&mut context, &mut log, keys, others, row, second, steps) {
        Ok(held) => {
            log.settle(&mut context);
            let after = rows_of(&context);
            context.release(Held::<L2>::of_edge(Edge::Node(held)));
            Ok((after, rows_of(&context)))
        }
        Err(memory) => {
            log.undo(&mut context);
            Err(memory)
        }
    }
}

fn counted_undone<W: Ledger>(alloc: Global, blank: Blank) -> Result<([(u64, u64); 4], bool), Memory>
    requires name { blank.name ≡ W.name }
    requires parts { blank.parts ≡ W.parts }
    requires whole { 0 < W.parts }
{
    let mut steps = Steps::<W>::new(blank);
    undone(alloc, &mut steps)
}

fn counted_settled<W: Ledger>(
    alloc: Global,
    blank: Blank,
) -> Result<((u64, u64), (u64, u64)), Memory>
    requires name { blank.name ≡ W.name }
    requires parts { blank.parts ≡ W.parts }
    requires whole { 0 < W.parts }
{
    let mut steps = Steps::<W>::new(blank);
    settled(alloc, &mut steps)
}

#[test]
fn undoes_a_change(rt: HostRuntime) -> Result<(), Memory> {
    let (rows, moved) = counted_undone::<Brand>(rt.alloc(), Blank::new(1))?;
    assert_eq!(rt; (rows, moved), ([(2, 1), (2, 1), (2, 1), (0, 0)], true));
    Ok(())
}

/// The keys that were exchanged are given up with the log; the others are still held.
#[test]
fn settles_a_change(rt: HostRuntime) -> Result<(), Memory> {
    let (settled, given_up) = counted_settled::<Brand>(rt.alloc(), Blank::new(1))?;
    assert_eq!(rt; (settled, given_up), ((1, 1), (1, 0)));
    Ok(())
}
