//! Steps taken back. It takes no memory.
ghost use Rattle.std.specs.Prelude.{◌≡◌, ℕ, ◌≤◌};
ghost use Rattle.trie_context.specs.declared.tables.Tables.{Tables};
ghost use Rattle.trie_context.specs.Kept.{AreKept};
ghost use Rattle.trie_context.specs.Opened.{IsOpened};
ghost use Rattle.change_log.specs.Log.{WasMade, RowDid, StepDid};

use crate::settle::give_up;
use crate::step::{RowStep, Step};
use edge_map::Edge;
use trie_context::{Context, Held, Place};
use trie_depth::{Level, Mix};
use trie_node::Node;

/// Puts the node of an opened row back into its place: the row has its hold again.
fn put_back<M: Mix, L: Level>(context: &mut Context<M>, place: Place<L>, node: Node)
    requires opened { (t : Tables) × AreKept M.mixed t × IsOpened M.mixed t context.old L.DEPTH place node }
    ensures { (t : Tables) → AreKept M.mixed t → IsOpened M.mixed t context.old L.DEPTH place node → context.new ≡ t }
{
    let held = context.close(place, node);
    let _edge = held.into_edge();
}

/// Takes a row with one hold out of its table, and gives its number up.
fn unmake<M: Mix, L: Level>(context: &mut Context<M>, row: usize)
    requires made { (t : Tables) × AreKept M.mixed t × WasMade M.mixed L.DEPTH t row context.old }
    ensures { (t : Tables) → AreKept M.mixed t → WasMade M.mixed L.DEPTH t row context.old → context.new ≡ t }
{
    match context.open(Held::<L>::of_edge(Edge::Node(row))) {
        Ok((_, place)) => context.discard(place),
        Err(_) => unreachable!(),
    }
}

fn undo_row<M: Mix, L: Level>(context: &mut Context<M>, step: RowStep<L>)
    requires done { (t : Tables) × AreKept M.mixed t × RowDid M.mixed L.DEPTH t step context.old }
    ensures { (t : Tables) → AreKept M.mixed t → RowDid M.mixed L.DEPTH t step context.old → context.new ≡ t }
{
    match step {
        RowStep::Opened(place, node) => put_back::<M, L>(context, place, node),
        RowStep::Made(row) => unmake::<M, L>(context, row),
        RowStep::Found(row, _) => context.release(Held::<L>::of_edge(Edge::Node(row))),
        RowStep::Replaced(_, new) => give_up::<M, L>(context, new),
    }
}

pub fn undo_step<M: Mix>(context: &mut Context<M>, step: Step)
    requires done { (t : Tables) × AreKept M.mixed t × StepDid M.mixed t step context.old }
    ensures { (t : Tables) → AreKept M.mixed t → StepDid M.mixed t step context.old → context.new ≡ t }
{
    match step {
        Step::Keys(step) => undo_row(context, step),
        Step::Pairs(step) => undo_row(context, step),
        Step::Triples(step) => undo_row(context, step),
    }
}
