//! Steps settled: what they keep is given up.
ghost use Rattle.std.specs.Prelude.{◌≡◌, ℕ, ◌≤◌};
ghost use Rattle.trie_context.specs.Holds.{holds_of, nothing, CountsRiseBy, RowsStay};
ghost use Rattle.trie_context.specs.Kept.{AreMoved};
ghost use Rattle.trie_context.specs.Opened.{HoldsAreMoved};
ghost use Rattle.change_log.specs.Log.{edge_hold, row_keeps, step_keeps, reserved_in, RowHasPlace, StepHasPlace, row_frees, step_frees};

use crate::step::{RowStep, Step};
use edge_map::Edge;
use trie_context::{Context, Held};
use trie_depth::{Level, Mix};

/// Gives up the hold of an edge that leads to a row of the level; a key holds nothing.
pub fn give_up<M: Mix, L: Level>(context: &mut Context<M>, edge: Option<Edge>)
    requires held { (d r : ℕ) → edge_hold L.DEPTH edge d r ≤ holds_of context.old d r }
    ensures moved { AreMoved M.mixed context.old context.new nothing (edge_hold L.DEPTH edge) }
    ensures counts { CountsRiseBy context.old context.new nothing }
    ensures came { RowsStay context.new context.old }
{
    context.is_kept();
    match edge {
        Some(Edge::Node(row)) => context.release(Held::<L>::of_edge(Edge::Node(row))),
        Some(Edge::Key(_)) | None => {}
    }
}

fn settle_row<M: Mix, L: Level>(context: &mut Context<M>, step: RowStep<L>)
    requires held { (d r : ℕ) → row_keeps L.DEPTH step d r ≤ holds_of context.old d r }
    requires place { RowHasPlace L.DEPTH step (reserved_in context.old) }
    ensures fallen { HoldsAreMoved M.mixed context.old context.new nothing (row_keeps L.DEPTH step) }
    ensures counts { CountsRiseBy context.old context.new nothing }
    ensures came { RowsStay context.new context.old }
    ensures freed { (d : ℕ) → reserved_in context.new d ≡ row_frees L.DEPTH step (reserved_in context.old) d }
{
    context.is_kept();
    match step {
        RowStep::Opened(place, _) => context.discard(place),
        RowStep::Made(_) => {}
        RowStep::Found(_, node) => context.release_node::<L>(node),
        RowStep::Replaced(old, _) => give_up::<M, L>(context, old),
    }
}

pub fn settle_step<M: Mix>(context: &mut Context<M>, step: Step)
    requires held { (d r : ℕ) → step_keeps step d r ≤ holds_of context.old d r }
    requires place { StepHasPlace step (reserved_in context.old) }
    ensures fallen { HoldsAreMoved M.mixed context.old context.new nothing (step_keeps step) }
    ensures counts { CountsRiseBy context.old context.new nothing }
    ensures came { RowsStay context.new context.old }
    ensures freed { (d : ℕ) → reserved_in context.new d ≡ step_frees step (reserved_in context.old) d }
{
    match step {
        Step::Keys(step) => settle_row(context, step),
        Step::Pairs(step) => settle_row(context, step),
        Step::Triples(step) => settle_row(context, step),
    }
}
