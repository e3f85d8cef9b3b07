//! Changes of a map whose edges are in hand.
ghost use Rattle.std.specs.Prelude.{◌≡◌, ◌+◌, ◌-◌, ◌≤◌, ◌^◌, ℕ};
ghost use Rattle.trie_context.specs.Holds.{holds_of, nothing, CountsRiseBy, RowsStay};
ghost use Rattle.trie_context.specs.Kept.{AreMoved};
ghost use Rattle.trie_change.specs.After.{changes_hold};
ghost use Rattle.trie_change.specs.Rooms.{changes_lead};

use edge_map::Edge;
use trie_context::Context;
use trie_depth::{Id, Level, Mix};

/// Changes of a map: under each key the new edge, or none.
pub type Changes = Vec<(Id, Option<Edge>)>;

/// Gives up the edges of the changes of a map of a node of this level.
pub fn release_changes<M: Mix, L: Level>(context: &mut Context<M>, changes: &[(Id, Option<Edge>)])
    requires held { (r : ℕ) → changes_lead changes.now r ≤ holds_of context.old (L.DEPTH - 1) r }
    ensures moved { AreMoved M.mixed context.old context.new nothing (changes_hold (L.DEPTH - 1) changes.now) }
    ensures counts { CountsRiseBy context.old context.new nothing }
    ensures came { RowsStay context.new context.old }
{
    context.is_kept();
    for (_, edge) in changes {
        if let Some(edge) = edge {
            context.release_edge::<L>(*edge);
        }
    }
}
