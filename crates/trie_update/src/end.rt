//! A change that was kept open: settled, or undone.
ghost use Rattle.std.specs.Prelude.{◌≡◌, ◌≤◌, ℕ};
ghost use Rattle.trie_context.specs.declared.tables.Tables.{Tables};
ghost use Rattle.trie_context.specs.Holds.{holds_of, nothing, CountsRiseBy, RowsStay};
ghost use Rattle.trie_context.specs.Opened.{HoldsAreMoved};
ghost use Rattle.change_log.specs.Log.{Leads, keeps, reserved_in, HasPlaces, frees};

use crate::kept::Undo;
use std::mem;
use trie_context::{Context, Root};
use trie_depth::Mix;

/// Gives the hold of a root up as a number alone, where another keeps it.
fn forget(root: Root) {
    match root {
        Root::Many(held) => {
            let _edge = held.into_edge();
        }
        Root::Empty | Root::One(_) => {}
    }
}

/// Gives up what a change replaced.
pub fn settle<M: Mix>(context: &mut Context<M>, undo: Undo)
    requires held { (d r : ℕ) → keeps undo.log.steps d r ≤ holds_of context.old d r }
    requires places { HasPlaces undo.log.steps (reserved_in context.old) }
    ensures fallen { HoldsAreMoved M.mixed context.old context.new nothing (keeps undo.log.steps) }
    ensures counts { CountsRiseBy context.old context.new nothing }
    ensures came { RowsStay context.new context.old }
    ensures freed { (d : ℕ) → reserved_in context.new d ≡ frees undo.log.steps (reserved_in context.old) d }
{
    let Undo { was, log } = undo;
    forget(was);
    log.settle(context);
}

/// Takes a change back: the root and the tables are those before it. It takes no memory.
pub fn undo<M: Mix>(context: &mut Context<M>, root: &mut Root, undo: Undo)
    requires led { (t : Tables) × Leads M.mixed t undo.log.steps context.old }
    ensures tables { (t : Tables) → Leads M.mixed t undo.log.steps context.old → context.new ≡ t }
    ensures root { root.new ≡ undo.was }
{
    let Undo { was, log } = undo;
    forget(mem::replace(root, was));
    log.undo(context);
}
