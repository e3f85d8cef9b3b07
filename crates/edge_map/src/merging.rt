//! Changes merged into entries one by one.
ghost use Rattle.std.specs.Prelude.{◌≡◌, ◌<◌, IfOk, length};
ghost use Rattle.edge_map.specs.Entries.{merged};
ghost use Rattle.edge_map.specs.Merging.{whole, n_left};

use crate::edge::Edge;
use crate::place::{first_below, past};
use std::alloc::Global;
use trie_depth::{Id, Memory};

/// The entries and the changes that are left.
#[derive(Clone, Copy)]
struct Merging<'a> {
    entries: &'a [(Id, Edge)],
    changes: &'a [(Id, Option<Edge>)],
}

impl<'a> Merging<'a> {
    /// The next entry is taken over if its key is below that of the next change; else that change is made.
    fn turn(self, new: &mut Vec<(Id, Edge)>) -> Result<Merging<'a>, Memory>
        requires { 0 < length self.changes.now }
        ensures merged { IfOk result (λ left. whole new.new.items left ≡ whole new.old.items self.entry) }
        ensures fewer { IfOk result (λ left. n_left left < n_left self.entry) }
    {
        let Some(((key, edge), changes)) = self.changes.split_first() else {
            unreachable!()
        };
        if let Some((entry, entries)) = first_below(self.entries, *key) {
            new.push(entry)?;
            return Ok(Merging {
                entries,
                changes: self.changes,
            });
        }
        let entries = past(self.entries, *key);
        if let Some(edge) = edge {
            new.push((*key, *edge))?;
        }
        Ok(Merging { entries, changes })
    }
}

/// The entries with each change made, where both are gone through one by one.
pub fn merge_each(
    alloc: Global,
    entries: &[(Id, Edge)],
    changes: &[(Id, Option<Edge>)],
) -> Result<Vec<(Id, Edge)>, Memory>
    ensures { IfOk result (λ new. new.items ≡ merged entries.now changes.now) }
{
    let most = entries.len().saturating_add(changes.len());
    let mut new = Vec::with_capacity(alloc, most)?;
    let mut left = Merging { entries, changes };
    while !left.changes.is_empty() {
        left = left.turn(&mut new)?;
    }
    new.extend_from_slice(left.entries)?;
    Ok(new)
}
