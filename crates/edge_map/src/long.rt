//! Several chunks in pages.
ghost use Rattle.std.specs.Prelude.{◌≡◌, ◌≤◌, ◌^◌, length};
ghost use Rattle.edge_map.specs.Entries.{KeysRise};
ghost use Rattle.edge_map.specs.Chunks.{flat, seek_in, AreSized};
ghost use Rattle.edge_map.specs.Pages.{paged, AreFull};

use crate::edge::Edge;
use crate::page::Page;
use crate::pages::{n_chunks, seek_paged, size_of_pages};
use crate::rest::Rest;
use std::cell::Cell;
use std::marker::Model;
use trie_depth::Id;

/// Pages, and how many entries they have.
#[derive(Drop)]
pub struct Long {
    size: usize,
    pages: Vec<Page>,
    /// How many pages the last search passed.
    near_page: Cell<usize>,
    /// How many chunks of a page the last search passed.
    near: Cell<usize>,
}

impl Model for Long {
    ghost use Rattle.std.specs.Prelude.{◌≡◌, List, length};
    ghost use Rattle.trie_depth.specs.declared.id.Id.{Id};
    ghost use Rattle.edge_map.specs.declared.edge.Edge.{Edge};
    ghost use Rattle.edge_map.specs.Chunks.{flat};
    ghost use Rattle.edge_map.specs.Pages.{paged, AreFull};

    ghost Value = { List (List (Id × Edge)) };

    ghost view = { λ l. paged l.pages.items };

    ghost invariant = { λ l. (l.size ≡ length (flat (paged l.pages.items))) × AreFull l.pages.items };
}

impl Long {
    /// The chunks of the pages.
    pub fn of(pages: Vec<Page>) -> Long
        requires few { length (flat (paged pages.items)) ≤ 2 ^ 32 }
        requires full { AreFull pages.items }
        ensures { result ≡ paged pages.items }
    {
        let size = size_of_pages(&pages);
        Long {
            size,
            pages,
            near_page: Cell::new(0),
            near: Cell::new(0),
        }
    }

    /// How many entries the chunks have.
    pub fn len(&self) -> usize
        ensures { result ≡ length (flat self.now) }
    {
        self.size
    }

    /// How many chunks there are.
    pub fn count(&self) -> usize
        requires { length self.now ≤ 2 ^ 32 }
        ensures { result ≡ length self.now }
    {
        n_chunks(&self.pages)
    }

    /// The first entry whose key isn't below `from`.
    pub fn seek(&self, from: Id) -> Option<(Id, Edge)>
        requires rising { KeysRise (flat self.now) }
        requires sized { AreSized self.now }
        ensures { result ≡ seek_in from.0 (flat self.now) }
    {
        seek_paged(&self.pages, from, &self.near_page, &self.near)
    }

    /// All chunks, to be gone through.
    pub fn rest(&self) -> Rest<'_>
        ensures { result ≡ self.now }
    {
        Rest::of(&[], &self.pages)
    }
}
