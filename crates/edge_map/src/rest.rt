//! Chunks that are left of a list.
ghost use Rattle.std.specs.Prelude.{◌≡◌, ◌<◌, ◌++◌, [], ◌∷◌, IsNone, IfSome, length};
ghost use Rattle.edge_map.specs.Pages.{paged, AreFull};

use crate::chunk::Chunk;
use crate::page::Page;
use std::marker::Model;

/// Chunks, and whole pages behind them.
#[derive(Drop)]
pub struct Rest<'a> {
    chunks: &'a [Chunk],
    pages: &'a [Page],
}

impl<'a> Model for Rest<'a> {
    ghost use Rattle.std.specs.Prelude.{List, ◌++◌};
    ghost use Rattle.trie_depth.specs.declared.id.Id.{Id};
    ghost use Rattle.edge_map.specs.declared.edge.Edge.{Edge};
    ghost use Rattle.edge_map.specs.Pages.{paged, AreFull};

    ghost Value = { List (List (Id × Edge)) };

    ghost view = { λ r. r.chunks.now ++ paged r.pages.now };

    ghost invariant = { λ r. AreFull r.pages.now };
}

impl<'a> Rest<'a> {
    pub fn of(chunks: &'a [Chunk], pages: &'a [Page]) -> Rest<'a>
        requires { AreFull pages.now }
        ensures { result ≡ chunks.now ++ paged pages.now }
    {
        Rest { chunks, pages }
    }

    /// The first chunk, and those behind it.
    pub fn split_first(&self) -> Option<(&'a Chunk, Rest<'a>)>
        ensures some { IfSome result (λ p. self.now ≡ p.0.now ∷ p.1) }
        ensures none { IsNone result → self.now ≡ [] }
    {
        if let Some((chunk, chunks)) = self.chunks.split_first() {
            let pages = self.pages;
            return Some((chunk, Rest { chunks, pages }));
        }
        match self.pages.split_first() {
            Some((page, pages)) => match page.as_slice().split_first() {
                Some((chunk, chunks)) => Some((chunk, Rest { chunks, pages })),
                None => None,
            },
            None => None,
        }
    }

    /// The first page and the chunks behind it, where a page comes next.
    pub fn split_page(&self) -> Option<(&'a Page, Rest<'a>)>
        ensures page { IfSome result (λ p. self.now ≡ p.0.now ++ p.1) }
        ensures some { IfSome result (λ p. 0 < length p.0.now) }
    {
        if !self.chunks.is_empty() {
            return None;
        }
        match self.pages.split_first() {
            Some((page, pages)) => Some((page, Rest { chunks: &[], pages })),
            None => None,
        }
    }
}
