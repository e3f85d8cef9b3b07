//! A run of chunks that several lists share.
ghost use Rattle.std.specs.Prelude.{◌≡◌, ℕ, ◌<◌, ◌≤◌, ◌++◌, [], IfOk, OnOk, length};
ghost use Rattle.std.proofs.Common.{get_or};
ghost use Rattle.edge_map.specs.Chunks.{first_key};
ghost use Rattle.edge_map.specs.Pages.{IsSize};

use crate::chunk::Chunk;
use crate::chunks::total;
use std::alloc::Global;
use std::marker::Model;
use std::rc::Rc;
use trie_depth::{Id, Memory};

/// The first key and the number of entries stand beside what is shared.
#[derive(Drop)]
pub struct Page {
    first: Id,
    size: usize,
    chunks: Rc<Vec<Chunk>>,
}

impl Model for Page {
    ghost use Rattle.std.specs.Prelude.{List};
    ghost use Rattle.trie_depth.specs.declared.id.Id.{Id};
    ghost use Rattle.edge_map.specs.declared.edge.Edge.{Edge};
    ghost use Rattle.edge_map.specs.Pages.{IsPage};

    ghost Value = { List (List (Id × Edge)) };

    ghost view = { λ p. p.chunks.value.items };

    ghost invariant = { λ p. IsPage p.first.0 p.size p.chunks.value.items };
}

/// The first key of the chunks, 0 where there are none.
fn first_of(chunks: &[Chunk]) -> Id
    ensures { result.0 ≡ first_key (get_or chunks.now 0 []) }
{
    match chunks.first() {
        Some(chunk) => chunk.first(),
        None => Id(0),
    }
}

impl Page {
    pub fn of(alloc: Global, chunks: Vec<Chunk>) -> Result<Page, Memory>
        ensures { IfOk result (λ page. page ≡ chunks.items) }
    {
        let first = first_of(&chunks);
        let size = total(&chunks);
        let chunks = Rc::new(alloc, chunks)?;
        Ok(Page {
            first,
            size,
            chunks,
        })
    }

    /// The same chunks again, without going through them.
    pub fn share(&self) -> Result<Page, Memory>
        ensures { IfOk result (λ page. page ≡ self.now) }
    {
        let chunks = self.chunks.clone()?;
        Ok(Page {
            first: self.first,
            size: self.size,
            chunks,
        })
    }

    pub fn as_slice(&self) -> &[Chunk]
        ensures { result.now ≡ self.now }
    {
        &self.chunks
    }

    /// How many entries there are.
    pub fn size(&self) -> usize
        ensures { IsSize result self.now }
    {
        self.size
    }

    pub fn first(&self) -> Id
        ensures { result.0 ≡ first_key (get_or self.now 0 []) }
    {
        self.first
    }

    /// Appends the chunks to `run`.
    pub fn append_to(&self, run: &mut Vec<Chunk>) -> Result<(), Memory>
        ensures { OnOk result (run.new.items ≡ run.old.items ++ self.now) }
    {
        for chunk in self.as_slice() {
            run.push(chunk.share()?)?;
        }
        Ok(())
    }
}
