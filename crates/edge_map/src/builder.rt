//! Chunks put one behind another. Runs of them become pages, and a page in which nothing changes is taken whole.
ghost use Rattle.std.specs.Prelude.{◌≡◌, ℕ, ◌<◌, ◌≤◌, ◌^◌, ◌++◌, [], ◌∷◌, IsNone, IfSome, IfOk, OnOk, length};
ghost use Rattle.std.proofs.Common.{option_to_list};
ghost use Rattle.edge_map.specs.Chunks.{flat, last_size};
ghost use Rattle.edge_map.specs.Pages.{paged, AreFull};

use crate::chunk::Chunk;
use crate::list::ChunkList;
use crate::page::Page;
use std::alloc::Global;
use std::marker::Model;
use std::mem;
use trie_depth::Memory;

/// So many loose chunks are too many.
const FULL: usize = 128;

/// The first of them, which then become a page.
const PAGE: usize = 64;

/// The size that is told of the last chunk where there is none: any chunk can stand first.
const NONE: usize = 256;

/// The fewest loose chunks that become a page before another page, and the fewest chunks of a page that is shared.
const FEW: usize = 32;

/// Pages, and loose chunks behind them.
#[derive(Drop)]
pub struct Builder {
    alloc: Global,
    pages: Vec<Page>,
    loose: Vec<Chunk>,
}

impl Model for Builder {
    ghost use Rattle.std.specs.Prelude.{List, ◌++◌};
    ghost use Rattle.trie_depth.specs.declared.id.Id.{Id};
    ghost use Rattle.edge_map.specs.declared.edge.Edge.{Edge};
    ghost use Rattle.edge_map.specs.Pages.{paged, AreFull};

    ghost Value = { List (List (Id × Edge)) };

    ghost view = { λ b. paged b.pages.items ++ b.loose.items };

    ghost invariant = { λ b. AreFull b.pages.items };
}

/// The size of the last chunk, 256 where there is none.
fn last_of(chunks: &[Chunk]) -> usize
    ensures size { result ≡ last_size chunks.now }
    ensures within { result ≤ 256 }
{
    match chunks.last() {
        Some(chunk) => chunk.len(),
        None => NONE,
    }
}

/// The run as one page behind the others, if it isn't empty.
fn close(alloc: Global, pages: &mut Vec<Page>, run: Vec<Chunk>) -> Result<(), Memory>
    requires { AreFull pages.old.items }
    ensures chunks { OnOk result (paged pages.new.items ≡ paged pages.old.items ++ run.items) }
    ensures full { AreFull pages.new.items }
{
    if run.len() == 0 {
        return Ok(());
    }
    pages.push(Page::of(alloc, run)?)?;
    Ok(())
}

/// Makes a page of the first loose chunks, if they are too many.
fn close_front(alloc: Global, pages: &mut Vec<Page>, loose: &mut Vec<Chunk>) -> Result<(), Memory>
    requires { AreFull pages.old.items }
    ensures chunks { OnOk result (paged pages.new.items ++ loose.new.items ≡ paged pages.old.items ++ loose.old.items) }
    ensures full { AreFull pages.new.items }
{
    if loose.len() < FULL {
        return Ok(());
    }
    let behind = loose.split_off(PAGE)?;
    let front = mem::replace(loose, behind);
    close(alloc, pages, front)
}

/// Takes the last page apart, if no chunk is loose.
fn loosen(pages: &mut Vec<Page>, loose: &mut Vec<Chunk>) -> Result<(), Memory>
    requires { AreFull pages.old.items }
    ensures chunks { OnOk result (paged pages.new.items ++ loose.new.items ≡ paged pages.old.items ++ loose.old.items) }
    ensures some { OnOk result (loose.new.items ≡ [] → paged pages.new.items ≡ []) }
    ensures full { AreFull pages.new.items }
{
    if loose.len() > 0 {
        return Ok(());
    }
    match pages.pop() {
        Some(page) => page.append_to(loose),
        None => Ok(()),
    }
}

impl Builder {
    pub fn new(alloc: Global) -> Builder
        ensures { result ≡ [] }
    {
        Builder {
            alloc,
            pages: Vec::new(alloc),
            loose: Vec::new(alloc),
        }
    }

    /// The size of the last chunk, 256 where there is none.
    pub fn last_len(&self) -> usize
        ensures size { result ≡ last_size self.now }
        ensures within { result ≤ 256 }
    {
        if self.loose.len() > 0 {
            return last_of(&self.loose);
        }
        match self.pages.last() {
            Some(page) => last_of(page.as_slice()),
            None => NONE,
        }
    }

    /// Whether a page of so many chunks is better shared than taken apart.
    pub fn takes_whole(&self, chunks: usize) -> bool {
        let loose = self.loose.len();
        chunks >= FEW && (loose == 0 || loose >= FEW)
    }

    pub fn push(&mut self, chunk: Chunk) -> Result<(), Memory>
        ensures { OnOk result (self.new ≡ self.old ++ chunk ∷ []) }
    {
        close_front(self.alloc, &mut self.pages, &mut self.loose)?;
        self.loose.push(chunk)?;
        Ok(())
    }

    /// The chunks of a page behind the others.
    pub fn push_page(&mut self, page: &Page) -> Result<(), Memory>
        requires { 0 < length page.now }
        ensures { OnOk result (self.new ≡ self.old ++ page.now) }
    {
        let loose = mem::replace(&mut self.loose, Vec::new(self.alloc));
        close(self.alloc, &mut self.pages, loose)?;
        self.pages.push(page.share()?)?;
        Ok(())
    }

    /// Takes the last chunk off.
    pub fn pop(&mut self) -> Result<Option<Chunk>, Memory>
        ensures last { IfOk result (λ o. self.old ≡ self.new ++ option_to_list o) }
        ensures none { IfOk result (λ o. IsNone o → self.old ≡ []) }
    {
        loosen(&mut self.pages, &mut self.loose)?;
        Ok(self.loose.pop())
    }

    /// The list of the chunks.
    pub fn finish(self) -> Result<ChunkList, Memory>
        requires { length (flat self) ≤ 2 ^ 32 }
        ensures { IfOk result (λ list. list ≡ self) }
    {
        let Builder {
            alloc,
            mut pages,
            mut loose,
        } = self;
        if pages.is_empty() && loose.len() <= 1 {
            return Ok(ChunkList::few(loose.pop()));
        }
        close(alloc, &mut pages, loose)?;
        ChunkList::many(alloc, pages)
    }
}
