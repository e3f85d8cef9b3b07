//! Searches and sums over pages.
ghost use Rattle.std.specs.Prelude.{◌≡◌, ℕ, ◌+◌, ◌-◌, ◌<◌, ◌≤◌, ◌^◌, [], IsTrue, length};
ghost use Rattle.std.proofs.Common.{get_or};
ghost use Rattle.edge_map.specs.Entries.{KeysRise};
ghost use Rattle.edge_map.specs.Chunks.{flat, AreSized, BeginBelow, first_key, seek_in};
ghost use Rattle.edge_map.specs.Pages.{paged, by_page, AreFull};

use crate::chunks::seek;
use crate::edge::Edge;
use crate::page::Page;
use std::cell::Cell;
use trie_depth::Id;

/// The first entry of one page whose key isn't below `from`.
fn seek_one(pages: &[Page], at: usize, from: Id, near: &Cell<usize>) -> Option<(Id, Edge)>
    requires rising { KeysRise (flat (paged pages.now)) }
    requires sized { AreSized (paged pages.now) }
    ensures { result ≡ seek_in from.0 (get_or (by_page pages.now) at []) }
{
    match pages.get(at) {
        Some(page) => seek(page.as_slice(), from, near),
        None => None,
    }
}

/// Whether the last of so many pages, if there is one, begins below `from`.
fn last_is_below(pages: &[Page], n: usize, from: Id) -> bool
    requires within { n ≤ length pages.now }
    requires sized { AreSized (paged pages.now) }
    ensures { IsTrue result → 0 < n → first_key (get_or (by_page pages.now) (n - 1) []) < from.0 }
{
    if n == 0 {
        return true;
    }
    pages[n - 1].first().0 < from.0
}

/// Whether the page at a place, if there is one, begins at `from` or above.
fn is_above(pages: &[Page], at: usize, from: Id) -> bool
    requires { AreSized (paged pages.now) }
    ensures { IsTrue result → at < length pages.now → from.0 ≤ first_key (get_or (by_page pages.now) at []) }
{
    match pages.get(at) {
        Some(page) => page.first().0 >= from.0,
        None => true,
    }
}

/// How many pages begin below `from`. A number that is thought to be near is tried first.
fn n_below(pages: &[Page], from: Id, near: usize) -> usize
    requires rising { KeysRise (flat (paged pages.now)) }
    requires sized { AreSized (paged pages.now) }
    requires full { AreFull pages.now }
    ensures { BeginBelow (by_page pages.now) from.0 result }
{
    if near <= pages.len() && last_is_below(pages, near, from) && is_above(pages, near, from) {
        return near;
    }
    pages.partition_point(|page| page.first().0 < from.0)
}

/// The first entry whose key isn't below `from`. The search begins at the page and the chunk where the last one ended,
/// and is right wherever that is.
pub fn seek_paged(
    pages: &[Page],
    from: Id,
    near_page: &Cell<usize>,
    near: &Cell<usize>,
) -> Option<(Id, Edge)>
    requires rising { KeysRise (flat (paged pages.now)) }
    requires sized { AreSized (paged pages.now) }
    requires full { AreFull pages.now }
    ensures { result ≡ seek_in from.0 (flat (paged pages.now)) }
{
    if pages.len() == 1 {
        return seek_one(pages, 0, from, near);
    }
    let behind = n_below(pages, from, near_page.get());
    near_page.set(behind);
    if behind == 0 {
        return seek_one(pages, 0, from, near);
    }
    match seek_one(pages, behind - 1, from, near) {
        Some(found) => Some(found),
        None => seek_one(pages, behind, from, near),
    }
}

/// How many entries the pages have.
pub fn size_of_pages(pages: &[Page]) -> usize
    requires { length (flat (paged pages.now)) ≤ 2 ^ 32 }
    ensures { result ≡ length (flat (paged pages.now)) }
{
    let mut size = 0;
    for page in pages {
        size += page.size();
    }
    size
}

/// How many chunks the pages have.
pub fn n_chunks(pages: &[Page]) -> usize
    requires { length (paged pages.now) ≤ 2 ^ 32 }
    ensures { result ≡ length (paged pages.now) }
{
    let mut n = 0;
    for page in pages {
        n += page.as_slice().len();
    }
    n
}
