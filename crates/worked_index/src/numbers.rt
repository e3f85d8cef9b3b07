use hash_index::HashIndex;
use trie_depth::Memory;

/// Whether the number is among those near its hash.
fn is_listed(index: &HashIndex, hash: u32, number: u32) -> bool {
    for entry in index.near(hash) {
        if entry.hash == hash && entry.number == number {
            return true;
        }
    }
    false
}

#[test]
fn numbers_under_two_hashes(rt: HostRuntime) -> Result<(), Memory> {
    let mut index = HashIndex::new(rt.alloc());
    index.add(7, 1)?;
    index.add(7, 2)?;
    index.add(7, 3)?;
    index.add(8, 4)?;
    index.remove(7, 2);
    assert!(rt; is_listed(&index, 7, 1) && !is_listed(&index, 7, 2) && is_listed(&index, 7, 3));
    assert!(rt; is_listed(&index, 8, 4) && !is_listed(&index, 9, 1));
    Ok(())
}
