//! Nodes read and compared, and hashes of a few entries.
use edge_map::{Edge, EdgeMap};
use std::alloc::Global;
use trie_depth::{ConstMix, Id, L1, L2, L3, Memory, Pair, Same, SplitMix, Trip};
use trie_node::{Node, toggled};

#[test]
fn toggles_the_mix_of_an_entry(rt: HostRuntime) {
    let one = toggled::<SplitMix, L2>(0, Pair(Id(1), Id(2)));
    assert_eq!(rt; one, 0xa0e5_6294_9861_0724);
    let both = toggled::<SplitMix, L2>(one, Pair(Id(1), Id(3)));
    assert_eq!(rt; both, 0xab7d_70ed_9d9c_cce2);
    assert_eq!(rt; toggled::<SplitMix, L2>(both, Pair(Id(1), Id(3))), one);
    assert_eq!(rt; toggled::<SplitMix, L1>(0, Id(1)), 0xdbd2_3897_3a2b_148a);
    assert_eq!(rt;
        toggled::<SplitMix, L3>(0, Trip(Id(1), Id(2), Id(3))),
        0x8c9f_c736_aba8_55b6
    );
    assert_eq!(rt; toggled::<ConstMix, L2>(0, Pair(Id(1), Id(2))), 0);
}

/// Two pairs with the key 1 first; the row that the first edge leads to has number 5.
fn two_pairs(alloc: Global, hash: u64) -> Result<Node, Memory> {
    let empty = EdgeMap::new(alloc);
    Ok(Node::Full {
        size: 2,
        hash,
        first: empty.with(&[(Id(1), Some(Edge::Node(5)))])?,
        second: empty.with(&[
            (Id(2), Some(Edge::Key(Id(1)))),
            (Id(3), Some(Edge::Key(Id(1)))),
        ])?,
        third: EdgeMap::new(alloc),
    })
}

#[test]
fn reads_a_node(rt: HostRuntime) {
    let node = two_pairs(rt.alloc(), 0xab7d_70ed_9d9c_cce2).expect(&rt, "memory is left");
    let single = Node::Single(Pair(Id(1), Id(2)));
    assert_eq!(rt; node.hash_of::<SplitMix>(), 0xab7d_70ed_9d9c_cce2);
    assert_eq!(rt; single.hash_of::<SplitMix>(), 0xa0e5_6294_9861_0724);
    assert_eq!(rt; node.size(), 2);
    assert_eq!(rt; single.size(), 1);
    for (pos, len) in [(0, 1), (1, 2), (2, 0)] {
        assert_eq!(rt; node.map(pos).map(|map| map.len()), Some(len), "at {pos}");
        assert!(rt; single.map(pos).is_none());
    }
    let again = two_pairs(rt.alloc(), 0xab7d_70ed_9d9c_cce2).expect(&rt, "memory is left");
    let other = two_pairs(rt.alloc(), 0).expect(&rt, "memory is left");
    assert!(rt; node.same(&again));
    assert!(rt; !node.same(&other));
    assert!(rt; !node.same(&single));
    assert!(rt; single.same(&Node::Single(Pair(Id(1), Id(2)))));
}
