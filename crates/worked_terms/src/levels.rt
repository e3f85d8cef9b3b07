//! Entries without a position, and the mix by its formulas.
use trie_depth::{ConstMix, Id, L1, L2, L3, Level, Mix, Pair, SplitMix, Trip};

/// The law that joins the three functions, through the bound alone.
fn is_put_back<L: Level>(e: L::Entry) -> bool {
    for pos in 0..L::DEPTH {
        if L::with(L::without(e, pos), pos, L::key(e, pos)) != e {
            return false;
        }
    }
    true
}

#[test]
fn a_position_is_taken_out_and_put_back(rt: HostRuntime) {
    assert!(rt; is_put_back::<L1>(Id(7)));
    assert!(rt; is_put_back::<L2>(Pair(Id(7), Id(8))));
    assert!(rt; is_put_back::<L3>(Trip(Id(7), Id(8), Id(9))));
}

#[test]
fn a_triple_without_a_position(rt: HostRuntime) {
    let e = Trip(Id(7), Id(8), Id(9));
    for (pos, key, less) in [
        (0, Id(7), Pair(Id(8), Id(9))),
        (1, Id(8), Pair(Id(7), Id(9))),
        (2, Id(9), Pair(Id(7), Id(8))),
    ] {
        assert!(rt; L3::key(e, pos) == key);
        assert!(rt; L3::without(e, pos) == less);
    }
}

fn mixes<M: Mix>(depth: u8, a: u32, b: u32, c: u32) -> u64 {
    M::mix(depth, Id(a), Id(b), Id(c))
}

#[test]
fn split_mix_by_its_formulas(rt: HostRuntime) {
    let most = 4_294_967_295;
    for (depth, a, b, c, want) in [
        (1, 0, 0, 0, 0x5692_161d_100b_05e5),
        (1, 1, 0, 0, 0xdbd2_3897_3a2b_148a),
        (1, most, 0, 0, 0xd820_b7e9_10b0_f93f),
        (2, 1, 2, 0, 0xa0e5_6294_9861_0724),
        (2, 1, 3, 0, 0x0b98_1279_05fd_cbc6),
        (2, 2, 1, 0, 0x7ceb_7d33_0945_8463),
        (2, most, most, 0, 0x9aaf_d1c9_6b82_3556),
        (3, 0, 0, 0, 0x55c5_5969_ed40_3149),
        (3, 1, 2, 3, 0x8c9f_c736_aba8_55b6),
        (3, 3, 2, 1, 0x12ad_5c20_4bad_d5d1),
        (3, most, most, most, 0xc64a_0916_028a_aaf8),
        (3, 2_147_483_647, 0, 12345, 0x0332_0e8e_346e_b920),
    ] {
        assert_eq!(rt;
            mixes::<SplitMix>(depth, a, b, c),
            want,
            "mix {depth} of {a} {b} {c}"
        );
        assert_eq!(rt; mixes::<ConstMix>(depth, a, b, c), 0);
    }
}
