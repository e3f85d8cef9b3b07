//! Texts that were made to have one hash under the seed 0, and their hashes under other seeds.
use crate::text_hash::TextHash;
use hash_index::short_hash;

const MADE_TO_COLLIDE: [&str; 16] = [
    "x:_Bel31iEl2hpChYgCfrL1sPtYgjmUh-64UyL.TgKcoba7O",
    "x:fao1eIE6V-HRxo5O_.tWs~PtYgjmUh-64UyL.TgKcoba7O",
    "x:bXbLwfaT..Az7CViUWDGESPtYgjmUh-64UyL.TgKcoba7O",
    "x:Hu9zF668LVvn_J~Igf_BcmPtYgjmUh-64UyL.TgKcoba7O",
    "x:rN-Bo.mJZQwJsWtIeRU3EaPtYgjmUh-64UyL.TgKcoba7O",
    "x:hBrb8JuyscmpKpqGhwLKVdPtYgjmUh-64UyL.TgKcoba7O",
    "x:waK-~f3Ata06x0RiWj~EUKPtYgjmUh-64UyL.TgKcoba7O",
    "x:fggTJbRs2YqIIW4~9MECTLPtYgjmUh-64UyL.TgKcoba7O",
    "x:ds7Q34y1dIgJpMX2IZ5xDCPtYgjmUh-64UyL.TgKcoba7O",
    "x:O3em5eDGixD2kAu.E93LnvPtYgjmUh-64UyL.TgKcoba7O",
    "x:YSm63vmSqWLhNHY5RJm~vUPtYgjmUh-64UyL.TgKcoba7O",
    "x:9Z9vhnRCLnLjsONE30BcbsPtYgjmUh-64UyL.TgKcoba7O",
    "x:jgotH0IX8MSMJS2jW0l4GcPtYgjmUh-64UyL.TgKcoba7O",
    "x:Wm-XxMHaPTJkjmcoqaa-NiPtYgjmUh-64UyL.TgKcoba7O",
    "x:A4lknST8ZmbyDNEZq~9kZTPtYgjmUh-64UyL.TgKcoba7O",
    "x:j5mjYy.T3MnJiDhy9Be8WkPtYgjmUh-64UyL.TgKcoba7O",
];

/// How many of the texts have the hash of the first one.
fn like_the_first(secrets: &TextHash) -> usize {
    let first = secrets.hash(MADE_TO_COLLIDE[0], "");
    MADE_TO_COLLIDE
        .iter()
        .filter(|text| short_hash(secrets.hash(text, "")) == short_hash(first))
        .count()
}

#[test]
fn texts_collide_under_one_seed_alone(rt: HostRuntime) {
    for (seed, count) in [(0, 16), (1, 1), (2, 1)] {
        let secrets = TextHash::of(seed);
        assert_eq!(rt; like_the_first(&secrets), count, "under the seed {seed}");
    }
}
