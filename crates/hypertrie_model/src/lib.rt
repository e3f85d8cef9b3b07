//! Finite sets of tuples, their keys and slices, sums over finite maps, and the sets that maps of
//! sets stand for: the words in which the hypertrie is specified. They are generic in the order of
//! the elements, so that they serve tuples of ids as well as tuples of terms. There is no code here.
#![tactic(auto)]
