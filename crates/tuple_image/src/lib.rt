//! Sets of tuples read element by element through a function that is one to one on the elements: keys, slices, counts
//! and the shape of a set are, read, those of the set that is read. Definitions and laws; there is no code here.
#![tactic(auto)]
