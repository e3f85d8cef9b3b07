//! The graph that a set of triples of Ids stands for, read through a dictionary of terms, and the terms of a graph:
//! definitions and their laws. There is no code here.
#![tactic(auto)]
