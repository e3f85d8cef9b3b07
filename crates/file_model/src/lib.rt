//! Files by their names, and what a read of a file at a place gives: the words of sources that are
//! files. There is no code here.
#![tactic(auto)]
