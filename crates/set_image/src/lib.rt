//! Images of finite sets under functions, and functions that are one to one on a set: definitions and their laws, in
//! which what is kept under numbers is said to be what the numbers stand for. There is no code here.
#![tactic(auto)]
