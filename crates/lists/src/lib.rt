//! What the standard library lacks about lists and tests of numbers: a fact of each element by recursion, and lemmas
//! that several crates cite. There is no code here.
#![tactic(auto)]
