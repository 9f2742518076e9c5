//! The cost of a statement, told by its groups of terms alone, and that its loops cost no more. `specs/Costs.antt` has the definitions.
//! There is no code here.
#![tactic(auto)]
