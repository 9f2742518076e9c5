//! When a kernel is right whose result isn't dense throughout: a lemma alone, and no code. `specs/Kernels.antt` says what its
//! code has to do, from the loops that push rows into a workspace to the levels that are filled from them, and that it then leaves the
//! statement's result; `specs/Turns.antt` how often its loops turn.
#![tactic(auto)]
