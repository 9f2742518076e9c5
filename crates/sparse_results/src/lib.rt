//! What is needed so that a kernel is right whose result isn't dense throughout, and goes through a workspace: lemmas alone,
//! and no code. `specs/Tables.antt` has the rows of a workspace as a table, `specs/Keys.antt` says which keys it has,
//! `specs/Loops.antt` and `specs/Results.antt` that the sums of the rows that loops push are the rows of the result,
//! `specs/Sorting.antt` what sorting leaves, `specs/Stored.antt` what the result's arrays leave, and `specs/Growths.antt` which growths
//! may be refused.
#![tactic(auto)]
