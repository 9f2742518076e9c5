//! What is needed above the code of loops so that a kernel for a result whose levels are all dense is right: lemmas alone, and no
//! code. `specs/Results.antt` says what the result's arrays hold as a run starts, and that they leave the statement's
//! result once all rows are added; `specs/Operands.antt` what the arrays hold of the operands, and what these tell;
//! `specs/Loops.antt` what is so of the loops that a statement is lowered to, of the rows that they add, and how many there are;
//! `specs/Kernels.antt` when a kernel is right whose code adds these rows.
#![tactic(auto)]
