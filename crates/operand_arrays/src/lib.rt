//! What arrays hold of the operands of a statement while loops run over them: `specs/Operands.antt` says which levels and values
//! stand behind the accesses, when arrays hold them, and when the positions that loops have found may be asked on.
//! `specs/Terms.antt` says that each term below loops is such, `specs/Apart.antt` that places are apart from the variables of a sink.
//! There is no code here.
#![tactic(auto)]
