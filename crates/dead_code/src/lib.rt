//! Code without what nothing reads, or one statement alone. `specs/Live.antt` says which variables may be read behind a place of code,
//! `specs/Follows.antt` when code does what other code does from a state with other variables, `specs/Gathers.antt` when values may be
//! written where variables are read, and `drop_dead` makes such a kernel.
#![tactic(auto)]

mod choices;
mod dead;
mod kernels;
mod live;
mod operands;
mod reads;
mod statements;
mod variables;

pub use kernels::drop_dead;
