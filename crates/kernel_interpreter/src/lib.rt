//! A machine that runs resolved code. The arrays that a kernel only reads are lent to it, the others are its own; each is found by its
//! name in constant time. `specs/Store.antt` says what state a machine stands for, `specs/Memory.antt` which code takes no memory, and
//! `run_statements` does what the meaning of kernels says of the statements that the code stands for.
#![tactic(auto)]

mod ending;
mod machine;
mod operands;
mod room;
mod runs;
mod turns;

pub use ending::Ending;
pub use machine::Machine;
pub use room::make_room;
pub use runs::run_statements;
