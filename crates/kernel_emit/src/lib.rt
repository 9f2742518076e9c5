//! The code of whole loop trees: loops that merge the operands' levels, each inside the other, and at the innermost the terms, whose
//! rows are added to a sink. `specs/Given.antt` says what loop trees and places have to be, and `specs/Emitted.antt` what it is that
//! code adds the contributions of a loop tree, within how many turns, and what a state that it is run from has to hold.
#![tactic(auto)]

mod alone;
mod beginning;
mod beside;
mod closing;
mod emitting;
mod ending;
mod gathering;
mod head;
mod opening;
mod presence;
mod summing;
mod told;
mod within;

pub use beginning::{Begun, begin_loop, end_loop};
pub use emitting::{Emitted, emit};
pub use opening::Opened;
pub use summing::{Summing, begin_sum, end_sum};
