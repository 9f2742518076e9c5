//! Code resolved once, before it is run: statements over slots, which say at one glance what they do. `syntax` has them,
//! `specs/Erase.antt` says for which statement of the kernel language each stands, so that the language has no second meaning,
//! `specs/Rooms.antt` how many variables have to have places, and `specs/Fits.antt` the same variable by variable. `resolve` makes them.
#![tactic(auto)]

mod counts;
mod resolving;
mod rooms;
mod shapes;
mod syntax;

pub use counts::count_resolved;
pub use resolving::resolve;
pub use rooms::greatest_variable;
pub use syntax::{Resolved, Value};
