//! The level interface: a level of a tensor's storage maps each position of the level above to positions of
//! its own, and these to coordinates. `specs/Entries.antt` says what stands below a parent, `specs/Kinds.antt`
//! what the kinds of levels promise of it, and `specs/Logs.antt` what appending leaves. What is seen of a level
//! is one record of `specs/Meaning.antt`; `specs/Laws.antt` has the laws that every kind keeps, and
//! `specs/Codes.antt` what the code of each call does. Everything above the levels is proved over the traits of
//! `level` and `writing` alone; `walk` is the plain program over them. `specs/Arrays.antt` names the arrays that levels have.
#![tactic(auto)]

mod arrays;
mod fragments;
mod guards;
mod letter;
mod level;
mod positions;
mod span;
mod stage;
mod walking;
mod writing;

pub use arrays::LevelArray;
pub use fragments::{argument, leave_one, leave_two};
pub use guards::guarded_product;
pub use letter::{
    Capabilities, Letter, Properties, caps_of, positions_at_start, props_of, zeros_at_start,
};
pub use level::{Level, LevelKind};
pub use positions::positions_below;
pub use span::{Entry, Span};
pub use stage::Stage;
pub use walking::walk;
pub use writing::{Append, Insert};
