//! The code of one term: whether the term is present where the loops around stand, its value there, and the row that it adds.
//! `specs/Places.antt` says where a kernel keeps what loops have found, `specs/Options.antt` what it is that code leaves a value
//! that may be absent, and `specs/Terms.antt` that code adds a term's row to a sink. Three sinks take the rows: the
//! values of a dense result, a workspace, and a sum that is kept in variables.
#![tactic(auto)]

mod dense_sink;
mod places;
mod presence;
mod sum_sink;
mod terms;
mod values;
mod workspace_sink;

pub use dense_sink::DenseSink;
pub use places::{AccessPlace, Places, at_top};
pub use presence::{fullness_of, presence_of};
pub use sum_sink::SumSink;
pub use terms::emit_term;
pub use values::emit_value;
pub use workspace_sink::WorkspaceSink;
