//! Where the rows that loops add go: the trait `RowSink`, over whatever holds them, as the values of a dense result, a
//! workspace, or a sum that is kept in variables. `specs/Sinks.antt` says what is seen of a sink, what it is that code adds
//! rows, and what the code is that a sink writes for one row. Loops are proved over this trait alone, and so are the bodies
//! that add.
#![tactic(auto)]

mod sink;

pub use sink::RowSink;
