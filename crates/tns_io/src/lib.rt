//! What `.tns` files say and what is written into them: `specs/Reading.antt` defines the reading of a line and of a
//! text, `specs/Text.antt` the text of a tensor, `specs/Positions.antt` where coordinates stand in a dense tensor,
//! and `laws` claims that what is written stands for its tensor.
#![tactic(auto)]

mod entry_lines;
mod file_fault;
mod laws;
mod plain_lines;
mod printing;
mod tns_reader;

pub use file_fault::FileFault;
pub use laws::{tensors_have_one_text, written_texts_stand_for_their_tensor};
pub use printing::put_tns;
pub use tns_reader::TnsReader;
