//! What Matrix Market files (`.mtx`) of integers and of patterns say and what is written into them: `specs/Matrix.antt` defines what
//! a text stands for, by the banner (`specs/Banner.antt`), the size line (`specs/Size.antt`) and the entry lines (`specs/Entry.antt`),
//! `specs/Text.antt` the text of a tensor. `MtxReader` reads a file in pieces (`specs/MtxReader.antt`), `put_mtx` writes one,
//! and `laws` claims that what is written stands for its tensor.
#![tactic(auto)]

mod banner;
mod due;
mod entry;
mod fields;
mod file_fault;
mod finish;
mod header;
mod laws;
mod mtx_reader;
mod pieces;
mod place;
mod plain_lines;
mod printing;
mod stage;
mod step;

pub use file_fault::FileFault;
pub use laws::{tensors_have_one_text, written_texts_stand_for_their_tensor};
pub use mtx_reader::MtxReader;
pub use printing::put_mtx;
