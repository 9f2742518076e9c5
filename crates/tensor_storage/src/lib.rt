//! The storage of tensors: a level of any kind, and packed tensors, whose levels stand one below another with a value for
//! each position of the last. `specs/Storages.antt` says what is stored of a tensor, and
//! `specs/Stands.antt` for which table of named coordinates and values it stands. `specs/Standing.antt` says where there is such a storage:
//! calls that pack may always be refused for want of memory, so that no contract of theirs tells it.
#![tactic(auto)]

mod appending;
mod entries;
mod finding;
mod inserting;
mod kind;
mod kinds;
mod level;
mod listing;
mod packing;
mod places;
mod reading;
mod table;
mod tensor;
mod words;

pub use kinds::{chain_end, kind_of};
pub use level::StorageLevel;
pub use packing::PackRefusal;
pub use table::RowTable;
pub use tensor::Tensor;
pub use words::LevelWords;
