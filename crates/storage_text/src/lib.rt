//! The text of packed tensors. `specs/StoreText.antt` has its lines, and `put_store_text` appends them.
#![tactic(auto)]

mod levels;
mod sequences;
mod store;

pub use store::put_store_text;
