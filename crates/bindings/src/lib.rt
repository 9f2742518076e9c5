//! What the words behind EXPR bind: formats and files of tensors, ranges of variables. `specs/Words.antt` says what a word
//! says, and `specs/Bindings.antt` what all of them bind, or the first refusal in order.
#![tactic(auto)]

mod binding;
mod bound;
mod fault;
mod file_format;
mod names;
mod tensor_file;
mod word;

pub use binding::{Bindings, bind};
pub use bound::order_of;
pub use fault::{BindingFault, WordFault};
pub use file_format::FileFormat;
pub use names::{first_named, name_at};
pub use tensor_file::TensorFile;
