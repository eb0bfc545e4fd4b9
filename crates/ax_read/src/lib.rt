//! Modules from their texts, in LLVM's notation as far as it is read here.
#![tactic(auto)]

mod fault;
mod laws;
mod module_text;

pub use fault::ReadFault;
pub use laws::{derived_modules_are_well_formed, texts_have_one_answer};
pub use module_text::read;
