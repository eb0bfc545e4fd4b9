//! The canonical text of modules.
#![tactic(auto)]

mod canonical;
mod head_tokens;
mod inst_tokens;
mod operand_tokens;
mod tokens;

pub use ax_module::{
    Addr, Arg, Base, BinOp, Block, Cast, Function, Global, Inst, Module, Name, Operand, Pred, Ty,
};
pub use ax_words::{Items, Place, Site};
pub use canonical::spell;
