//! What an expansion of an atomic operation is, and code round it: contracts that compose.
#![tactic(auto)]

mod laws;

pub use laws::{
    AccessOnMachine, CodeInContext, OperationOnMachine, WrappedOperation, one_access_follows,
    one_instruction_follows, private_code_follows, straight_code_continues, wrapped_code_follows,
};
