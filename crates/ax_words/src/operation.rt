//! The read-modify-write operations of LLVM's `atomicrmw` on whole numbers.

ghost use Rattle.std.specs.Prelude.{◌≡◌};
ghost use Rattle.ax_words.specs.Operation.{operation_word};

/// What a read-modify-write leaves in the object (LLVM Language Reference, `atomicrmw`).
#[derive(Clone, Copy)]
pub enum RmwOp {
    Xchg,
    Add,
    Sub,
    And,
    Nand,
    Or,
    Xor,
    Max,
    Min,
    UMax,
    UMin,
}

impl RmwOp {
    /// The operation's word in LLVM's text.
    pub fn word(self) -> &'static str
        ensures { result.now ≡ operation_word self }
    {
        match self {
            RmwOp::Xchg => "xchg",
            RmwOp::Add => "add",
            RmwOp::Sub => "sub",
            RmwOp::And => "and",
            RmwOp::Nand => "nand",
            RmwOp::Or => "or",
            RmwOp::Xor => "xor",
            RmwOp::Max => "max",
            RmwOp::Min => "min",
            RmwOp::UMax => "umax",
            RmwOp::UMin => "umin",
        }
    }
}
