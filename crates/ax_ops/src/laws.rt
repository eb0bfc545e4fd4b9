//! What holds of operations on numbers of any width.

ghost use Rattle.std.specs.Prelude.{ℕ, ◌<◌, ◌^◌};
ghost use Rattle.ax_words.specs.declared.operation.RmwOp.{RmwOp as Operation};
ghost use Rattle.ax_ops.specs.Operation.{result_of};

/// What an operation leaves is a number of its width, in bits, where the numbers that it takes are
/// (LLVM Language Reference, "atomicrmw").
pub fn results_fit()
    ensures { (width : ℕ) (op : Operation) (old v : ℕ) → old < 2 ^ width → v < 2 ^ width → result_of width op old v < 2 ^ width }
{}
