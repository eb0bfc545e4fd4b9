//! What holds of RV64's code of operations that call no routine.

ghost use Rattle.ax_fine.specs.Fine.{Program};
ghost use Rattle.ax_expand.specs.Bytes.{bytes_world};
ghost use Rattle.ax_expand.specs.Doing.{on_registers};
ghost use Rattle.ax_expand.specs.Operation.{Inner};
ghost use Rattle.ax_expand.specs.Shared.{Shared};
ghost use Rattle.ax_rv.specs.Instructions.{rv_kind};
ghost use Rattle.ax_rv.specs.declared.instructions.RvInstr.{RvInstr as Instr};
ghost use Rattle.ax_target.specs.declared.target.Target.{Target};
ghost use Rattle.ax_llsc.specs.Codes.{Coded, args_of, doing_of, registers_for, results_of, rounding};
ghost use Rattle.ax_llsc.specs.Laws.{DirectCodeExpands, DirectCodeHasRow, DirectCodeIsExpanded, DirectCodeIsSteady, DirectOperationIsCounted, PlainAccessesAreExpanded};
ghost use Rattle.ax_llsc.specs.Rounds.{Standing, unfinished, wrapping_at};

use ax_expand::{AccessOnMachine, WrappedOperation, one_access_follows, wrapped_code_follows};
use ax_loops::{ReplacedNumber, pair_exchange_expands, retry_loop_expands};
use ax_mask::masked_code_expands;
use ax_rv::RvInstr;

/// The access of an operation's code, on registers that are prepared for it.
struct DirectAccess;

impl AccessOnMachine for DirectAccess {
    type Instr = RvInstr;

    ghost Case = { Target × Coded };

    ghost kind = { rv_kind };

    ghost operation = { λ x. unfinished (rounding x.0 x.1) };
}

/// The code round that access, wherever it stands.
struct DirectCode;

impl WrappedOperation for DirectCode {
    type Instr = RvInstr;

    ghost Case = { Standing Instr × (Target × Coded) };

    ghost Above = { Inner };

    ghost Common = { Shared };

    ghost wrapping = { λ x. wrapping_at (rounding x.1.0 x.1.1) x.0 };
}

/// An operation that a loop of a linked load and a pair store does, of the number that it replaces.
struct LoopedOperation;

impl ReplacedNumber for LoopedOperation {
    type Instr = RvInstr;

    ghost Shared = { Shared };

    ghost Case = { Target × Coded };

    ghost kind = { rv_kind };

    ghost world = { bytes_world };

    ghost operation = { λ x. on_registers (doing_of x.0 x.1) (registers_for x.1).address (args_of x.1) (results_of x.1) };
}

/// On RV64 the code of each operation that the decision table lowers inline or by a loop of a linked
/// load and a pair store, of the object itself or of the word that holds it, and of each plain load and
/// store of 1, 2, 4 or 8 bytes, is an expansion of the operation on the bytes that all processors share, whatever code stands round it and whatever
/// other processors do (RISC-V Unprivileged ISA: RV64I, and A, "Atomic Memory Operations" and
/// "Load-Reserved/Store-Conditional Instructions"). The operation gives as many results as its code
/// has registers for them. The memory and fence instructions of the code are the row of the mapping
/// table, in each order that the operation may have.
pub fn direct_code_expands()
    ensures expands { DirectCodeExpands }
    ensures counted { DirectOperationIsCounted }
    ensures rows { DirectCodeHasRow }
{
    one_access_follows::<DirectAccess>();
    wrapped_code_follows::<DirectCode>();
    masked_code_expands();
    pair_exchange_expands::<LoopedOperation>();
    retry_loop_expands::<LoopedOperation>();
}

/// Middle code, and where the frames of its processors lie.
pub trait ProgramOnBytes {
    /// A register of middle code.
    ghost Register: { Type 0 };

    /// Which program it is, where there are several.
    ghost Case: { Type 0 };

    ghost program: { Case → Program Register Shared };
}

/// Emission can take this code: it is what emission asks of the code of an atomic operation in a
/// line of middle code over the bytes that all processors share.
pub fn direct_code_is_expanded<M: ProgramOnBytes>()
    ensures { (case : M.Case) → DirectCodeIsExpanded (M.program case) }
{
    direct_code_expands();
}

/// Emission's own instructions for plain loads and stores of 1, 2, 4 and 8 bytes, with what clears the
/// upper bits of a loaded word, meet their contracts over the bytes that all processors share.
pub fn plain_accesses_are_expanded<M: ProgramOnBytes>()
    ensures { (case : M.Case) → PlainAccessesAreExpanded (M.program case) }
{
    direct_code_expands();
}

/// The code of an operation has one length, wherever it stands.
pub fn direct_code_is_steady()
    ensures { DirectCodeIsSteady }
{}
