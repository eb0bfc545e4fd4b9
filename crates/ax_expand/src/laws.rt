//! How contracts of code compose: straight code, one instruction, and code round an expansion.

ghost use Rattle.ax_isa.specs.Steps.{Kind};
ghost use Rattle.ax_expand.specs.Continues.{Context, IsContext, IsStable};
ghost use Rattle.ax_expand.specs.Laws.{AccessFollows, JumpContinues, OneFollows, PrivateFollows, StraightContinues, WrappedFollows};
ghost use Rattle.ax_expand.specs.Operation.{Operation};
ghost use Rattle.ax_expand.specs.Shared.{Shared};
ghost use Rattle.ax_expand.specs.World.{World};
ghost use Rattle.ax_expand.specs.Wraps.{Wrapping};

/// Code round operations: it loads what an operation takes, and stores what that gives.
pub trait WrappedOperation {
    type Instr;

    /// Which of them.
    ghost Case: { Type 0 };

    /// What a processor is above.
    ghost Above: { Type 0 };

    /// What all processors share above.
    ghost Common: { Type 0 };

    /// The operation, its expansion, and the code before and behind.
    ghost wrapping: { Case → Wrapping Self.Instr Above Common };
}

/// The code of instructions of middle code, as one processor runs it.
pub trait CodeInContext {
    type Instr;

    /// Which of them.
    ghost Case: { Type 0 };

    /// What a processor is above.
    ghost Above: { Type 0 };

    /// What all processors share above.
    ghost Common: { Type 0 };

    /// The machine, the meaning, and what stands above.
    ghost context: { Case → Context Self.Instr Above Common };
}

/// Operations on bytes below the frames, for a machine whose instructions may be one.
pub trait AccessOnMachine {
    type Instr;

    /// Which of them.
    ghost Case: { Type 0 };

    /// The instruction set.
    ghost kind: { Kind Self.Instr };

    /// What each operation does.
    ghost operation: { Case → Operation Shared };
}

/// Operations, for a machine whose instructions may be one.
pub trait OperationOnMachine {
    type Instr;

    /// Which of them.
    ghost Case: { Type 0 };

    /// What all processors share above.
    ghost Common: { Type 0 };

    /// The instruction set.
    ghost kind: { Kind Self.Instr };

    /// What it shows of what all share.
    ghost world: { World Common };

    /// What each operation does.
    ghost operation: { Case → Operation Common };
}

/// Code that loads slots, then an expansion of which nothing but its contract is known, then code
/// that stores, keeps in step with what stands above, through whatever its processor and others do,
/// for each processor whose event the operation is.
pub fn wrapped_code_follows<C: WrappedOperation>()
    ensures { (case : C.Case) → WrappedFollows (C.wrapping case) }
{}

/// Straight code without events leads from one private state to the next, and so does a jump
/// inside an instruction's code: what keeps in step behind them keeps in step before them.
pub fn straight_code_continues<C: CodeInContext>()
    ensures straight { (case : C.Case) → IsContext (C.context case) → StraightContinues (C.context case) }
    ensures jump { (case : C.Case) → IsContext (C.context case) → JumpContinues (C.context case) }
{}

/// Code of which others see nothing, whose last step has its event, keeps in step with the
/// instruction that it is.
pub fn private_code_follows<C: CodeInContext>()
    ensures { (case : C.Case) → IsContext (C.context case) → IsStable (C.context case) → PrivateFollows (C.context case) }
{}

/// An instruction whose step does what an operation says is an expansion of that operation,
/// whatever code stands round it.
pub fn one_instruction_follows<C: OperationOnMachine>()
    ensures { (case : C.Case) → OneFollows C.kind C.world (C.operation case) }
{}

/// An instruction that makes one access to an object that all processors share (a load, a store, a
/// locked change) or is a fence is an expansion of the operation that this access is.
pub fn one_access_follows<C: AccessOnMachine>()
    ensures { (case : C.Case) → AccessFollows C.kind (C.operation case) }
{}
