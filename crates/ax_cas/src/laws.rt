//! What holds of x86-64's code of operations that call no routine.

ghost use Rattle.ax_fine.specs.Fine.{Program};
ghost use Rattle.ax_expand.specs.Shared.{Shared};
ghost use Rattle.ax_cas.specs.Laws.{PlainAccessesAreExpanded, X86CodeExpands, X86CodeHasRow, X86CodeIsExpanded, X86CodeIsSteady, X86OperationIsCounted};

/// On x86-64 the code of each operation that the decision table lowers inline or by a loop of a locked
/// compare-and-swap, of 1 to 8 bytes and with CMPXCHG16B of 16 bytes, and of each plain load and store
/// of 1, 2, 4 or 8 bytes, is an expansion of the operation on the bytes that all processors share,
/// whatever waits in its processor's store buffer, whatever code stands round it and whatever other
/// processors do (Intel SDM volume 2, MOV, XCHG, XADD, CMPXCHG, CMPXCHG16B, MFENCE; volume 3, "Memory
/// Ordering"). The operation gives as many results as its code has registers for them. The memory and
/// fence instructions of the code are the row of the mapping table, in each order that the operation
/// may have.
pub fn x86_code_expands()
    ensures expands { X86CodeExpands }
    ensures counted { X86OperationIsCounted }
    ensures rows { X86CodeHasRow }
{}

/// Middle code, and where the frames of its processors lie.
pub trait ProgramOnBytes {
    /// A register of middle code.
    ghost Register: { Type 0 };

    /// Which program it is, where there are several.
    ghost Case: { Type 0 };

    ghost program: { Case → Program Register Shared };
}

/// Emission can take this code: it is what emission asks of the code of an atomic operation in a
/// line of middle code over the bytes that all processors share.
pub fn x86_code_is_expanded<M: ProgramOnBytes>()
    ensures { (case : M.Case) → X86CodeIsExpanded (M.program case) }
{}

/// Emission's own instructions for plain loads and stores of 1, 2, 4 and 8 bytes meet their contracts
/// over the bytes that all processors share.
pub fn plain_accesses_are_expanded<M: ProgramOnBytes>()
    ensures { (case : M.Case) → PlainAccessesAreExpanded (M.program case) }
{}

/// The code of an operation has one length, wherever it stands.
pub fn x86_code_is_steady()
    ensures { X86CodeIsSteady }
{}
